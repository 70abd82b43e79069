//! A message's journey outward: what the client adds, what each relay removes, and which hop recognises it; then a cell that
//! passes a relay with two zero check bytes by chance, and the next cell for that relay, which it still recognises.
#![tactic(auto)]

mod relay;
mod route;
mod script;
mod send;
mod watch;

use anyhow::anyhow;
use script::Script;
use std::io;

const USAGE: &str = "usage: journey < FILE
  slip=N suite=S key=HEX          a line for each hop, outward from 1, at most 8; suites 1, 2 and 3 take 72, 128 and 320 bytes
  send hop=K stream=N text=TEXT   a message for hop K, 1 to 498 bytes of text; any number of such lines
  watch hop=K cells=N             at most N cells past hop K, until one has two zero check bytes there";

fn main(rt: HostRuntime) -> anyhow::Result<()> {
    run(&rt)
}

fn run(rt: &HostRuntime) -> anyhow::Result<()> {
    let heap = rt.alloc();
    let text = io::read_to_string(heap, rt.stdin())?;
    if text.as_str().is_empty() {
        println!(rt; "{USAGE}")?;
        return Ok(());
    }
    let mut script = Script::new(heap);
    for (number, line) in (1u64..).zip(text.as_str().lines()) {
        if let Err(e) = script.line(rt, line) {
            println!(rt; "line {number}: {e}")?;
            println!(rt; "{USAGE}")?;
            return Err(anyhow!("the journey's text is not as it should be"));
        }
    }
    Ok(())
}
