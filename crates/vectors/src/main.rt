//! Runs test vectors: one a line on standard input, its verdict on standard output, and how many were wrong at the end.
#![tactic(auto)]

mod kinds;
mod reading;

use kinds::verdict;
use reading::Stop;
use std::io;

const USAGE: &str = "usage: vectors < FILE, one vector a line:
  aes key=K in=BLOCK out=BLOCK
  ctr key=K layer=N in=PAYLOAD out=PAYLOAD
  lioness key=K in=PAYLOAD out=PAYLOAD
  sha1 in=M out=H
  sha3 in=M out=H
  tag suite=S seed=D cells=P,P,..,P out=T
bytes in lower-case hexadecimal, one space between fields";

fn main(rt: HostRuntime) -> anyhow::Result<()> {
    run(&rt)
}

fn run(rt: &HostRuntime) -> anyhow::Result<()> {
    let heap = rt.alloc();
    let text = io::read_to_string(heap, rt.stdin())?;
    if text.as_str().is_empty() {
        println!(rt; "{USAGE}")?;
    }
    // Counted and not zipped with numbers: the last line prints both counts.
    let mut count: u64 = 0;
    let mut wrong: u64 = 0;
    for line in text.as_str().lines() {
        count = count.saturating_add(1);
        let kind = line.split(' ').next().unwrap_or("");
        match verdict(heap, line) {
            Ok(true) => println!(rt; "line {count}: {kind} right")?,
            Ok(false) => {
                wrong = wrong.saturating_add(1);
                println!(rt; "line {count}: {kind} WRONG")?;
            }
            Err(Stop::NoVector) => {
                wrong = wrong.saturating_add(1);
                println!(rt; "line {count}: WRONG, no vector")?;
            }
            Err(Stop::Memory(e)) => return Err(e.into()),
        }
    }
    println!(rt; "{count} vectors, {wrong} wrong")?;
    Ok(())
}
