//! Cells made by other implementations, sealed, carried and opened anew: every payload on a link has to be theirs, byte for byte.
#![tactic(auto)]

mod circuit;
mod line;
mod route;
mod tally;

use anyhow::anyhow;
use circuit::Circuit;
use line::{cell_line, is_slip, slip_line};
use std::{env, fs};

const USAGE: &str = "usage: cells FILE ..
  suite=S slip=K key=HEX    a line for each hop of a suite, outward from 1
  suite=S n=N way=f hop=K plain=HEX link1=HEX digest20=HEX
  suite=S n=N way=b hop=K plain=HEX linkK=HEX link1=HEX digest20=HEX
                            a suite's cells, from N = 0 on: the payload with its tag zero, the payload on links, and the
                            first 20 bytes of the sender's digest once it took the cell; link1 once where K is 1";

fn main(rt: HostRuntime) -> anyhow::Result<()> {
    run(&rt)
}

fn run(rt: &HostRuntime) -> anyhow::Result<()> {
    // Counted here and not by a fold, since a file that cannot be read ends the run.
    let mut files: u32 = 0;
    let mut differ: u32 = 0;
    for path in env::args(rt)?.skip(1) {
        files = files.saturating_add(1);
        differ = differ.saturating_add(file(rt, path.as_str())?);
    }
    if files == 0 {
        println!(rt; "{USAGE}")?;
    }
    if differ > 0 {
        return Err(anyhow!("cells differ"));
    }
    Ok(())
}

// All suites of a file; how much differs.
fn file(rt: &HostRuntime, path: &str) -> anyhow::Result<u32> {
    let heap = rt.alloc();
    let text = fs::read_to_string(rt, path)?;
    let mut circuit = Circuit::new(heap, 0);
    let mut differ: u32 = 0;
    for (number, line) in (1u64..).zip(text.as_str().lines()) {
        match step(rt, &mut circuit, line) {
            Ok(0) => {}
            Ok(n) => {
                differ = differ.saturating_add(n);
                println!(rt; "{path}, line {number}: {n} differ")?;
            }
            Err(e) => {
                println!(rt; "{path}, line {number}: {e}")?;
                return Err(anyhow!("a line is not as it should be"));
            }
        }
    }
    print_tally(rt, &circuit)?;
    Ok(differ)
}

// One line; how much of it differs. A slip of another suite begins a circuit of its own.
fn step(rt: &HostRuntime, circuit: &mut Circuit, line: &str) -> anyhow::Result<u32> {
    let heap = rt.alloc();
    if line.starts_with("#") {
        return Ok(0);
    }
    if !is_slip(line) {
        return circuit.run(&cell_line(heap, line)?);
    }
    let slip = slip_line(heap, line)?;
    if slip.suite != circuit.suite {
        print_tally(rt, circuit)?;
        *circuit = Circuit::new(heap, slip.suite);
    }
    circuit.add(slip)?;
    Ok(0)
}

fn print_tally(rt: &HostRuntime, circuit: &Circuit) -> anyhow::Result<()> {
    if circuit.suite != 0 {
        println!(rt; "suite {}: {}", circuit.suite, circuit.tally)?;
    }
    Ok(())
}
