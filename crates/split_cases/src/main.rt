//! Reads nine extents from each line of standard input, and prints the letters by which they are shared out.
#![tactic(auto)]

mod case;

use anyhow::Context;
use case::letters_of;
use std::io;

fn run(rt: &HostRuntime) -> anyhow::Result<()> {
    let text = io::read_to_string(rt.alloc(), rt.stdin())?;
    for line in text.lines() {
        let letters = letters_of(line).context("a line is no case")?;
        println!(rt; "{letters}")?;
    }
    Ok(())
}

fn main(rt: HostRuntime) -> anyhow::Result<()> {
    run(&rt)
}
