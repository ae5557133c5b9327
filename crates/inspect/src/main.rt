// Explains captured bytes, message by message: lines of hexadecimal bytes in, words out.
#![tactic(auto)]

use crate::report::Report;
use anyhow::bail;
use hexadecimal::input::read_input;
use hexadecimal::lines::Lines;
use std::env;
use std::rt::Env;

mod normal;
mod report;

// What is asked for: whether normal forms are shown, and the file to read.
#[derive(Default, Drop)]
struct Asked {
    normal: bool,
    file: Option<String>,
}

// The arguments: an option, and at most one file.
// Read by hand: a parser of command lines would print a usage and end with a status of its own.
fn read_args(rt: &(impl Env + AllocGlobal)) -> anyhow::Result<Asked> {
    let mut asked = Asked::default();
    for arg in env::args(rt)?.skip(1) {
        match arg.as_str() {
            "--normal" => asked.normal = true,
            text if text.starts_with('-') || asked.file.is_some() => {
                bail!("usage: inspect [--normal] [FILE]")
            }
            _ => asked.file = Some(arg),
        }
    }
    Ok(asked)
}

// Explains each line in turn, counted from 1.
fn main(rt: HostRuntime) -> anyhow::Result<()> {
    let asked = read_args(&rt)?;
    let input = read_input(&rt, asked.file.as_deref())?;
    for (number, line) in (1..=u64::MAX).zip(Lines(input.as_slice())) {
        let mut report = Report::new(rt.alloc(), asked.normal);
        report.add_line(number, line)?;
        print!(rt; "{report}")?;
    }
    Ok(())
}
