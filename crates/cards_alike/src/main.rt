// Compares two card files and prints the line of what it finds: `cards_alike` those named left.card and right.card in the folder where it is run,
// `cards_alike LEFT RIGHT` two others.
#![tactic(auto)]

use anyhow::bail;
use input::read_start;
use reports::lines::files_line;
use std::alloc::AllocError;
use std::env;

// The line of two files, the left one read first.
fn line(rt: &HostRuntime, left: &str, right: &str) -> Result<String, AllocError> {
    // Files are read into fixed memory, as far as they are looked at: the public call fills a caller's buffer.
    let mut left_buffer = [0; 1292];
    let mut right_buffer = [0; 1292];
    let left_count = read_start(rt, left, &mut left_buffer);
    let right_count = read_start(rt, right, &mut right_buffer);
    files_line(
        rt.alloc(),
        &left_buffer[..left_count],
        &right_buffer[..right_count],
    )
}

// Prints it. A faulty file is no error of the program: its fault is the line.
fn run(rt: &HostRuntime) -> anyhow::Result<()> {
    let mut args = env::args(rt)?.skip(1);
    let text = match (args.next(), args.next(), args.next()) {
        (None, _, _) => line(rt, "left.card", "right.card")?,
        (Some(left), Some(right), None) => line(rt, left.as_str(), right.as_str())?,
        _ => bail!("usage: cards_alike [LEFT RIGHT]"),
    };
    rt.print(text)?;
    Ok(())
}

fn main(rt: HostRuntime) -> anyhow::Result<()> {
    run(&rt)
}
