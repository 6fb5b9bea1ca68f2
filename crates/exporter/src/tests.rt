mod console;
mod links;
mod loopback;
mod one_inverter;
mod plain_commands;
mod plants;
mod refusals;
mod runs;
mod sites;
mod waits;

use exporter_commands::Ended;
use std::alloc::{AllocError, Global};
use std::process::Abort;
use world_traits::BytesSink;

/// The words of a command line.
fn words(alloc: Global, line: &str) -> Result<Vec<String>, AllocError> {
    let mut words = Vec::new(alloc);
    for word in line.split(' ') {
        words.push(String::from_str(alloc, word)?)?;
    }
    Ok(words)
}

/// The first so many lines of a text.
fn first_lines(alloc: Global, text: &str, count: usize) -> Result<String, AllocError> {
    let mut first = String::new(alloc);
    for line in text.lines().take(count) {
        first.push_str(line)?;
        first.push_str("\n")?;
    }
    Ok(first)
}

/// That a command of this name ended like this, and wrote this.
fn comes_to(rt: &impl Abort, name: &str, came: &(Ended, BytesSink), end: Ended, text: &str) {
    assert_eq!(rt; came.0, end, "{name}");
    assert_eq!(rt; came.1.taken(), text.as_bytes(), "{name}");
}
