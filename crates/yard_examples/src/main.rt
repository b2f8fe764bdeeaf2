//! Runs the yard on each file that an argument names, and writes the file's name and what the yard prints.
#![tactic(auto)]

use std::fs::File;
use std::io::{Read, Write};
use std::{env, io};

// The system's words for an error, without its number.
fn reason(message: &str) -> &str {
    message
        .split_once(" (os error ")
        .map_or(message, |(words, _)| words)
}

// One file. One that cannot be opened is named on standard error, with the reason.
fn one(rt: &HostRuntime, path: &str) -> io::Result<()> {
    println!(rt; "{path}")?;
    let file = match File::open(rt, path) {
        Ok(file) => file,
        Err(why) => {
            let message = format!(in rt.alloc(); "{why}")?;
            return eprintln!(rt; "{path}: {}", reason(message.as_str()));
        }
    };
    let mut input = Vec::new(rt.alloc());
    file.take(simulation::MAX_INPUT as u64 + 1)
        .read_to_end(&mut input)?;
    let mut out = [0u8; simulation::OUTPUT_SIZE];
    let count = simulation::run(input.as_slice(), &mut out).unwrap_or(0);
    io::writer(rt).write_all(&out[..count])
}

fn main(rt: HostRuntime) -> io::Result<()> {
    for path in env::args(&rt)?.skip(1) {
        one(&rt, path.as_str())?;
    }
    Ok(())
}
