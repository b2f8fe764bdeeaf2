//! The program `load`: standard input to standard output. One byte more than the longest line is read, which tells longer input.
#![tactic(auto)]

use std::io;
use std::io::{Read, Write};

// Kept: the programs `load` and `yard` share no library of input and output, and one for these two small functions is no plainer.
// Writes the output, or says on standard error that it cannot be written.
fn print(rt: &HostRuntime, output: &[u8]) {
    if io::writer(rt).write_all(output).is_err() {
        let _ = eprintln!(rt; "load: the output cannot be written");
    }
}

fn main(rt: HostRuntime) -> io::Result<()> {
    let mut input = Vec::new(rt.alloc());
    rt.reader()
        .take(sweep::MAX_INPUT as u64 + 1)
        .read_to_end(&mut input)?;
    let mut out = [0u8; sweep::OUTPUT_SIZE];
    let count = sweep::run(input.as_slice(), &mut out).unwrap_or(0);
    print(&rt, &out[..count]);
    Ok(())
}
