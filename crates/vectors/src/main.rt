//! Worked examples of the node, run through its compiled calls. Standard input is a script with one command to a line; each line is printed as it stands,
//! and below it, indented by two spaces, what the command shows. A second implementation can run the same script.
//!
//! There are twelve records and twelve queues, numbered from 0, a log of issued frames, numbered from 1, and one frame at hand.
//! All are zero and empty at first. A number has at most ten digits; one that is missing is 0.
//!
//! - `# text`: a comment.
//! - `Z`: everything as at first.
//! - `U k me n cap`: set-up into record k.
//! - `S k to b o c t`: send from record k to node `to`, with a body of b bytes and an output of o bytes, by class c. The body's first byte is the topic t,
//!   and P, Q and so on follow, so that topic 79 gives O, P, Q. Issued frames go into the log.
//! - `O k q`: offer of the frame at hand at record k, with queue k cut to q bytes.
//! - `D k q o b`: deliver at record k, with queue k cut to q bytes, an output of o and a body output of b bytes. Issued frames go into the log.
//! - `R k` and `K k`: print record k, and the slots of queue k that are not all zero.
//! - `I k me n cap held`, `M k x y v`, `V k x v`: write me, n, cap and held of record k; M[x,y]; DELIV[x].
//! - `A k y a b v`: write v at M[x,y] of record k for each row x from a to b but y.
//! - `Q k p v`: write byte p of queue k. `P k p`: put the frame at hand into slot p of queue k, with zeros behind it.
//! - `F i`: take issue i of the log as the frame at hand.
//! - `X kind from to e b n cap`: a new frame at hand: this header, e entries of zeros, a body of b bytes, a trailer of zeros.
//!   `E i row column value`: write its entry i, from 0.
//! - `B p v`: write byte p of the frame at hand. `L z`: make it z bytes long. `T`: write its trailer anew, and print it.
//!
//! A frame is printed in base 16: header, entries, body and trailer parted by spaces. A refusal is printed with `all kept` where record and lent buffers are as
//! they were, and with `CHANGED` otherwise; an answer whose call wrote more than it counts is marked `MORE WRITTEN`.
#![tactic(auto)]

mod calls;
mod show;

use script::command::Command;
use script::printed::RecordText;
use script::state::State;
use std::io;
use std::io::{BufWriter, Read, Write};

/// Bytes of a script at most: what stands behind them is not read.
const MAX_SCRIPT: u64 = 65_536;

// Runs a command, and prints what it shows.
fn run<W: Write>(w: &mut W, state: &mut State, command: Command) -> io::Result<()> {
    match command {
        Command::Reset => state.reset(),
        Command::SetUp(set_up) => calls::set_up(w, state, set_up)?,
        Command::Send(send) => calls::send(w, state, send)?,
        Command::Offer(offer) => calls::offer(w, state, offer)?,
        Command::Deliver(deliver) => calls::deliver(w, state, deliver)?,
        Command::ShowRecord(k) => writeln!(w, "  {}", RecordText(&state.place(k).node))?,
        Command::ShowQueue(k) => show::queue(w, &state.place(k).queue)?,
        Command::Edit { place, edit } => state.place_mut(place).edit(edit),
        Command::PutFrame { place, slot } => state.put_frame(place, slot),
        Command::TakeFrame(issue) => state.take_frame(issue),
        Command::EditFrame(edit) => state.frame.edit(edit),
        Command::CloseFrame => {
            state.frame.close();
            writeln!(w, " {}", state.frame.text())?;
        }
    }
    Ok(())
}

// Prints each line of a script and runs its command; a last line without its line feed is left out.
fn run_lines<W: Write>(w: &mut W, state: &mut State, script: &[u8]) -> io::Result<()> {
    for line in script.split_inclusive(|byte| *byte == b'\n') {
        if let Some(words) = line.strip_suffix(b"\n") {
            w.write_all(line)?;
            if let Some(command) = Command::parse(words) {
                run(w, state, command)?;
            }
        }
    }
    Ok(())
}

fn main(rt: HostRuntime) -> io::Result<()> {
    let mut script = Vec::new(rt.alloc());
    rt.reader().take(MAX_SCRIPT).read_to_end(&mut script)?;
    let mut w = BufWriter::new(rt.alloc(), io::writer(&rt))?;
    let mut state = State::new();
    run_lines(&mut w, &mut state, script.as_slice())?;
    w.flush()
}
