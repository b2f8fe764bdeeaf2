//! The lines of a simulation's input: the first line with its sizes, and the commands behind it.
#![tactic(auto)]

ghost use Rattle.std.specs.Prelude.{◌≡◌};
ghost use Rattle.commands.specs.Commands.{letter, with_one, with_two, command};
ghost use Rattle.commands.specs.FirstLine.{counted, first_line};

/// Caps that a first line gives at most: one for each node that a simulation may have.
pub const MAX_CAPS: usize = 4;

/// What a line asks for; the numbers are as they stand in the line, and may be out of range.
#[derive(Clone, Copy, Debug, PartialEq, Eq)]
pub enum Command {
    Send { from: usize, to: usize },
    Offer(usize),
    Deliver(usize),
}

/// What a first line says: n and a cap for each of the n nodes, as they stand in the line, with zeros behind them. All may be out of range.
#[derive(Clone, Copy, Debug, PartialEq, Eq)]
pub struct Sizes {
    pub n: usize,
    pub caps: [usize; MAX_CAPS],
}

// The letter that a first piece of one byte is.
#[tactic(auto, unfolding(crate::specs::Commands::letter))]
fn letter(piece: &[u8]) -> Option<u8>
    ensures { result ≡ letter piece.now }
{
    match piece {
        [b] => Some(*b),
        _ => None,
    }
}

// The command of a letter and one field.
#[tactic(auto, unfolding(crate::specs::Commands::with_one))]
fn with_one(letter: Option<u8>, i: Option<u64>) -> Option<Command>
    ensures { result ≡ with_one letter i }
{
    let i = i? as usize;
    match letter? {
        b'A' => Some(Command::Offer(i)),
        b'D' => Some(Command::Deliver(i)),
        _ => None,
    }
}

// The command of a letter and two fields.
#[tactic(auto, unfolding(crate::specs::Commands::with_two))]
fn with_two(letter: Option<u8>, i: Option<u64>, j: Option<u64>) -> Option<Command>
    ensures { result ≡ with_two letter i j }
{
    let from = i? as usize;
    let to = j? as usize;
    match letter? {
        b'S' => Some(Command::Send { from, to }),
        _ => None,
    }
}

/// The command of a line, which has its line feed no more.
#[tactic(auto, using(crate::proofs::Parts::parts))]
pub fn parse_command(line: &[u8]) -> Option<Command>
    ensures { result ≡ command line.now }
{
    let (l, fields) = text::split_once(line, b' ')?;
    match text::split_once(fields, b' ') {
        Some((i, j)) => with_two(letter(l), text::value(i, 3), text::value(j, 3)),
        None => with_one(letter(l), text::value(fields, 3)),
    }
}

// The sizes of n and `count` caps, none where these are not as many as the nodes.
#[tactic(auto, unfolding(crate::specs::FirstLine::counted))]
fn counted(n: Option<u64>, count: usize, caps: [usize; MAX_CAPS]) -> Option<Sizes>
    ensures { result ≡ counted n count caps }
{
    let n = n? as usize;
    if count == n {
        Some(Sizes { n, caps })
    } else {
        None
    }
}

/// What the first line says, without its line feed. More than `MAX_CAPS` caps are refused, also where n is as large.
#[tactic(auto)]
pub fn parse_first_line(line: &[u8]) -> Option<Sizes>
    ensures { result ≡ first_line line.now }
{
    let mut fields = line.split(|b| *b == b' ');
    let n = text::value(fields.next()?, 3);
    let mut caps = [0; MAX_CAPS];
    let mut count = 0;
    for field in fields {
        // Kept: tried as `*caps.get_mut(count)? = ..`, and the proof didn't close: the contract of a slice's `get_mut` says nothing of what is written.
        if count == MAX_CAPS {
            return None;
        }
        caps[count] = text::value(field, 3)? as usize;
        count += 1;
    }
    counted(n, count, caps)
}
