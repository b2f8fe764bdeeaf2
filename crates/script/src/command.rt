//! The commands of a script, each read from a line.
ghost use Rattle.std.specs.Prelude.{◌≡◌, ◌%◌, ◌^◌};

use super::frames::{FrameEdit, Header};
use super::state::Edit;

/// Set-up into a place's record.
#[derive(Clone, Copy)]
pub struct SetUp {
    pub place: usize,
    pub me: usize,
    pub n: usize,
    pub cap: usize,
}

/// A send from a place's record, with so many bytes of body and of output, by a class; the topic is the body's first byte.
#[derive(Clone, Copy)]
pub struct Send {
    pub place: usize,
    pub to: usize,
    pub body: usize,
    pub out: usize,
    pub class: usize,
    pub topic: u8,
}

/// An offer of the frame at hand at a place's record, with so many bytes of its queue.
#[derive(Clone, Copy)]
pub struct Offer {
    pub place: usize,
    pub queue: usize,
}

/// A deliver at a place's record, with so many bytes of its queue, of output and of body output.
#[derive(Clone, Copy)]
pub struct Deliver {
    pub place: usize,
    pub queue: usize,
    pub out: usize,
    pub body: usize,
}

/// What a line asks for.
#[derive(Clone, Copy)]
pub enum Command {
    /// Everything becomes as at first.
    Reset,
    SetUp(SetUp),
    Send(Send),
    Offer(Offer),
    Deliver(Deliver),
    ShowRecord(usize),
    ShowQueue(usize),
    /// Changes a place's record or queue.
    Edit { place: usize, edit: Edit },
    /// Puts the frame at hand into a slot of a place's queue.
    PutFrame { place: usize, slot: usize },
    /// Takes an issue of the log as the frame at hand.
    TakeFrame(usize),
    /// Changes the frame at hand.
    EditFrame(FrameEdit),
    /// Writes the trailer of the frame at hand anew, and prints that frame.
    CloseFrame,
}

/// Words of a line that count apart.
const WORDS: usize = 8;

// A number cut to a byte.
fn byte(number: usize) -> u8
    ensures { result ≡ number % 256 }
{
    (number % 256) as u8
}

// A number cut to a count.
fn count(number: usize) -> u32
    ensures { result ≡ number % 2 ^ 32 }
{
    (number % (1 << 32)) as u32
}

// A number with one more digit behind it, if the byte is one. A number has at most ten digits: more push the first ones out.
fn with_digit(number: usize, byte: u8) -> usize {
    match byte.checked_sub(b'0') {
        Some(digit) => number % 1_000_000_000 * 10 + usize::from(digit) % 10,
        None => number,
    }
}

// The numbers of a line's words, 0 where there is none. The digits of word i + 8 go on the number i.
fn numbers(line: &[u8]) -> [usize; WORDS] {
    let mut numbers = [0; WORDS];
    for (i, word) in line.split(|byte| *byte == b' ').enumerate() {
        let number = &mut numbers[i % WORDS];
        *number = word
            .iter()
            .fold(*number, |number, byte| with_digit(number, *byte));
    }
    numbers
}

// A call, or a command on a whole record, queue or frame.
fn call(letter: u8, [_, place, a, b, c, d, e, _]: [usize; WORDS]) -> Option<Command> {
    Some(match letter {
        b'U' => Command::SetUp(SetUp {
            place,
            me: a,
            n: b,
            cap: c,
        }),
        b'S' => Command::Send(Send {
            place,
            to: a,
            body: b,
            out: c,
            class: d,
            topic: byte(e),
        }),
        b'O' => Command::Offer(Offer { place, queue: a }),
        b'D' => Command::Deliver(Deliver {
            place,
            queue: a,
            out: b,
            body: c,
        }),
        b'R' => Command::ShowRecord(place),
        b'K' => Command::ShowQueue(place),
        b'P' => Command::PutFrame { place, slot: a },
        b'F' => Command::TakeFrame(place),
        b'T' => Command::CloseFrame,
        b'Z' => Command::Reset,
        _ => return None,
    })
}

// A change to a place's record or queue.
fn edit(letter: u8, [_, place, a, b, c, d, _, _]: [usize; WORDS]) -> Option<Command> {
    let edit = match letter {
        b'I' => Edit::Sizes {
            me: byte(a),
            n: byte(b),
            cap: byte(c),
            held: byte(d),
        },
        b'M' => Edit::Matrix {
            row: a,
            column: b,
            count: count(c),
        },
        b'V' => Edit::Vector {
            from: a,
            count: count(b),
        },
        b'A' => Edit::Column {
            column: a,
            first: b,
            last: c,
            count: count(d),
        },
        b'Q' => Edit::QueueByte {
            at: a,
            byte: byte(b),
        },
        _ => return None,
    };
    Some(Command::Edit { place, edit })
}

// A change to the frame at hand.
fn edit_frame(letter: u8, [_, a, b, c, d, e, f, g]: [usize; WORDS]) -> Option<Command> {
    let edit = match letter {
        b'X' => FrameEdit::Make(Header {
            kind: byte(a),
            from: byte(b),
            to: byte(c),
            entries: byte(d),
            body: byte(e),
            n: byte(f),
            cap: byte(g),
        }),
        b'E' => FrameEdit::Entry {
            entry: a,
            row: byte(b),
            column: byte(c),
            count: count(d),
        },
        b'B' => FrameEdit::Byte {
            at: a,
            byte: byte(b),
        },
        b'L' => FrameEdit::Length(a),
        _ => return None,
    };
    Some(Command::EditFrame(edit))
}

impl Command {
    /// The command of a line, which has its line feed no more: none of an empty line, a comment or an unknown letter.
    pub fn parse(line: &[u8]) -> Option<Command> {
        let letter = *line.first()?;
        let numbers = numbers(line);
        call(letter, numbers)
            .or_else(|| edit(letter, numbers))
            .or_else(|| edit_frame(letter, numbers))
    }
}
