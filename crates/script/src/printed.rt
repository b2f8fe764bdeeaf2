//! Bytes, frames and records as they are printed.
use super::frames::{ENTRIES, ENTRY, Layout};
use node::Node;
use std::fmt;
use std::fmt::{Formatter, Write};

/// Bytes in base 16.
#[derive(Clone, Copy)]
pub struct Hex<'a>(pub &'a [u8]);

impl fmt::Display for Hex<'_> {
    fn fmt<W: Write>(&self, f: &mut Formatter<W>) -> fmt::Result {
        for byte in self.0 {
            write!(f, "{byte:02x}")?;
        }
        Ok(())
    }
}

/// A frame: header, each entry, body, and the trailer with what stands behind it, each behind a space.
#[derive(Clone, Copy)]
pub struct FrameText<'a> {
    shown: &'a [u8],
    layout: Layout,
}

impl<'a> FrameText<'a> {
    /// The frame at the front of a buffer, of which so many bytes are shown.
    pub fn new(buffer: &'a [u8], length: usize) -> FrameText<'a> {
        FrameText {
            shown: &buffer[..length.min(buffer.len())],
            layout: Layout::of(buffer),
        }
    }

    // Those bytes of a part that are shown.
    fn part(&self, from: usize, to: usize) -> Hex<'a> {
        let to = to.min(self.shown.len());
        let from = from.min(to);
        Hex(&self.shown[from..to])
    }
}

impl fmt::Display for FrameText<'_> {
    fn fmt<W: Write>(&self, f: &mut Formatter<W>) -> fmt::Result {
        let body = self.layout.body_start();
        let trailer = self.layout.body_end();
        write!(f, " {}", self.part(0, ENTRIES))?;
        for entry in 0..usize::from(self.layout.entries) {
            let at = ENTRIES + ENTRY * entry;
            write!(f, " {}", self.part(at, at + ENTRY))?;
        }
        if body < trailer {
            write!(f, " {}", self.part(body, trailer))?;
        }
        write!(f, " {}", self.part(trailer, self.shown.len()))
    }
}

/// A record: me, n, cap, held, and the counts of matrix and vector that are not 0.
#[derive(Clone, Copy)]
pub struct RecordText<'a>(pub &'a Node);

impl fmt::Display for RecordText<'_> {
    fn fmt<W: Write>(&self, f: &mut Formatter<W>) -> fmt::Result {
        let Node {
            me,
            n,
            cap,
            m,
            deliv,
            held,
        } = self.0;
        write!(f, "me {me}, n {n}, cap {cap}, held {held}, M")?;
        write_matrix(f, m)?;
        write!(f, ", DELIV")?;
        write_vector(f, deliv)
    }
}

// Prints the counts of a matrix that are not 0, with their places.
fn write_matrix<W: Write>(f: &mut Formatter<W>, m: &[u32; 144]) -> fmt::Result {
    for (i, count) in m.iter().enumerate() {
        if *count != 0 {
            let (row, column) = (i / Node::MAX_NODES, i % Node::MAX_NODES);
            write!(f, " ({row},{column})={count}")?;
        }
    }
    Ok(())
}

// Prints the counts of a vector that are not 0, with their places.
fn write_vector<W: Write>(f: &mut Formatter<W>, deliv: &[u32; 12]) -> fmt::Result {
    for (from, count) in deliv.iter().enumerate() {
        if *count != 0 {
            write!(f, " {from}={count}")?;
        }
    }
    Ok(())
}
