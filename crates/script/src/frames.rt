//! Frames: the one at hand, made from its fields, changed and closed by its trailer; and how long a frame is by its own header.
ghost use Rattle.std.specs.Prelude.{◌≡◌, ◌≤◌, ◌+◌, ◌*◌};

use super::printed::FrameText;

/// Bytes of the frame at hand at most: more than any frame has.
pub const ROOM: usize = 1100;

/// Where the entries of a frame begin, behind its header.
pub const ENTRIES: usize = 8;

/// Bytes of an entry.
pub const ENTRY: usize = 6;

/// Bytes of a trailer.
const TRAILER: usize = 4;

/// A body that begins with this byte: behind it stand P, Q and so on.
pub fn pattern(first: u8) -> [u8; 256] {
    let mut body = [first; 256];
    let mut next = b'P';
    for byte in body.iter_mut().skip(1) {
        *byte = next;
        next = next.wrapping_add(1);
    }
    body
}

/// Copies a frame to the front of a place, cut to the place's size, and fills what is left of the place with zeros.
pub fn copy_padded(place: &mut [u8], frame: &[u8]) {
    let length = frame.len().min(place.len());
    let (front, behind) = place.split_at_mut(length);
    front.copy_from_slice(&frame[..length]);
    behind.fill(0);
}

// Writes these bytes into a buffer; those that would stand past its end are left out.
fn write_at(buffer: &mut [u8], at: usize, bytes: &[u8]) {
    for (to, from) in buffer.iter_mut().skip(at).zip(bytes) {
        *to = *from;
    }
}

/// The fields of a header.
#[derive(Clone, Copy)]
pub struct Header {
    pub kind: u8,
    pub from: u8,
    pub to: u8,
    pub entries: u8,
    pub body: u8,
    pub n: u8,
    pub cap: u8,
}

/// A change to the frame at hand.
#[derive(Clone, Copy)]
pub enum FrameEdit {
    /// Makes it anew: this header, entries of zeros, a body, a trailer of zeros.
    Make(Header),
    /// Writes an entry, counted from 0.
    Entry {
        entry: usize,
        row: u8,
        column: u8,
        count: u32,
    },
    Byte {
        at: usize,
        byte: u8,
    },
    Length(usize),
}

/// How many entries and how many bytes of body a frame has by its own header; what stands past its end counts as 0.
#[derive(Clone, Copy)]
pub struct Layout {
    pub entries: u8,
    pub body: u8,
}

impl Layout {
    /// The layout of the frame at the front of these bytes.
    pub fn of(bytes: &[u8]) -> Layout {
        Layout {
            entries: bytes.get(3).copied().unwrap_or(0),
            body: bytes.get(4).copied().unwrap_or(0),
        }
    }

    /// Where the body begins.
    pub fn body_start(self) -> usize
        ensures { result ≡ 8 + 6 * self.entries }
    {
        ENTRIES + ENTRY * usize::from(self.entries)
    }

    /// Where the trailer begins.
    pub fn body_end(self) -> usize
        ensures { result ≡ 8 + 6 * self.entries + self.body }
    {
        self.body_start() + usize::from(self.body)
    }

    /// Bytes of the frame.
    pub fn length(self) -> usize
        ensures lower_bound { 12 ≤ result }
        ensures upper_bound { result ≤ 2000 }
    {
        self.body_end() + TRAILER
    }
}

/// The frame at hand: the front of a longer buffer, whose bytes behind the frame stay when its length changes.
#[derive(Clone, Copy)]
pub struct Frame {
    buffer: [u8; ROOM],
    length: usize,
    ghost fits: { length ≤ 1100 },
}

impl Frame {
    /// An empty frame.
    pub fn new() -> Frame {
        Frame {
            buffer: [0; ROOM],
            length: 0,
        }
    }

    // A frame with this header, entries of zeros, a body, and a trailer of zeros.
    fn with_header(header: Header) -> Frame {
        let layout = Layout {
            entries: header.entries,
            body: header.body,
        };
        let fields = [
            header.kind,
            header.from,
            header.to,
            header.entries,
            header.body,
            header.n,
            header.cap,
        ];
        let body = pattern(b'O');
        let mut frame = Frame::new();
        write_at(&mut frame.buffer, 0, &fields);
        write_at(
            &mut frame.buffer,
            layout.body_start(),
            &body[..usize::from(header.body)],
        );
        frame.set_length(layout.length());
        frame
    }

    /// A frame that was kept in a place with zeros behind it.
    pub fn from_place(place: &[u8]) -> Frame {
        let mut frame = Frame::new();
        copy_padded(&mut frame.buffer, place);
        frame.set_length(Layout::of(place).length());
        frame
    }

    /// The bytes of the frame.
    pub fn bytes(&self) -> &[u8] {
        &self.buffer[..self.length]
    }

    /// Changes one thing about the frame; bytes that would stand past the buffer's end are left out.
    pub fn edit(&mut self, edit: FrameEdit) {
        match edit {
            FrameEdit::Make(header) => *self = Frame::with_header(header),
            FrameEdit::Entry {
                entry,
                row,
                column,
                count,
            } => {
                let at = ENTRIES + ENTRY * entry.min(ROOM);
                write_at(&mut self.buffer, at, &[row, column]);
                write_at(&mut self.buffer, at + 2, &count.to_le_bytes());
            }
            FrameEdit::Byte { at, byte } => write_at(&mut self.buffer, at, &[byte]),
            FrameEdit::Length(length) => self.set_length(length),
        }
    }

    // Makes the frame longer or shorter, within its buffer.
    fn set_length(&mut self, length: usize) {
        self.length = length.min(ROOM);
    }

    /// Writes the trailer anew, if there is room for one.
    pub fn close(&mut self) {
        if let Some(end) = self.length.checked_sub(TRAILER) {
            wire::write_trailer(&mut self.buffer, 0, end);
        }
    }

    /// The frame as it is printed.
    pub fn text(&self) -> FrameText<'_> {
        FrameText::new(&self.buffer, self.length)
    }
}
