//! The header: read from the front of a frame, and written.
// Kept: a field stands at an offset that the format gives, in bytes that are lent, so a write is handed both; an offset is no length beside a buffer.
ghost use Rattle.std.specs.Prelude.{◌≡◌, ◌+◌, ◌≤◌, length};
ghost use Rattle.wire.specs.Bytes.{put};
ghost use Rattle.frame.specs.Header.{kind_byte, kind_named, kind_of, header, header_bytes, own_length};

/// What a frame is: a user frame, or an extra one that trim issues.
#[derive(Clone, Copy, Debug, PartialEq, Eq)]
pub enum Kind {
    User = 1,
    Extra = 2,
}

impl Kind {
    /// Its byte in a header.
    pub fn byte(self) -> u8
        ensures { result ≡ kind_byte (kind_named self) }
    {
        self as u8
    }

    /// The kind that a byte reads as; a frame that has passed 9 has no other byte than these two.
    pub fn of(byte: u8) -> Kind
        ensures { kind_named result ≡ kind_of byte }
    {
        if byte == 1 { Kind::User } else { Kind::Extra }
    }
}

/// The first eight bytes of a frame: e is the entry count, b the body length, and the reserved byte is zero.
#[derive(Clone, Copy)]
pub struct Header {
    // Kept: a header is read before it is checked, so its kind may be any byte; the definition `wrong_kind` (check 9) tests it.
    pub kind: u8,
    pub from: u8,
    pub to: u8,
    pub e: u8,
    pub b: u8,
    pub n: u8,
    pub cap: u8,
    pub reserved: u8,
}

/// The header of a frame.
#[tactic(auto, using(std::proofs::lemmas::Grind::common_steps), unfolding(crate::specs::Header::header))]
pub fn read(s: &[u8]) -> Header
    requires { 8 ≤ length s.now }
    ensures { result ≡ header s.now }
{
    Header {
        kind: s[0],
        from: s[1],
        to: s[2],
        e: s[3],
        b: s[4],
        n: s[5],
        cap: s[6],
        reserved: s[7],
    }
}

/// A frame's length by its own e and b.
#[tactic(auto, using(std::proofs::lemmas::Grind::common_steps), unfolding(crate::specs::Header::own_length))]
pub fn own_length(h: Header) -> usize
    ensures { result ≡ own_length h }
{
    12 + 6 * usize::from(h.e) + usize::from(h.b)
}

/// Writes a header from `at` on.
pub fn write(out: &mut [u8], at: usize, h: Header)
    requires { at + 8 ≤ length out.old }
    ensures { out.new ≡ put out.old at (header_bytes h) }
{
    out[at..at + 8].copy_from_slice(&[h.kind, h.from, h.to, h.e, h.b, h.n, h.cap, h.reserved]);
}
