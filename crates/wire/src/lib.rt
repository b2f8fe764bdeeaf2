//! Runs of bytes: the limits, little-endian fields, the checksum and the trailer. Nothing here knows of nodes or frames.
// Kept: a field stands at an offset that the format gives, in bytes that are lent, so a write is handed both; an offset is no length beside a buffer.
#![tactic(auto)]

ghost use Rattle.std.specs.Prelude.{◌≡◌, ◌+◌, ◌-◌, ◌*◌, ◌%◌, ◌<◌, ◌≤◌, length, take, drop};
ghost use Rattle.wire.specs.Limits.{max_nodes, max_held, max_body, max_frame, max_count};
ghost use Rattle.wire.specs.Bytes.{put, le16, le32, u16_at, u32_at};
ghost use Rattle.wire.specs.Trailer.{checksum, trailer, has_trailer};

/// Nodes of a list at most.
pub const MAX_NODES: usize = 12;

/// Frames held at a node at most.
pub const MAX_HELD: usize = 16;

/// Bytes of a body at most.
pub const MAX_BODY: usize = 64;

/// Bytes of a frame at most.
pub const MAX_FRAME: usize = 802;

/// The largest count.
pub const MAX_COUNT: u32 = 1_000_000_000;

/// The five limits together.
#[derive(Clone, Copy)]
pub struct Limits {
    pub nodes: usize,
    pub held: usize,
    pub body: usize,
    pub frame: usize,
    pub count: u32,
}

/// The constants are the limits that the definitions name.
pub fn constants() -> Limits
    ensures { result ≡ record { nodes = max_nodes; held = max_held; body = max_body; frame = max_frame; count = max_count } }
{
    Limits {
        nodes: MAX_NODES,
        held: MAX_HELD,
        body: MAX_BODY,
        frame: MAX_FRAME,
        count: MAX_COUNT,
    }
}

/// Reads the two bytes from `at` on.
#[tactic(auto, unfolding(crate::specs::Bytes::u16_at))]
pub fn get_u16(s: &[u8], at: usize) -> u16
    requires { at + 2 ≤ length s.now }
    ensures { result ≡ u16_at s.now at }
{
    u16::from_le_bytes([s[at], s[at + 1]])
}

/// Reads the four bytes from `at` on.
#[tactic(auto, unfolding(crate::specs::Bytes::u32_at))]
pub fn get_u32(s: &[u8], at: usize) -> u32
    requires { at + 4 ≤ length s.now }
    ensures { result ≡ u32_at s.now at }
{
    u32::from_le_bytes([s[at], s[at + 1], s[at + 2], s[at + 3]])
}

// Kept: `put_u16` and `put_u32` are one line each over std's bytes of a number; a trait over the two widths would be longer than both.
/// Writes the two bytes of v from `at` on.
#[tactic(auto, unfolding(crate::specs::Bytes::le16))]
pub fn put_u16(out: &mut [u8], at: usize, v: u16)
    requires { at + 2 ≤ length out.old }
    ensures { out.new ≡ put out.old at (le16 v) }
{
    copy(out, at, &v.to_le_bytes());
}

// Kept: the twin of `put_u16`; why, stands there.
/// Writes the four bytes of v from `at` on.
#[tactic(auto, unfolding(crate::specs::Bytes::le32))]
pub fn put_u32(out: &mut [u8], at: usize, v: u32)
    requires { at + 4 ≤ length out.old }
    ensures { out.new ≡ put out.old at (le32 v) }
{
    copy(out, at, &v.to_le_bytes());
}

/// Copies s into out from `at` on.
pub fn copy(out: &mut [u8], at: usize, s: &[u8])
    requires { at + length s.now ≤ length out.old }
    ensures { out.new ≡ put out.old at s.now }
{
    // Kept: a board gives memcpy and memset alone, and copy_from_slice asks for memmove.
    for (i, byte) in s.iter().enumerate() {
        out[at + i] = *byte;
    }
}

/// The sum, modulo 65,536, of each byte times one more than its offset, as a u16 total by wrapping add.
pub fn checksum(s: &[u8]) -> u16
    ensures { result ≡ checksum s.now }
{
    let mut acc: u16 = 0;
    let mut weight: u16 = 1;
    for byte in s {
        acc = acc.wrapping_add(weight.wrapping_mul(u16::from(*byte)));
        weight = weight.wrapping_add(1);
    }
    acc
}

/// Writes the trailer behind the bytes from `at` to `end`, and gives the place after it.
#[tactic(auto, using(crate::proofs::Trailer::put_trailer))]
pub fn write_trailer(out: &mut [u8], at: usize, end: usize) -> usize
    requires { (at ≤ end) × (end + 4 ≤ length out.old) × (end - at < 65536) }
    ensures { (result ≡ end + 4) × (out.new ≡ put out.old end (trailer (take (end - at) (drop at out.old)))) }
{
    put_u16(out, end, (end - at) as u16);
    let mid = end + 2;
    let sum = checksum(&out[at..mid]);
    put_u16(out, mid, sum);
    end + 4
}

/// Whether s ends with a right trailer; s may have any length.
#[tactic(auto, unfolding(crate::specs::Trailer::has_trailer, crate::specs::Trailer::count_back, crate::specs::Trailer::sum_back))]
pub fn has_trailer(s: &[u8]) -> bool
    ensures { result ≡ has_trailer s.now }
{
    let len = s.len();
    len >= 4
        && usize::from(get_u16(s, len - 4)) == len - 4
        && get_u16(s, len - 2) == checksum(&s[..len - 2])
}
