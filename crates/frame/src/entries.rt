//! The entries: one read from a frame, and those of a matrix or of one of its columns written.
// A writer is handed the lent buffer and a place in it, and gives the place after what it wrote.
ghost use Rattle.std.specs.Prelude.{◌≡◌, ◌+◌, ◌*◌, ◌≤◌, ◌<◌, length, take, drop};
ghost use Rattle.wire.specs.Bytes.{put};
ghost use Rattle.matrix.specs.Matrix.{only};
ghost use Rattle.matrix.specs.Array.{entry};
ghost use Rattle.frame.specs.Entries.{entry_bytes, entries_bytes, entry_at, placed, listed, entries_of};

/// An entry of the matrix that a frame carries.
#[derive(Clone, Copy)]
pub struct Entry {
    pub row: u8,
    pub column: u8,
    pub value: u32,
}

/// Entry k of a frame.
#[tactic(auto, using(std::proofs::lemmas::Grind::common_steps), unfolding(crate::specs::Entries::entry_at))]
pub fn read(s: &[u8], k: usize) -> Entry
    requires { 8 + 6 * k + 6 ≤ length s.now }
    ensures { result ≡ entry_at s.now k }
{
    let at = 8 + 6 * k;
    Entry {
        row: s[at],
        column: s[at + 1],
        value: wire::get_u32(s, at + 2),
    }
}

// Writes an entry from `at` on.
fn write_entry(out: &mut [u8], at: usize, a: Entry)
    requires { at + 6 ≤ length out.old }
    ensures { out.new ≡ put out.old at (entry_bytes a) }
{
    out[at] = a.row;
    out[at + 1] = a.column;
    wire::put_u32(out, at + 2, a.value);
}

// Writes the entry in row x and column y unless it is zero, and gives the place after it.
fn write_place(out: &mut [u8], at: usize, x: usize, y: usize, v: u32) -> usize
    requires { (at + 6 * length (placed (12 * x + y) v) ≤ length out.old) × (x < 12) × (y < 12) }
    ensures { (result ≡ at + 6 * length (placed (12 * x + y) v)) × (out.new ≡ put out.old at (entries_bytes (placed (12 * x + y) v))) }
{
    if v == 0 {
        return at;
    }
    write_entry(
        out,
        at,
        Entry {
            row: x as u8,
            column: y as u8,
            value: v,
        },
    );
    at + 6
}

// Kept: `write_row` and `write_column` go along a row and down a column, each promises another list; one function over a stride would state both and be no plainer.
// Writes the non-zero entries of row x, and gives the place after them.
fn write_row(out: &mut [u8], at: usize, m: &[u32; 144], x: usize) -> usize
    requires { (at + 6 * length (listed (12 * x) (take 12 (drop (12 * x) m.now))) ≤ length out.old) × (x < 12) }
    ensures { (result ≡ at + 6 * length (listed (12 * x) (take 12 (drop (12 * x) m.now))))
        × (out.new ≡ put out.old at (entries_bytes (listed (12 * x) (take 12 (drop (12 * x) m.now))))) }
{
    let mut pos = at;
    for y in 0..12 {
        pos = write_place(out, pos, x, y, m[12 * x + y]);
    }
    pos
}

/// Writes the e non-zero entries of a matrix, and gives the place after them; the rows behind the last of them are not looked at.
pub fn write(out: &mut [u8], at: usize, m: &[u32; 144], e: usize) -> usize
    requires { (at + 6 * e ≤ length out.old) × (e ≡ length (entries_of (entry m.now))) }
    ensures { (result ≡ at + 6 * length (entries_of (entry m.now)))
        × (out.new ≡ put out.old at (entries_bytes (entries_of (entry m.now)))) }
{
    let end = at + 6 * e;
    let mut pos = at;
    for x in 0..12 {
        if end <= pos {
            break;
        }
        pos = write_row(out, pos, m, x);
    }
    pos
}

// Kept: the twin of `write_row`; why, stands there.
/// Writes the non-zero entries of column l, and gives the place after them.
pub fn write_column(out: &mut [u8], at: usize, m: &[u32; 144], l: usize) -> usize
    requires { (at + 6 * length (entries_of (only l (entry m.now))) ≤ length out.old) × (l < 12) }
    ensures { (result ≡ at + 6 * length (entries_of (only l (entry m.now))))
        × (out.new ≡ put out.old at (entries_bytes (entries_of (only l (entry m.now))))) }
{
    let mut pos = at;
    for x in 0..12 {
        pos = write_place(out, pos, x, l, m[12 * x + l]);
    }
    pos
}
