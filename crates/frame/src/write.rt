//! Whole frames written into a lent buffer: of a user message and of an extra one.
// A writer is handed the lent buffer and a place in it, and gives the place after what it wrote.
ghost use Rattle.std.specs.Prelude.{◌≡◌, ◌+◌, ◌*◌, ◌≤◌, ◌<◌, length};
ghost use Rattle.wire.specs.Bytes.{put};
ghost use Rattle.matrix.specs.Matrix.{count, column_count};
ghost use Rattle.matrix.specs.Array.{entry};
ghost use Rattle.matrix.specs.Message.{user_message, extra_message};
ghost use Rattle.frame.specs.Header.{kind_byte, kind_named};
ghost use Rattle.frame.specs.Frame.{encode};

use super::header::{Header, Kind};

/// Who sends a message to whom, and the sender's n and cap.
#[derive(Clone, Copy)]
pub struct Address {
    pub from: u8,
    pub to: u8,
    pub n: u8,
    pub cap: u8,
}

impl Address {
    // The header of a message of this kind with e entries and b bytes of body.
    fn header(self, kind: Kind, e: u8, b: u8) -> Header
        ensures { result ≡ record { kind = kind_byte (kind_named kind); from = self.from; to = self.to; e = e; b = b; n = self.n; cap = self.cap; reserved = 0 } }
    {
        Header {
            kind: kind.byte(),
            from: self.from,
            to: self.to,
            e,
            b,
            n: self.n,
            cap: self.cap,
            reserved: 0,
        }
    }
}

/// Writes the frame of a user message from `at` on, and gives the place after it.
pub fn user(out: &mut [u8], at: usize, a: Address, m: &[u32; 144], body: &[u8]) -> usize
    requires { (at + 12 + 6 * count (entry m.now) + length body.now ≤ length out.old) × (length body.now < 256) }
    ensures { (result ≡ at + 12 + 6 * count (entry m.now) + length body.now)
        × (out.new
        ≡ put out.old at (encode (user_message a.from a.to a.n a.cap (entry m.now) body.now))) }
{
    let e = matrix::count(m);
    super::header::write(out, at, a.header(Kind::User, e as u8, body.len() as u8));
    let pos = super::entries::write(out, at + 8, m, e as usize);
    wire::copy(out, pos, body);
    wire::write_trailer(out, at, pos + body.len())
}

/// Writes the frame of an extra message, which carries the column of its destination, from `at` on, and gives the place after it.
pub fn extra(out: &mut [u8], at: usize, a: Address, m: &[u32; 144]) -> usize
    requires { (at + 12 + 6 * column_count (entry m.now) a.to ≤ length out.old) × (a.to < 12) }
    ensures { (result ≡ at + 12 + 6 * column_count (entry m.now) a.to)
        × (out.new ≡ put out.old at (encode (extra_message a.from a.to a.n a.cap (entry m.now)))) }
{
    let l = a.to as usize;
    let e = matrix::column_count(m, l) as u8;
    super::header::write(out, at, a.header(Kind::Extra, e, 0));
    let pos = super::entries::write_column(out, at + 8, m, l);
    wire::write_trailer(out, at, pos)
}
