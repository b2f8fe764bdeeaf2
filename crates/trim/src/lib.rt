//! Trim: extra frames for the fullest columns, until at most cap entries of the matrix are non-zero.
// A writer is handed the lent buffer and a place in it, and gives the place after what it wrote.
#![tactic(auto)]

ghost use Rattle.std.specs.Prelude.{◌≡◌, List, ℕ, ◌+◌, ◌≤◌, ◌<◌, length};
ghost use Rattle.wire.specs.Limits.{max_count};
ghost use Rattle.wire.specs.Bytes.{put};
ghost use Rattle.matrix.specs.Matrix.{Matrix, fullest, clear};
ghost use Rattle.matrix.specs.Array.{flat, entry};
ghost use Rattle.matrix.specs.Message.{extra_message};
ghost use Rattle.protocol.specs.Trim.{Trimmed, trim_for};
ghost use Rattle.frame.specs.Frame.{encode};
ghost use Rattle.frame.specs.Frames.{frames_of};

use frame::write::Address;

/// The frames that a trim issued: the place after them, and how many they are.
#[derive(Clone, Copy)]
pub struct Issued {
    pub at: usize,
    pub extras: u32,
}

// One round: writes the extra frame to the fullest column from `at` on, clears that column, and gives the place after the frame.
fn round(m: &mut [u32; 144], out: &mut [u8], at: usize, me: u8, n: u8, cap: u8) -> usize
    requires { (me < 12) × (at + 84 ≤ length out.old) × ((x y : ℕ) → entry m.old x y < 4294967295) }
    ensures { (let m₀ : Matrix = entry m.old in
        let f : List ℕ = encode (extra_message me (fullest m₀) n cap m₀) in
        (m.new ≡ flat (clear me (fullest m₀) m₀)) × (out.new ≡ put out.old at f) × (result ≡ at + length f)) }
{
    let l = matrix::fullest(m);
    let a = Address {
        from: me,
        to: l as u8,
        n,
        cap,
    };
    let end = frame::write::extra(out, at, a, m);
    matrix::clear_column(m, me as usize, l);
    end
}

/// Issues extra frames into `out` from `at` on until at most cap entries of m are non-zero.
#[tactic(auto, using(crate::proofs::Trimming::trimming_start))]
pub fn trim(m: &mut [u32; 144], out: &mut [u8], at: usize, me: u8, n: u8, cap: u8) -> Issued
    requires { (me < 12) × (at + 1008 ≤ length out.old) × ((x y : ℕ) → entry m.old x y ≤ max_count) }
    ensures { (let t : Trimmed = trim_for 12 me n cap (entry m.old) in
        (m.new ≡ flat t.matrix) × (out.new ≡ put out.old at (frames_of t.extras))
        × (result.at ≡ at + length (frames_of t.extras)) × (result.extras ≡ length t.extras)) }
{
    let mut pos = at;
    for extras in 0..12 {
        if matrix::count(m) <= cap as u32 {
            return Issued { at: pos, extras };
        }
        pos = round(m, out, pos, me, n, cap);
    }
    Issued {
        at: pos,
        extras: 12,
    }
}
