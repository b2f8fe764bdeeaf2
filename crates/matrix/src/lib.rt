//! The matrix of counts: 144 counts, row by row, so that row x and column y stand at place 12 * x + y. Nothing here knows of bytes.
#![tactic(auto)]

ghost use Rattle.std.specs.Prelude.{◌≡◌, cond, ◌<◌, ◌≤◌, max, eqb, ltb};
ghost use Rattle.wire.specs.Limits.{max_count};
ghost use Rattle.matrix.specs.Matrix.{non_zero, count, column_count, fullest, clear, merge, single};
ghost use Rattle.matrix.specs.Array.{flat, entry};

/// How many entries are non-zero.
#[tactic(auto, using(crate::proofs::Matrix::non_zero_test, crate::proofs::Matrix::non_zero_le, crate::proofs::Sums::sum_more))]
pub fn count(m: &[u32; 144]) -> u32
    ensures { result ≡ count (entry m.now) }
{
    let mut found = 0;
    for v in m {
        found += u32::from(*v != 0);
    }
    found
}

/// How many entries of column y are non-zero.
#[tactic(auto, using(crate::proofs::Array::entry_in, crate::proofs::Matrix::non_zero_test, crate::proofs::Matrix::non_zero_le, crate::proofs::Sums::sum_more), unfolding(crate::specs::Matrix::column_count))]
pub fn column_count(m: &[u32; 144], y: usize) -> u32
    requires { y < 12 }
    ensures { result ≡ column_count (entry m.now) y }
{
    let mut found = 0;
    for x in 0..12 {
        found += u32::from(m[12 * x + y] != 0);
    }
    found
}

/// The column with the most non-zero entries, the lowest on ties.
#[tactic(auto, using(crate::proofs::Matrix::largest_first, crate::proofs::Matrix::largest_left, crate::proofs::Matrix::largest_taken))]
pub fn fullest(m: &[u32; 144]) -> usize
    ensures { result ≡ fullest (entry m.now) }
{
    let mut best = 0;
    let mut most = column_count(m, 0);
    for y in 1..12 {
        let found = column_count(m, y);
        if most < found {
            best = y;
            most = found;
        }
    }
    best
}

/// Clears column j as after a frame from i to j.
#[tactic(auto, using(crate::proofs::Array::entry_in, crate::proofs::Stores::emptied_none, crate::proofs::Stores::emptied_more, crate::proofs::Stores::emptied_done))]
pub fn clear_column(m: &mut [u32; 144], i: usize, j: usize)
    requires { (i < 12) × (j < 12) × (entry m.old i j < 4294967295) }
    ensures { m.new ≡ flat (clear i j (entry m.old)) }
{
    let issued = m[12 * i + j];
    for x in 0..12 {
        m[12 * x + j] = 0;
    }
    m[12 * i + j] = issued + 1;
}

// The sign of p - q, without a branch: 0 where the difference is negative, and 1 where it is not.
fn sign(p: u32, q: u32) -> u32
    requires { (p ≤ max_count) × (q ≤ max_count) }
    ensures { result ≡ cond (ltb p q) 0 1 }
{
    let d = p as i32 - q as i32;
    ((d >> 31) + 1) as u32
}

// One of two counts, without a branch: a where s is 1, and b where it is 0.
#[tactic(auto, using(crate::proofs::Choice::one_of, crate::proofs::Choice::part_fits, crate::proofs::Choice::rest_fits, crate::proofs::Choice::sum_fits))]
fn chosen(s: u32, a: u32, b: u32) -> u32
    requires { (s ≤ 1) × (a ≤ max_count) × (b ≤ max_count) }
    ensures { result ≡ cond (eqb s 1) a b }
{
    s * a + (1 - s) * b
}

/// The larger of two counts, by the sign of their difference.
#[tactic(auto, using(crate::proofs::Choice::sign_le, crate::proofs::Choice::larger_one))]
pub fn larger(a: u32, b: u32) -> u32
    requires { (a ≤ max_count) × (b ≤ max_count) }
    ensures { result ≡ max a b }
{
    chosen(sign(a, b), a, b)
}

/// Merges the entry v in row x and column y at node j: an entry of column j stays, and that too is chosen without a branch.
#[tactic(auto, using(crate::proofs::Array::entry_in, crate::proofs::Choice::flag, crate::proofs::Choice::flag_le, crate::proofs::Stores::merge_one))]
pub fn merge_entry(m: &mut [u32; 144], j: usize, x: usize, y: usize, v: u32)
    requires { (x < 12) × (y < 12) × (entry m.old x y ≤ max_count) × (v ≤ max_count) }
    ensures { m.new ≡ flat (merge j (entry m.old) (single x y v)) }
{
    let kept = m[12 * x + y];
    m[12 * x + y] = chosen(u32::from(y == j), kept, larger(kept, v));
}
