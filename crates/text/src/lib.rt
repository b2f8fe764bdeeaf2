//! Text of ASCII bytes: pieces parted by a byte (lines, fields), decimal numbers read and written. Nothing here knows of nodes.
#![tactic(auto)]

ghost use Rattle.std.specs.Prelude.{◌≡◌, ◌+◌, ◌-◌, ◌*◌, ◌≤◌, ◌<◌, length, take, drop, eqb, position, MatchOption, ◌∷◌, []};
ghost use Rattle.text.specs.Pieces.{split};
ghost use Rattle.text.specs.Before.{before};
ghost use Rattle.text.specs.Fields.{value};
ghost use Rattle.text.specs.Print.{decimal, line_end, row, number_row, refusal_row};
ghost use Rattle.text.specs.Wrote.{Wrote};

use std::error::Error;
use std::fmt;

/// A lent output is too short for what a run prints.
#[derive(Clone, Copy, Debug, PartialEq, Eq)]
pub struct TooShort;

impl fmt::Display for TooShort {
    fn fmt<W: fmt::Write>(&self, f: &mut fmt::Formatter<W>) -> fmt::Result {
        f.write_str("the output is too short")
    }
}

impl Error for TooShort {}

// The place of the first byte c, if there is one.
fn first(s: &[u8], c: u8) -> Option<usize>
    ensures { result ≡ position (λ b. eqb b c) s.now }
{
    s.iter().position(|b| *b == c)
}

/// What stands before the first byte c and what stands behind it, if there is one.
#[tactic(auto, using(crate::proofs::Pieces::parted))]
pub fn split_once(s: &[u8], c: u8) -> Option<(&[u8], &[u8])>
    ensures { MatchOption result (split c s.now ≡ s.now ∷ []) (λ p. split c s.now ≡ p.0.now ∷ split c p.1.now) }
{
    match first(s, c) {
        Some(at) => Some((&s[..at], &s[at + 1..])),
        None => None,
    }
}

/// The place of the first byte c at or after `at`, or the length of s where there is none.
#[tactic(auto, using(crate::proofs::Pieces::found_some, crate::proofs::Pieces::found_none))]
pub fn find(s: &[u8], at: usize, c: u8) -> usize
    requires { at ≤ length s.now }
    ensures { (result ≡ at + before c (drop at s.now)) × (result ≤ length s.now) }
{
    match first(&s[at..], c) {
        Some(behind) => at + behind,
        None => s.len(),
    }
}

/// The number of a field of 1 to `most` digits, the whole of s. Nineteen digits fit a u64.
#[tactic(auto, using(crate::proofs::Fields::reading))]
pub fn value(s: &[u8], most: usize) -> Option<u64>
    requires { most ≤ 19 }
    ensures { result ≡ value most s.now }
{
    if s.is_empty() || most < s.len() {
        return None;
    }
    let mut v = 0;
    for b in s {
        if !b.is_ascii_digit() {
            return None;
        }
        v = 10 * v + u64::from(*b - b'0');
    }
    Some(v)
}

/// The number of the field of 1 to `most` digits that stands from `at` to `end`.
pub fn field(s: &[u8], at: usize, end: usize, most: usize) -> Option<u64>
    requires { (at ≤ end) × (end ≤ length s.now) × (most ≤ 19) }
    ensures { result ≡ value most (take (end - at) (drop at s.now)) }
{
    value(&s[at..end], most)
}

/// Writes v in decimal from `at` on, and gives the place after it.
#[tactic(auto, using(crate::proofs::Print::decimals), unfolding(wire::specs::Bytes::put))]
pub fn put_decimal(out: &mut [u8], at: usize, v: u32) -> usize
    requires { at + length (decimal v) ≤ length out.old }
    ensures { Wrote (decimal v) at out.old result out.new }
{
    if v < 10 {
        out[at] = b'0' + v as u8;
        return at + 1;
    }
    let last = put_decimal(out, at, v / 10);
    out[last] = b'0' + (v % 10) as u8;
    last + 1
}

// Writes the end of a printed line from `at` on: each number behind one space, a line feed. Gives the place after it.
#[tactic(auto, using(crate::proofs::Print::printing))]
fn put_line_end(out: &mut [u8], at: usize, values: &[u32]) -> usize
    requires { at + length (line_end values.now) ≤ length out.old }
    ensures { Wrote (line_end values.now) at out.old result out.new }
{
    let mut end = at;
    for v in values {
        out[end] = b' ';
        end = put_decimal(out, end + 1, *v);
    }
    out[end] = b'\n';
    end + 1
}

/// Writes a printed line with a letter from `at` on: the letter, each number behind one space, a line feed. Gives the place after it.
#[tactic(auto, using(crate::proofs::Print::rows), unfolding(crate::specs::Print::row, wire::specs::Bytes::put))]
pub fn put_row(out: &mut [u8], at: usize, letter: u8, values: &[u32]) -> usize
    requires { at + length (row letter values.now) ≤ length out.old }
    ensures { Wrote (row letter values.now) at out.old result out.new }
{
    out[at] = letter;
    put_line_end(out, at + 1, values)
}

/// Writes a printed line without a letter from `at` on: the first number, each other number behind one space, a line feed. Gives the place after it.
#[tactic(auto, using(crate::proofs::Print::rows), unfolding(crate::specs::Print::number_row))]
pub fn put_numbers(out: &mut [u8], at: usize, first: u32, values: &[u32]) -> usize
    requires { at + length (number_row first values.now) ≤ length out.old }
    ensures { Wrote (number_row first values.now) at out.old result out.new }
{
    let end = put_decimal(out, at, first);
    put_line_end(out, end, values)
}

// Kept: a number, since what may be printed is any, and no type asks more of a caller; a `Refusal` has its own by `number`.
/// Writes the line of the refusal with this number from `at` on, and gives the place after it.
#[tactic(auto, using(crate::proofs::Print::rows))]
pub fn put_refusal(out: &mut [u8], at: usize, why: u8) -> usize
    requires { at + 6 ≤ length out.old }
    ensures { (result ≤ at + 6) × Wrote (refusal_row why) at out.old result out.new }
{
    put_row(out, at, b'R', &[u32::from(why)])
}
