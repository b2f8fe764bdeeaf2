//! A sound frame that arrives at a node: its number, the refusals 12 to 14, whether it is deliverable, and its entries merged.
#![tactic(auto)]

ghost use Rattle.std.specs.Prelude.{◌≡◌, List, ℕ, ◌<◌, ◌≤◌, length};
ghost use Rattle.refusal.specs.Numbers.{met};
ghost use Rattle.wire.specs.Limits.{max_count};
ghost use Rattle.matrix.specs.Matrix.{merge};
ghost use Rattle.matrix.specs.Array.{flat, entry, vector};
ghost use Rattle.matrix.specs.Message.{Message, number};
ghost use Rattle.frame.specs.Frame.{decode};
ghost use Rattle.protocol.specs.Offer.{deliverable, claims_too_much};
ghost use Rattle.arrival.specs.View.{node_with, arrival_refusal};
ghost use Rattle.arrival.specs.Tests.{stands_at, exceeds, ready};
ghost use Rattle.arrival.specs.CheckedFrame.{CheckedFrame};

use refusal::Refusal;

// Whether an entry stands in row x and column y.
#[tactic(auto, using(std::proofs::lemmas::Grind::common_steps), unfolding(crate::specs::Tests::stands_at))]
fn stands_at(a: frame::entries::Entry, x: u8, y: u8) -> bool
    ensures { result ≡ stands_at x y a }
{
    a.row == x && a.column == y
}

/// The number of a sound frame: one more than its entry in row from, column to.
pub fn number(s: &[u8]) -> u32
    requires { CheckedFrame s.now }
    ensures { result ≡ number (decode s.now) }
{
    let h = frame::header::read(s);
    let e = h.e as usize;
    for k in 0..e {
        let a = frame::entries::read(s, k);
        if stands_at(a, h.from, h.to) {
            return a.value + 1;
        }
    }
    1
}

// Whether an entry stands in row me and exceeds the matrix there.
#[tactic(auto, using(std::proofs::lemmas::Grind::common_steps), unfolding(crate::specs::Tests::exceeds))]
fn exceeds(a: frame::entries::Entry, me: u8, m: &[u32; 144]) -> bool
    requires { (a.row < 12) × (a.column < 12) }
    ensures { result ≡ exceeds me (entry m.now) a }
{
    a.row == me && m[12 * usize::from(a.row) + usize::from(a.column)] < a.value
}

// 13: an entry in row me exceeds the matrix there.
fn claims_too_much(s: &[u8], me: u8, m: &[u32; 144]) -> bool
    requires { CheckedFrame s.now }
    ensures { (n cap : ℕ) (deliv : List ℕ) (l : List Message)
        → result ≡ claims_too_much (node_with me n cap m.now deliv l) (decode s.now) }
{
    let h = frame::header::read(s);
    let e = h.e as usize;
    // Kept: `(0..e).any(..)` was tried; that its closure may be called at each k, since entry k lies inside a checked frame, did not close.
    for k in 0..e {
        if exceeds(frame::entries::read(s, k), me, m) {
            return true;
        }
    }
    false
}

/// Whether a sound frame is for this node and new to it, and where it is not, the first that is met of 12 to 14.
pub fn check(s: &[u8], me: u8, m: &[u32; 144], deliv: &[u32; 12]) -> Result<(), Refusal>
    requires { CheckedFrame s.now }
    ensures { (n cap : ℕ) (l : List Message)
        → met result ≡ arrival_refusal (node_with me n cap m.now deliv.now l) (decode s.now) }
{
    let h = frame::header::read(s);
    if h.to != me {
        return Err(Refusal::OtherNode);
    }
    if claims_too_much(s, me, m) {
        return Err(Refusal::NotIssued);
    }
    if number(s) <= deliv[h.from as usize] {
        return Err(Refusal::Delivered);
    }
    Ok(())
}

/// Whether an entry does not keep its frame waiting at node me.
#[tactic(auto, using(std::proofs::lemmas::Grind::common_steps), unfolding(crate::specs::Tests::ready))]
pub fn entry_ready(a: frame::entries::Entry, me: u8, deliv: &[u32; 12]) -> bool
    requires { a.row < 12 }
    ensures { result ≡ ready me (vector deliv.now) a }
{
    a.column != me || a.value <= deliv[usize::from(a.row)]
}

/// Whether a sound frame is deliverable at node me.
pub fn deliverable(s: &[u8], me: u8, deliv: &[u32; 12]) -> bool
    requires { CheckedFrame s.now }
    ensures { (n cap : ℕ) (m : List ℕ) (l : List Message) → result ≡ deliverable (node_with me n cap m deliv.now l) (decode s.now) }
{
    let h = frame::header::read(s);
    let e = h.e as usize;
    // Kept: the mirror of `claims_too_much`; what did not close there would be owed by `all` too.
    for k in 0..e {
        let a = frame::entries::read(s, k);
        if !entry_ready(a, me, deliv) {
            return false;
        }
    }
    true
}

/// Merges the entries of a sound frame into the matrix of node j.
pub fn merge(m: &mut [u32; 144], s: &[u8], j: u8)
    requires { CheckedFrame s.now × ((x y : ℕ) → entry m.old x y ≤ max_count) }
    ensures { m.new ≡ flat (merge j (entry m.old) (decode s.now).entries) }
{
    let h = frame::header::read(s);
    let e = h.e as usize;
    for k in 0..e {
        let a = frame::entries::read(s, k);
        matrix::merge_entry(m, j as usize, a.row as usize, a.column as usize, a.value);
    }
}
