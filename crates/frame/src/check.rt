//! The refusal of a run of bytes as a frame: document 01's checks 8 to 11, each a function of its own, in rising order.
ghost use Rattle.std.specs.Prelude.{◌≡◌, ◌+◌, ◌-◌, ◌*◌, ◌≤◌, length};
ghost use Rattle.refusal.specs.Numbers.{met};
ghost use Rattle.wire.specs.Trailer.{count_back};
ghost use Rattle.frame.specs.Header.{header};
ghost use Rattle.frame.specs.Entries.{entries_from};
ghost use Rattle.frame.specs.Refusals.{wrong_trailer, wrong_kind, wrong_cap, wrong_address, wrong_body, entry_ok, wrong_entries, wrong_content, frame_refusal};

use super::entries::Entry;
use super::header::{Header, Kind};
use refusal::Refusal;

// 8: the length is not 12 to 802, or a trailer field is wrong.
#[tactic(auto, using(std::proofs::lemmas::Grind::common_steps), unfolding(crate::specs::Refusals::wrong_trailer))]
fn wrong_trailer(s: &[u8]) -> bool
    ensures { result ≡ wrong_trailer s.now }
{
    s.len() < 12 || wire::MAX_FRAME < s.len() || !wire::has_trailer(s)
}

// 9: the kind is not 1 or 2, or byte 7 is not zero.
#[tactic(auto, using(std::proofs::lemmas::Grind::common_steps), unfolding(crate::specs::Refusals::wrong_kind))]
fn wrong_kind(h: Header) -> bool
    ensures { result ≡ wrong_kind h }
{
    !(h.kind == Kind::User.byte() || h.kind == Kind::Extra.byte()) || h.reserved != 0
}

// The cap is below n or above n * n.
#[tactic(auto, using(std::proofs::lemmas::Grind::common_steps), unfolding(crate::specs::Refusals::wrong_cap))]
fn wrong_cap(h: Header, n: u8) -> bool
    ensures { result ≡ wrong_cap n h }
{
    h.cap < n || u32::from(n) * u32::from(n) < u32::from(h.cap)
}

// 10: n is another, the cap breaks its rule, from or to is not below n, or they are equal.
#[tactic(auto, using(std::proofs::lemmas::Grind::common_steps), unfolding(crate::specs::Refusals::wrong_address))]
fn wrong_address(h: Header, n: u8) -> bool
    ensures { result ≡ wrong_address n h }
{
    h.n != n || wrong_cap(h, n) || n <= h.from || n <= h.to || h.from == h.to
}

// The body's length is above 64, or not 0 in an extra.
#[tactic(auto, using(std::proofs::lemmas::Grind::common_steps), unfolding(crate::specs::Refusals::wrong_body))]
fn wrong_body(h: Header) -> bool
    ensures { result ≡ wrong_body h }
{
    wire::MAX_BODY < usize::from(h.b) || (h.kind == Kind::Extra.byte() && h.b != 0)
}

// Whether an entry keeps the rules that look at it alone. The test of the kind is a statement, since the loop over the entries then
// takes it once for all of them.
#[tactic(auto, using(std::proofs::lemmas::Grind::common_steps), unfolding(crate::specs::Refusals::entry_ok))]
fn entry_ok(h: Header, n: u8, a: Entry) -> bool
    ensures { result ≡ entry_ok n h a }
{
    if h.kind == Kind::Extra.byte() {
        if a.column != h.to {
            return false;
        }
    }
    a.row < n
        && a.column < n
        && a.row != a.column
        && a.column != h.from
        && 1 <= a.value
        && a.value <= wire::MAX_COUNT
}

// An entry breaks a rule. `least` is the least place, 256 * row + column, that comes behind the last entry.
fn wrong_entries(s: &[u8], h: Header, n: u8) -> bool
    requires { 8 + 6 * h.e ≤ length s.now }
    ensures { result ≡ wrong_entries n h (entries_from s.now 0 h.e) }
{
    let mut least: u32 = 0;
    let e = usize::from(h.e);
    for k in 0..e {
        let a = super::entries::read(s, k);
        // Kept: two statements, since as one chain of `||` a trail's step over the largest frame took 1.4 times as long.
        if !entry_ok(h, n, a) {
            return true;
        }
        let place = 256 * u32::from(a.row) + u32::from(a.column);
        if place < least {
            return true;
        }
        least = place + 1;
    }
    false
}

// 11: 8 + 6 * e + b is not the count pointed back, b breaks its rule, e exceeds the frame's cap, or an entry breaks a rule.
#[tactic(auto, using(std::proofs::lemmas::Grind::common_steps), unfolding(crate::specs::Refusals::wrong_content))]
fn wrong_content(s: &[u8], h: Header, n: u8) -> bool
    requires { (h ≡ header s.now) × (4 ≤ length s.now) × (count_back s.now ≡ length s.now - 4) }
    ensures { result ≡ wrong_content n s.now }
{
    8 + 6 * usize::from(h.e) + usize::from(h.b) != s.len() - 4
        || wrong_body(h)
        || h.cap < h.e
        || wrong_entries(s, h, n)
}

/// Whether s, which may have any length, is a frame among n nodes, and where it is none, the first that is met of 8 to 11.
#[tactic(auto, using(crate::proofs::Checks::trailer_passed), unfolding(crate::specs::Refusals::frame_refusal))]
pub fn check(s: &[u8], n: u8) -> Result<(), Refusal>
    ensures { met result ≡ frame_refusal n s.now }
{
    if wrong_trailer(s) {
        return Err(Refusal::DamagedFrame);
    }
    let h = super::header::read(s);
    if wrong_kind(h) {
        return Err(Refusal::UnknownKind);
    }
    if wrong_address(h, n) {
        return Err(Refusal::OtherPlant);
    }
    if wrong_content(s, h, n) {
        return Err(Refusal::BadParts);
    }
    Ok(())
}
