//! A frame on its own: document 01's checks 8 to 11 with the frame's own n for a record's, and this in the range of check 1.
ghost use Rattle.std.specs.Prelude.{◌≡◌};
ghost use Rattle.trail.specs.Sound.{in_own_range, kind_bit, unsound};

use frame::header::Kind;

// n is 2 to 12.
#[tactic(auto, using(std::proofs::lemmas::Grind::common_steps), unfolding(crate::specs::Sound::in_own_range))]
fn in_own_range(n: u8) -> bool
    ensures { result ≡ in_own_range n }
{
    2 <= n && usize::from(n) <= wire::MAX_NODES
}

// Kept: s[5] is read only behind the test of the length, and is named once.
/// Whether s, which may have any length, is no sound frame on its own.
pub fn unsound(s: &[u8]) -> bool
    ensures { result ≡ unsound s.now }
{
    if s.len() < 12 {
        return true;
    }
    let n = s[5];
    !in_own_range(n) || frame::check::check(s, n).is_err()
}

/// 1 for the kind byte of an extra frame, 0 for a user frame's.
#[tactic(auto, using(std::proofs::lemmas::Grind::common_steps), unfolding(crate::specs::Sound::extra_bit))]
pub fn extra_bit(kind: u8) -> u8
    ensures { result ≡ kind_bit kind }
{
    u8::from(kind == Kind::Extra.byte())
}
