//! What a walk's cursor carries along: the kinds of the frames shown last in one number, and the count of extra frames among the last w of them
//! kept beside it, changed by the frame that enters the window and the one that leaves it.
ghost use Rattle.std.specs.Prelude.{◌≡◌, ◌≤◌, min, max};
ghost use Rattle.trail.specs.Cursor.{wrong_window, leaving, in_window, passing};

use super::walk::Cursor;

/// Whether w is not 1 to 64.
#[tactic(auto, using(std::proofs::lemmas::Grind::common_steps), unfolding(crate::specs::Cursor::wrong_window))]
pub fn wrong_window(w: usize) -> bool
    ensures { result ≡ wrong_window w }
{
    w < 1 || super::walk::MAX_WINDOW < w
}

// 1 where the frame that was shown w frames ago, and now leaves the window, was an extra frame.
#[tactic(auto, using(std::proofs::lemmas::Grind::common_steps), unfolding(crate::specs::Cursor::leaving))]
fn leaving(w: usize, kinds: u64) -> usize
    requires { (1 ≤ w) × (w ≤ 64) }
    ensures { result ≡ leaving w kinds }
{
    ((kinds >> (w - 1)) % 2) as usize
}

// The extra frames of a window of w frames, which has at most w, when x of them enter and y leave.
#[tactic(auto, using(std::proofs::lemmas::Grind::common_steps), unfolding(crate::specs::Cursor::in_window))]
fn in_window(w: usize, extras: usize, x: usize, y: usize) -> usize
    requires { (w ≤ 64) × (x ≤ 1) }
    ensures { result ≡ in_window w extras x y }
{
    (w.min(extras) + x).saturating_sub(y)
}

/// The cursor once the frame from `start` on is shown, an extra frame where x is 1.
#[tactic(auto, using(std::proofs::lemmas::Grind::common_steps), unfolding(crate::specs::Cursor::passing))]
pub fn pass(c: Cursor, start: usize, x: u8) -> Cursor
    requires { (1 ≤ c.w) × (c.w ≤ 64) × (x ≤ 1) }
    ensures { result ≡ passing c start x }
{
    let extras = in_window(c.w, c.extras, usize::from(x), leaving(c.w, c.kinds));
    Cursor {
        end: start,
        w: c.w,
        kinds: (c.kinds << 1) + u64::from(x),
        extras,
        most: c.most.max(extras),
    }
}
