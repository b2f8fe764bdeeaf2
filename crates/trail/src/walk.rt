//! The walk back: a step shows the frame that ends where the cursor stands; the whole walk gives the largest count of extra frames in a window.
ghost use Rattle.std.specs.Prelude.{◌≡◌};
ghost use Rattle.trail.specs.Cursor.{begun};
ghost use Rattle.trail.specs.SoundLast.{sound_last};
ghost use Rattle.trail.specs.WalkAnswer.{walk_answered};
ghost use Rattle.trail.specs.StepAnswer.{step_answered};
ghost use Rattle.trail.specs.Walk.{walk_call};
ghost use Rattle.trail.specs.Step.{step_call};

use refusal::Refusal;

/// Frames of a window at most: as many kinds as a number of 64 bits holds.
pub const MAX_WINDOW: usize = 64;

/// A walk's place: what lies in front of `end` has not been shown. `kinds` has the kinds of the frames shown last, the last one's in bit 0,
/// 1 for an extra frame; `extras` counts the extra frames among the last w, and `most` is the largest such count so far.
#[derive(Clone, Copy, Debug, PartialEq, Eq)]
pub struct Cursor {
    pub end: usize,
    pub w: usize,
    pub kinds: u64,
    pub extras: usize,
    pub most: usize,
}

/// What a step comes to: the file's start, with the largest count, or the start and length of the frame shown and the next cursor.
#[derive(Clone, Copy, Debug, PartialEq, Eq)]
pub enum Stepped {
    End(usize),
    Shown {
        start: usize,
        length: usize,
        next: Cursor,
    },
}

/// The cursor of a walk that begins at `end`, the number of bytes in use, with a window of w frames.
#[tactic(auto, using(std::proofs::lemmas::Grind::common_steps), unfolding(crate::specs::Cursor::begun))]
pub fn begin(end: usize, w: usize) -> Cursor
    ensures { result ≡ begun end w }
{
    Cursor {
        end,
        w,
        kinds: 0,
        extras: 0,
        most: 0,
    }
}

// The length of the sound frame that ends where s ends, and none where there is no such frame.
fn sound_last(s: &[u8]) -> Option<usize>
    ensures { result ≡ sound_last s.now }
{
    let end = s.len();
    if end < 4 {
        return None;
    }
    let length = wire::get_u16(s, end - 4) as usize + 4;
    if end < length || super::sound::unsound(&s[end - length..]) {
        return None;
    }
    Some(length)
}

/// One step of a walk over the bytes in use: w is looked at first, then whether anything is left, then the frame that ends there; 19 where w is
/// out of range, or no sound frame ends there. Any cursor is taken; what is left is what the file has in front of its `end`.
pub fn step(file: &[u8], c: Cursor) -> Result<Stepped, Refusal>
    ensures { step_answered result ≡ step_call file.now c }
{
    if super::cursor::wrong_window(c.w) {
        return Err(Refusal::Trail);
    }
    let end = c.end.min(file.len());
    if end == 0 {
        return Ok(Stepped::End(c.most));
    }
    let Some(length) = sound_last(&file[..end]) else {
        return Err(Refusal::Trail);
    };
    let start = end - length;
    let next = super::cursor::pass(c, start, super::sound::extra_bit(file[start]));
    Ok(Stepped::Shown {
        start,
        length,
        next,
    })
}

/// The whole walk over the bytes in use, with a window of w frames: the largest count of extra frames in a window, and 19 where a step has it.
pub fn walk(file: &[u8], w: usize) -> Result<usize, Refusal>
    ensures { walk_answered result ≡ walk_call file.now w }
{
    let mut c = begin(file.len(), w);
    loop {
        match step(file, c)? {
            Stepped::End(most) => {
                return Ok(most);
            }
            Stepped::Shown { next, .. } => {
                c = next;
            }
        }
    }
}
