//! One frame written on: behind the bytes in use, if it is sound and there is room.
ghost use Rattle.std.specs.Prelude.{◌≡◌};
ghost use Rattle.trail.specs.WriteAnswer.{write_answered};
ghost use Rattle.trail.specs.Write.{after_write, write_call};

use refusal::Refusal;

/// Writes a frame behind the first `used` bytes of the file: 19 where the frame is not sound on its own, then 3 where it does not fit, and else how many bytes are in use now.
#[tactic(auto, using(std::proofs::lemmas::Grind::common_steps), unfolding(crate::specs::Write::write_call, crate::specs::Write::no_room_for))]
pub fn write(file: &mut [u8], used: usize, frame: &[u8]) -> Result<usize, Refusal>
    ensures { after_write (write_answered result) file.new ≡ write_call file.old used frame.now }
{
    if super::sound::unsound(frame) {
        return Err(Refusal::Trail);
    }
    if file.len() < used || file.len() - used < frame.len() {
        return Err(Refusal::TooShort);
    }
    wire::copy(file, used, frame);
    Ok(used + frame.len())
}
