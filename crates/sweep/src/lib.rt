//! The load: the same draws under each cap, and the table of what they counted.
#![tactic(auto)]

mod draw;
mod table;

ghost use Rattle.std.specs.Prelude.{◌≡◌};
ghost use Rattle.text.specs.Output.{after_run, Fits};
ghost use Rattle.sweep.specs.Run.{output_size, run_call};

use refusal::Refusal;
use text::TooShort;

/// Issues of a load's run at most.
pub const MAX_ISSUES: usize = 180;

/// Bytes of the longest input that is not refused.
pub const MAX_INPUT: usize = 33;

/// Bytes of output that always suffice.
pub const OUTPUT_SIZE: usize = 1_024;

/// The load: writes what it prints for an input. An output shorter than `OUTPUT_SIZE` is refused and left as it is.
pub fn run(input: &[u8], out: &mut [u8]) -> Result<usize, TooShort>
    ensures { (after_run result out.new ≡ run_call input.now out.old) × Fits output_size result }
{
    if out.len() < OUTPUT_SIZE {
        return Err(TooShort);
    }
    let asked = request::parse(input);
    if request::is_wrong(asked) {
        return Ok(text::put_refusal(out, 0, Refusal::Load.number()));
    }
    match asked {
        Some(load) => Ok(table::put_table(out, load.n, load.seed as u32, load.draws)),
        None => Ok(text::put_refusal(out, 0, Refusal::Load.number())),
    }
}
