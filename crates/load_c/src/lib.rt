//! The load for programs in Rust and C.
#![tactic(auto)]

ghost use Rattle.std.specs.Prelude.{◌≡◌};
ghost use Rattle.load_c.specs.Exports.{load_left, exported_load};

/// Writes what the load prints for an input to the front of the output, and gives how many bytes that is.
/// Gives 0 where the output is shorter than 1,024 bytes, and leaves it as it is.
#[unsafe(no_mangle)]
pub extern "C" fn load_run(input: &[u8], out: &mut [u8]) -> usize
    ensures { load_left result out.new ≡ exported_load input.now out.old }
{
    sweep::run(input, out).unwrap_or(0)
}
