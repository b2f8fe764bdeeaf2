//! The yard: parses its input line by line, steps the world, counts and prints.
#![tactic(auto)]

pub mod line;
pub mod print;

ghost use Rattle.std.specs.Prelude.{◌≡◌, ℕ, ◌≤◌, true, length, MatchOption};
ghost use Rattle.text.specs.Pieces.{split};
ghost use Rattle.text.specs.Wrote.{WroteWhole};
ghost use Rattle.text.specs.Output.{after_run, Fits};
ghost use Rattle.causality.specs.Demand3.{start};
ghost use Rattle.world.specs.Start.{cap_of, startable};
ghost use Rattle.world.specs.Stored.{Holds};
ghost use Rattle.counting.specs.State.{opened};
ghost use Rattle.counting.specs.Stands.{Opened};
ghost use Rattle.simulation.specs.Yard.{alone, max_input, max_issues, lines, output};
ghost use Rattle.simulation.specs.Run.{output_size, run_call};

use commands::Sizes;
use counters::Counters;
use counting::State;
use node::Node;
use refusal::Refusal;
use text::TooShort;
use world::World;

/// Issues of a yard at most.
pub const MAX_ISSUES: usize = 64;

/// Bytes of input at most.
pub const MAX_INPUT: usize = 4096;

/// Bytes of output that always suffice.
pub const OUTPUT_SIZE: usize = 24_576;

// The queues of a yard end to end, and the frames that it may issue with what one call may write behind them.
const QUEUES_SIZE: usize = Node::QUEUE_SIZE * world::MAX_SIMULATED;

const LOG_SIZE: usize = Node::MAX_FRAME * MAX_ISSUES + Node::OUT_SIZE;

// The lines behind the first: those that end with a line feed, and what stands behind the last one. Gives how many bytes are printed.
fn run_lines(world: World, input: &[u8], queues: &mut [u8], log: &mut [u8], out: &mut [u8]) -> usize
    requires { Opened max_issues world queues.old log.old × (length input.now ≤ max_input) × (output_size ≤ length out.old) }
    ensures { (result ≤ output_size)
        × ((n : ℕ) (caps : ℕ → ℕ) → Holds n caps max_issues 0 (start n caps) world queues.old log.old
        → WroteWhole (lines n (opened n caps) (split 10 input.now)) out.old result out.new) }
{
    let counters = Counters::default();
    let mut yard = State { world, counters };
    let mut end = 0;
    let mut rest = input;
    while let Some((line, behind)) = text::split_once(rest, b'\n') {
        end = line::take(&mut yard, line, queues, log, out, end);
        rest = behind;
    }
    print::put_ending(out, end, !rest.is_empty(), yard.counters)
}

// A yard of sizes that it can start with, on the lines behind the first. Gives how many bytes are printed.
fn run_sizes(sizes: Sizes, input: &[u8], out: &mut [u8]) -> usize
    requires { (startable sizes.n sizes.caps ≡ true) × (length input.now ≤ max_input) × (output_size ≤ length out.old) }
    ensures { (result ≤ output_size) × WroteWhole (lines sizes.n (opened sizes.n (cap_of sizes.caps)) (split 10 input.now)) out.old result out.new }
{
    let mut queues = [0u8; QUEUES_SIZE];
    let mut log = [0u8; LOG_SIZE];
    let world = world::start::fresh(sizes.n, sizes.caps);
    run_lines(world, input, &mut queues, &mut log, out)
}

// The sizes that the first line gives and the lines behind it; none where the input is too long, has no first line, or asks for a yard that cannot start.
#[tactic(auto, using(crate::proofs::Runs::output_long))]
fn parse(input: &[u8]) -> Option<(Sizes, &[u8])>
    ensures { MatchOption result (output input.now ≡ alone)
        (λ p. (startable p.0.n p.0.caps ≡ true) × (length p.1.now ≤ max_input)
        × (output input.now ≡ lines p.0.n (opened p.0.n (cap_of p.0.caps)) (split 10 p.1.now))) }
{
    if MAX_INPUT < input.len() {
        return None;
    }
    let (first, behind) = text::split_once(input, b'\n')?;
    let sizes = commands::parse_first_line(first)?;
    if !world::start::startable(sizes.n, sizes.caps) {
        return None;
    }
    Some((sizes, behind))
}

/// The yard: writes what it prints for an input. An output shorter than `OUTPUT_SIZE` is refused and left as it is.
pub fn run(input: &[u8], out: &mut [u8]) -> Result<usize, TooShort>
    ensures { (after_run result out.new ≡ run_call input.now out.old) × Fits output_size result }
{
    if out.len() < OUTPUT_SIZE {
        return Err(TooShort);
    }
    match parse(input) {
        Some((sizes, lines)) => Ok(run_sizes(sizes, lines, out)),
        None => Ok(text::put_refusal(out, 0, Refusal::Line.number())),
    }
}
