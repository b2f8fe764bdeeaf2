//! The table: a line for each cap.
ghost use Rattle.std.specs.Prelude.{◌≡◌, ◌+◌, ◌*◌, ◌≤◌, ◌<◌, length};
ghost use Rattle.text.specs.Print.{number_row};
ghost use Rattle.text.specs.Wrote.{Wrote, WroteWhole};
ghost use Rattle.counters.specs.Counted.{totals};
ghost use Rattle.world.specs.Stored.{log_size};
ghost use Rattle.sweep.specs.Load.{max_issues, run_of, table};
ghost use Rattle.sweep.specs.Run.{output_size};

use super::{MAX_ISSUES, draw};
use counters::Counters;
use node::Node;

// The queues of a run end to end, and the frames that it may issue with what one call may write behind them.
const QUEUES_SIZE: usize = Node::QUEUE_SIZE * world::MAX_SIMULATED;

const LOG_SIZE: usize = Node::MAX_FRAME * MAX_ISSUES + Node::OUT_SIZE;

// The counters of a run: n fresh nodes with this cap, and the draws from the seed. What an earlier run left in the log does not matter.
fn run_cap(n: usize, cap: usize, seed: u32, draws: usize, log: &mut [u8]) -> Counters
    requires { (2 ≤ n) × (n ≤ 4) × (n ≤ cap) × (cap ≤ n * n) × (draws ≤ 400) × (length log.old ≡ log_size max_issues) }
    ensures { result ≡ (run_of n cap seed draws).counters }
{
    let mut queues = [0u8; QUEUES_SIZE];
    let w = world::start::fresh(n, [cap; world::MAX_SIMULATED]);
    draw::run_draws(w, seed, draws, &mut queues, log)
}

// Writes the line of a cap from `at` on, and gives the place after it.
fn put_cap(out: &mut [u8], at: usize, cap: usize, t: Counters) -> usize
    requires { (cap < 100) × (at + 58 ≤ length out.old) }
    ensures { (result ≤ at + 58) × Wrote (number_row cap (totals t)) at out.old result out.new }
{
    text::put_numbers(out, at, cap as u32, &t.totals())
}

/// Writes the table of n nodes, this seed and so many draws to the front of the output, and gives how many bytes it has.
/// A call of its own in the compiled code too, so that a load that is refused needs no stack for a run.
#[inline(never)]
pub fn put_table(out: &mut [u8], n: usize, seed: u32, draws: usize) -> usize
    requires { (2 ≤ n) × (n ≤ 4) × (draws ≤ 400) × (output_size ≤ length out.old) }
    ensures { (result ≤ output_size) × WroteWhole (table n seed draws) out.old result out.new }
{
    let mut log = [0u8; LOG_SIZE];
    let mut at = 0;
    let last = n * n;
    for cap in n..=last {
        let t = run_cap(n, cap, seed, draws, &mut log);
        at = put_cap(out, at, cap, t);
    }
    at
}
