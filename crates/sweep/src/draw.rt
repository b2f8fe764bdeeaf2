//! A run of draws: each is a step of the world, which is counted.
ghost use Rattle.std.specs.Prelude.{◌≡◌, ℕ, ◌+◌, ◌≤◌, ◌<◌};
ghost use Rattle.causality.specs.Demand3.{World as Issued, start};
ghost use Rattle.counting.specs.State.{State as Lists, opened};
ghost use Rattle.counting.specs.Stands.{Opened, Stands};
ghost use Rattle.world.specs.Stored.{Holds, Standing};
ghost use Rattle.world.specs.Told.{told};
ghost use Rattle.sweep.specs.Drawn.{step_of};
ghost use Rattle.sweep.specs.Load.{max_issues, after_draw, after_draws};

use super::MAX_ISSUES;
use counters::Counters;
use counting::State;
use draws::Draw;
use refusal::Refusal;
use world::{Outcome, World};

// The step that a draw asks for.
fn step(w: &mut World, draw: Draw, queues: &mut [u8], log: &mut [u8]) -> Result<Outcome, Refusal>
    requires { Standing max_issues w.old queues.old log.old }
    ensures { (n : ℕ) (caps : ℕ → ℕ) (k : ℕ) (v : Issued) → k + 1 < 1000000000 → Holds n caps max_issues k v w.old queues.old log.old
        → (told result ≡ (step_of n v draw).outcome) × Holds n caps max_issues (k + 1) (step_of n v draw).world w.new queues.new log.new }
{
    match draw {
        Draw::Send { from, to } => w.send(MAX_ISSUES, from, to, log),
        Draw::Offer(m) => w.offer(MAX_ISSUES, m, queues, log),
        Draw::Deliver(j) => w.deliver(MAX_ISSUES, j, queues, log),
    }
}

// Makes the step of the draw v, if it asks for one, and counts it.
fn make(y: &mut State, v: u32, queues: &mut [u8], log: &mut [u8])
    requires { Standing max_issues y.old.world queues.old log.old }
    ensures { (n : ℕ) (caps : ℕ → ℕ) (k : ℕ) (z : Lists) → k + 1 < 1000000000 → Stands n caps max_issues k z y.old queues.old log.old
        → Stands n caps max_issues (k + 1) (after_draw n z v) y.new queues.new log.new }
{
    let Some(draw) = draws::step_of(y.world.n, y.world.issued, v) else {
        return;
    };
    let step = step(&mut y.world, draw, queues, log);
    counting::count(&mut y.counters, step);
}

/// The counters after so many draws from the seed, over a world before its first step.
pub fn run_draws(
    world: World,
    seed: u32,
    count: usize,
    queues: &mut [u8],
    log: &mut [u8],
) -> Counters
    requires { Opened max_issues world queues.old log.old × (count ≤ 400) }
    ensures { (n : ℕ) (caps : ℕ → ℕ) → Holds n caps max_issues 0 (start n caps) world queues.old log.old
        → result ≡ (after_draws n (opened n caps) seed count).counters }
{
    let counters = Counters::default();
    let mut state = State { world, counters };
    let mut v = seed;
    for _i in 0..count {
        v = xorshift::next(v);
        make(&mut state, v, queues, log);
    }
    state.counters
}
