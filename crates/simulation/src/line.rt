//! A line of the yard: its command is a step of the world, which is printed and counted.
ghost use Rattle.std.specs.Prelude.{◌≡◌, ℕ, ◌+◌, ◌*◌, ◌≤◌, ◌<◌, length};
ghost use Rattle.commands.specs.Commands.{command};
ghost use Rattle.causality.specs.Demand3.{World as Issued};
ghost use Rattle.world.specs.Stored.{Holds, Standing};
ghost use Rattle.world.specs.Told.{told};
ghost use Rattle.counting.specs.State.{State as Lists};
ghost use Rattle.counting.specs.Stands.{Stands};
ghost use Rattle.simulation.specs.Yard.{max_issues, line};
ghost use Rattle.simulation.specs.Stands.{Room, Took};
ghost use Rattle.simulation.specs.Commanded.{printed_with, step_of};
ghost use Rattle.simulation.specs.Asked.{numbered};

use super::MAX_ISSUES;
use super::print::{self, Issues};
use commands::Command;
use counting::State;
use refusal::Refusal;
use world::{Outcome, World};

// The number that is printed with what a command leads to: the issue that it offers, or its node.
fn printed_with(c: Command) -> usize
    ensures { result ≡ printed_with c }
{
    match c {
        Command::Send { from, .. } => from,
        Command::Offer(m) => m,
        Command::Deliver(j) => j,
    }
}

// A step's answer with a refusal as its number, as it is printed.
fn numbered(step: Result<Outcome, Refusal>) -> Result<Outcome, u8>
    ensures { numbered result ≡ told step }
{
    step.map_err(|why| why.number())
}

// The step of a command.
fn step(w: &mut World, c: Command, queues: &mut [u8], log: &mut [u8]) -> Result<Outcome, Refusal>
    requires { Standing max_issues w.old queues.old log.old }
    ensures { (n : ℕ) (caps : ℕ → ℕ) (k : ℕ) (v : Issued) → k + 1 < 1000000000 → Holds n caps max_issues k v w.old queues.old log.old
        → (told result ≡ (step_of n v c).outcome) × Holds n caps max_issues (k + 1) (step_of n v c).world w.new queues.new log.new }
{
    match c {
        Command::Send { from, to } => w.send(MAX_ISSUES, from, to, log),
        Command::Offer(m) => w.offer(MAX_ISSUES, m, queues, log),
        Command::Deliver(j) => w.deliver(MAX_ISSUES, j, queues, log),
    }
}

/// A line, which has its line feed no more: steps the world, counts, and prints from `at` on. Gives the place after what it prints.
pub fn take(
    y: &mut State,
    text: &[u8],
    queues: &mut [u8],
    log: &mut [u8],
    out: &mut [u8],
    at: usize,
) -> usize
    requires { Standing max_issues y.old.world queues.old log.old × Room at y.old out.old }
    ensures { (result + 17 * y.old.world.issued ≤ at + 5 * (length text.now + 1) + 17 * y.new.world.issued)
        × ((n : ℕ) (caps : ℕ → ℕ) (k : ℕ) (z : Lists) → k + 1 < 1000000000 → Stands n caps max_issues k z y.old queues.old log.old
        → Took n caps k (line n z (command text.now)) at out.old y.new result queues.new log.new out.new) }
{
    let Some(c) = commands::parse_command(text) else {
        return text::put_refusal(out, at, Refusal::Line.number());
    };
    let World {
        issued: from,
        end: place,
        ..
    } = y.world;
    let step = step(&mut y.world, c, queues, log);
    counting::count(&mut y.counters, step);
    let to = y.world.issued;
    print::put_outcome(
        out,
        at,
        printed_with(c),
        numbered(step),
        log,
        Issues { from, to, place },
    )
}
