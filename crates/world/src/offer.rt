//! An offer in a simulation.
ghost use Rattle.std.specs.Prelude.{◌≡◌, ℕ, ◌+◌, ◌<◌};
ghost use Rattle.causality.specs.Demand3.{World as Lists};
ghost use Rattle.world.specs.Stored.{Holds, Kept, Standing};
ghost use Rattle.world.specs.Steps.{offer_step};
ghost use Rattle.world.specs.Told.{told};

use super::{Outcome, World, log};
use node::Node;
use refusal::Refusal;

impl World {
    /// Offers an issue, counted from 1, at its destination; 17 where it was not made.
    pub fn offer(
        &mut self,
        limit: usize,
        issue: usize,
        queues: &mut [u8],
        log: &[u8],
    ) -> Result<Outcome, Refusal>
        requires { Standing limit self.old queues.old log.now }
        ensures step { (n : ℕ) (caps : ℕ → ℕ) (k : ℕ) (v : Lists) → k + 1 < 1000000000 → Holds n caps limit k v self.old queues.old log.now
            → (told result ≡ (offer_step v issue).outcome)
            × Holds n caps limit (k + 1) (offer_step v issue).world self.new queues.new log.now }
        ensures kept { Kept (told result) self.old self.new }
    {
        if issue == 0 || self.issued < issue {
            return Err(Refusal::Line);
        }
        let start = log::skip(log, issue - 1);
        let end = log::frame_end(log, start);
        let frame = &log[start..end];
        let to = usize::from(frame::header::read(frame).to);
        let first = Node::QUEUE_SIZE * to;
        let offered = self.nodes[to].offer(frame, &mut queues[first..first + Node::QUEUE_SIZE]);
        let held = offered.answer?;
        self.nodes[to] = offered.node;
        Ok(Outcome::Held {
            count: held.count,
            ready: held.ready,
        })
    }
}
