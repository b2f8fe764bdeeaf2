//! A send in a simulation.
ghost use Rattle.std.specs.Prelude.{◌≡◌, List, ℕ, ◌+◌, ◌<◌};
ghost use Rattle.causality.specs.Demand3.{World as Lists};
ghost use Rattle.world.specs.Stored.{Holds, Kept, StandingRecords};
ghost use Rattle.world.specs.Steps.{send_step};
ghost use Rattle.world.specs.Told.{told};

use super::{Outcome, World};
use node::Node;
use refusal::Refusal;

impl World {
    /// Sends an empty body, which any class may, from node `from` to node `to`, as a mover; 17 where `from` is no node or fewer than n of the limit's issues are left.
    pub fn send(
        &mut self,
        limit: usize,
        from: usize,
        to: usize,
        log: &mut [u8],
    ) -> Result<Outcome, Refusal>
        requires { (limit < 1000000) × StandingRecords limit self.old log.old }
        ensures step { (n : ℕ) (caps : ℕ → ℕ) (k : ℕ) (v : Lists) (q : List ℕ) → k + 1 < 1000000000 → Holds n caps limit k v self.old q log.old
            → (told result ≡ (send_step n limit v from to).outcome) × Holds n caps limit (k + 1) (send_step n limit v from to).world self.new q log.new }
        ensures kept { Kept (told result) self.old self.new }
    {
        if self.stops(limit, from) {
            return Err(Refusal::Line);
        }
        let mut out = [0u8; Node::OUT_SIZE];
        let sent = self.nodes[from].send(to, rights::MOVER, &[], &mut out);
        let issue = sent.answer?;
        self.nodes[from] = sent.node;
        self.append(1 + issue.extras, log, &out[..issue.bytes]);
        Ok(Outcome::Sent(issue.extras))
    }
}
