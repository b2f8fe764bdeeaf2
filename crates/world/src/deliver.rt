//! A deliver in a simulation.
ghost use Rattle.std.specs.Prelude.{◌≡◌, ℕ, ◌+◌, ◌<◌};
ghost use Rattle.causality.specs.Demand3.{World as Lists};
ghost use Rattle.world.specs.Stored.{Holds, Kept, Standing};
ghost use Rattle.world.specs.Steps.{deliver_step};
ghost use Rattle.world.specs.Told.{told};

use super::{Outcome, World, log};
use node::{Found, Node};
use refusal::Refusal;

impl World {
    /// Delivers at node `at`; 17 where it is no node or fewer than n of the limit's issues are left.
    pub fn deliver(
        &mut self,
        limit: usize,
        at: usize,
        queues: &mut [u8],
        log: &mut [u8],
    ) -> Result<Outcome, Refusal>
        requires { (limit < 1000000) × Standing limit self.old queues.old log.old }
        ensures step { (n : ℕ) (caps : ℕ → ℕ) (k : ℕ) (v : Lists) → k + 1 < 1000000000 → Holds n caps limit k v self.old queues.old log.old
            → (told result ≡ (deliver_step n limit v at).outcome)
            × Holds n caps limit (k + 1) (deliver_step n limit v at).world self.new queues.new log.new }
        ensures kept { Kept (told result) self.old self.new }
    {
        if self.stops(limit, at) {
            return Err(Refusal::Line);
        }
        let first = Node::QUEUE_SIZE * at;
        let mut out = [0u8; Node::OUT_SIZE];
        let mut body = [0u8; Node::MAX_BODY];
        let done = self.nodes[at].deliver(
            &mut queues[first..first + Node::QUEUE_SIZE],
            &mut out,
            &mut body,
        );
        match done.answer? {
            Found::Nothing(tried) => Ok(Outcome::Nothing(tried)),
            Found::Frame(d) => {
                let name = log::Name {
                    to: at,
                    kind: d.kind.byte(),
                    from: d.from,
                    number: d.number,
                };
                let issue = log::find(log, self.issued, name).unwrap_or(0);
                self.nodes[at] = done.node;
                self.append(d.extras, log, &out[..d.bytes]);
                Ok(Outcome::Delivered {
                    issue,
                    tried: d.tried,
                    extras: d.extras,
                })
            }
        }
    }
}
