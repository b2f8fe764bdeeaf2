//! The state of a simulation, which the yard and the load share: the world of its list of steps, and the counters that each step updates.
#![tactic(auto)]

ghost use Rattle.std.specs.Prelude.{◌≡◌};
ghost use Rattle.counting.specs.State.{waits, counted_by};
ghost use Rattle.counting.specs.Stands.{Few};
ghost use Rattle.world.specs.Told.{told};

use counters::Counters;
use refusal::Refusal;
use world::{Outcome, World};

/// The world, and the counters (document 01: the tally).
#[derive(Clone, Copy)]
pub struct State {
    pub world: World,
    pub counters: Counters,
}

// 1 for a frame that has to wait.
fn waits(ready: bool) -> u32
    ensures { result ≡ waits ready }
{
    u32::from(!ready)
}

/// Counts a step: one that is refused counts nothing.
#[tactic(auto, using(std::proofs::lemmas::Grind::common_steps), unfolding(crate::specs::State::counted_by))]
pub fn count(t: &mut Counters, step: Result<Outcome, Refusal>)
    requires { Few (told step) }
    ensures { t.new ≡ counted_by t.old (told step) }
{
    match step {
        Err(_) => {}
        Ok(Outcome::Sent(extras)) => t.count_send(extras as u32),
        Ok(Outcome::Held { ready, .. }) => t.count_offer(waits(ready)),
        Ok(Outcome::Nothing(tried)) => t.count_nothing(tried as u32),
        Ok(Outcome::Delivered { extras, .. }) => t.count_delivery(extras as u32),
    }
}
