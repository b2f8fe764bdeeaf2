//! The start of a simulation.
ghost use Rattle.std.specs.Prelude.{◌≡◌};
ghost use Rattle.world.specs.Stored.{fresh};
ghost use Rattle.world.specs.Start.{cap_taken, startable};

use super::{MAX_SIMULATED, World};
use node::Node;

/// The world of n nodes, each with its cap, as set-up leaves them; the other records are all zero.
#[tactic(auto, using(std::proofs::lemmas::Grind::common_steps), unfolding(crate::specs::Stored::fresh))]
pub fn fresh(n: usize, caps: [usize; MAX_SIMULATED]) -> World
    ensures { result ≡ fresh n caps }
{
    World {
        n,
        nodes: std::array::from_fn(|i| Node::set_up(i, n, caps[i]).node),
        issued: 0,
        end: 0,
    }
}

// Whether there is no node i among n, or set-up takes its cap.
#[tactic(auto, using(std::proofs::lemmas::Grind::common_steps), unfolding(crate::specs::Start::cap_taken))]
fn cap_taken(i: usize, n: usize, cap: usize) -> bool
    ensures { result ≡ cap_taken n i cap }
{
    n <= i || Node::set_up(i, n, cap).answer.is_ok()
}

/// Whether n is 2 to 4 and set-up takes each node's cap.
#[tactic(auto, using(std::proofs::lemmas::Grind::common_steps), unfolding(crate::specs::Start::startable))]
pub fn startable(n: usize, caps: [usize; MAX_SIMULATED]) -> bool
    ensures { result ≡ startable n caps }
{
    (2..=MAX_SIMULATED).contains(&n)
        && caps
            .iter()
            .enumerate()
            .all(|(i, cap)| cap_taken(i, n, *cap))
}
