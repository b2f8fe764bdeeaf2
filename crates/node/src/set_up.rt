//! Set-up.
ghost use Rattle.std.specs.Prelude.{◌≡◌};
ghost use Rattle.node.specs.SetUp.{fresh_record, set_up};
ghost use Rattle.node.specs.Told.{told_set_up};

use super::{Node, SetUp};
use refusal::Refusal;

// A record that is all zero but for me, n and cap.
fn fresh(me: u8, n: u8, cap: u8) -> Node
    ensures { result ≡ fresh_record me n cap }
{
    Node {
        me,
        n,
        cap,
        m: [0; 144],
        deliv: [0; 12],
        held: 0,
    }
}

impl Node {
    /// A fresh record for me, n and cap, or refusal 1 with the all-zero record; any numbers are an input.
    #[tactic(auto, using(crate::proofs::Ranges::ranged_small), unfolding(crate::specs::SetUp::set_up))]
    pub fn set_up(me: usize, n: usize, cap: usize) -> SetUp
        ensures { told_set_up result ≡ set_up me n cap }
    {
        if rules::in_range(me, n, cap) {
            return SetUp {
                answer: Ok(()),
                node: fresh(me as u8, n as u8, cap as u8),
            };
        }
        SetUp {
            answer: Err(Refusal::OutOfRange),
            node: fresh(0, 0, 0),
        }
    }
}
