//! The step that a number drawn makes in a test load.
#![tactic(auto)]

ghost use Rattle.std.specs.Prelude.{◌≡◌, ◌≤◌};
ghost use Rattle.draws.specs.Draws.{send_of, offer_of, step_of};

/// What a draw asks for: a send, an offer of an issue counted from 1, or a delivery at a node.
#[derive(Clone, Copy, Debug, PartialEq, Eq)]
pub enum Draw {
    Send { from: usize, to: usize },
    Offer(usize),
    Deliver(usize),
}

// The send of a draw among n nodes.
#[tactic(auto, unfolding(crate::specs::Draws::send_of))]
fn send_of(n: usize, v: u32) -> Draw
    requires { 2 ≤ n }
    ensures { result ≡ send_of n v }
{
    let from = (v / 4) as usize % n;
    let past = (v / 64) as usize % (n - 1);
    Draw::Send {
        from,
        to: (from + 1 + past) % n,
    }
}

// The offer of a draw after so many issues, none while there is no issue.
#[tactic(auto, unfolding(crate::specs::Draws::offer_of))]
fn offer_of(issued: usize, v: u32) -> Option<Draw>
    ensures { result ≡ offer_of issued v }
{
    if issued == 0 {
        return None;
    }
    Some(Draw::Offer((v / 4) as usize % issued + 1))
}

/// The step that the draw v makes among n nodes after so many issues, if it makes one.
#[tactic(auto, unfolding(crate::specs::Draws::step_of, crate::specs::Draws::delivery_of))]
pub fn step_of(n: usize, issued: usize, v: u32) -> Option<Draw>
    requires { 2 ≤ n }
    ensures { result ≡ step_of n issued v }
{
    match v % 4 {
        0 => Some(send_of(n, v)),
        1 | 2 => offer_of(issued, v),
        _ => Some(Draw::Deliver((v / 4) as usize % n)),
    }
}
