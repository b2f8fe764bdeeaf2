//! The calls of a host of nodes: the record is an image of 632 lent bytes, and each call returns 0 or its refusal and writes its answer
//! into eleven lent bytes. Lent slices have any length; a refusal leaves every byte of them. `host_c` exports them to programs in Rust and C.
#![tactic(auto)]

mod answer;
mod calls;
mod trail_calls;

ghost use Rattle.std.specs.Prelude.{◌≡◌};
ghost use Rattle.refusal.specs.Numbers.{met};
ghost use Rattle.host.specs.Exports.{set_up_left, exported_set_up, send_left, exported_send, offer_left, exported_offer, deliver_left, exported_deliver};

use refusal::Refusal;
pub use trail_calls::{trail_step, trail_walk, trail_write};

// The number that a call returns: 0, or that of its refusal.
fn status(answer: Result<(), Refusal>) -> u8
    ensures { result ≡ met answer }
{
    match answer {
        Ok(()) => 0,
        Err(why) => why.number(),
    }
}

/// Set-up: the image becomes that of the fresh record.
// Kept: a number, since `host_c` exports this call to C with the same clauses.
pub fn node_set_up(image: &mut [u8], me: usize, n: usize, cap: usize) -> u8
    ensures { set_up_left result image.new ≡ exported_set_up image.old me n cap }
{
    status(calls::set_up(image, me, n, cap))
}

/// Send, as a node of this class: writes the user frame and then trim's extra frames into `out`; the answer has the extra frames and the bytes issued.
// Kept: a number, since `host_c` exports this call to C with the same clauses.
pub fn node_send(
    image: &mut [u8],
    to: usize,
    class: usize,
    body: &[u8],
    out: &mut [u8],
    answer: &mut [u8],
) -> u8
    ensures { send_left result image.new out.new answer.new
        ≡ exported_send image.old to class body.now out.old answer.old }
{
    status(calls::send(image, to, class, body, out, answer))
}

/// Offer: the frame is checked and held; the answer is all zero.
// Kept: a number, since `host_c` exports this call to C with the same clauses.
pub fn node_offer(image: &mut [u8], frame: &[u8], queue: &mut [u8], answer: &mut [u8]) -> u8
    ensures { offer_left result image.new queue.new answer.new
        ≡ exported_offer image.old frame.now queue.old answer.old }
{
    status(calls::offer(image, frame, queue, answer))
}

/// Deliver: the first deliverable frame is taken out of the queue, its body written into `body` and trim's extra frames into `out`;
/// the answer says which it was. Where none is deliverable the answer says how many were tried, and nothing else changes.
// Kept: a number, since `host_c` exports this call to C with the same clauses.
pub fn node_deliver(
    image: &mut [u8],
    queue: &mut [u8],
    out: &mut [u8],
    body: &mut [u8],
    answer: &mut [u8],
) -> u8
    ensures { deliver_left result image.new queue.new out.new body.new answer.new
        ≡ exported_deliver image.old queue.old out.old body.old answer.old }
{
    status(calls::deliver(image, queue, out, body, answer))
}
