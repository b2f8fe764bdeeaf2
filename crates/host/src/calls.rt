//! The node's calls over an image: each is told its first refusal, and where there is none the image, the lent bytes and the answer are written.
ghost use Rattle.std.specs.Prelude.{◌≡◌, not, cond, ◌||◌, eqb, ltb, IfOk, length};
ghost use Rattle.wire.specs.Trailer.{has_trailer};
ghost use Rattle.refusal.specs.Numbers.{met};
ghost use Rattle.node.specs.CallRefusals.{short_outputs};
ghost use Rattle.image.specs.Image.{image_size, record_in};
ghost use Rattle.host.specs.Exports.{answer_size};
ghost use Rattle.host.specs.Exports.{set_up_left, exported_set_up, send_left, exported_send, offer_left, exported_offer, deliver_left, exported_deliver};

use super::answer::Answer;
use node::Node;
use refusal::Refusal;

// The record of an image that has its length and its trailer.
fn opened(image: &[u8]) -> Result<Node, Refusal>
    ensures refusal { met result ≡ cond (not (eqb (length image.now) image_size) || not (has_trailer image.now)) 20 0 }
    ensures record { IfOk result (λ node. (node ≡ record_in image.now) × (length image.now ≡ image_size)) }
{
    if image::unsealed(image) {
        return Err(Refusal::Image);
    }
    Ok(image::read(image))
}

// What a check of the node's answers, as a host is told it: a broken record is a bad image.
fn told<T>(answer: Result<T, Refusal>) -> Result<T, Refusal>
    ensures { met result ≡ cond (eqb (met answer) 2) 20 (met answer) }
{
    match answer {
        Err(Refusal::BrokenRecord) => Err(Refusal::Image),
        other => other,
    }
}

/// Set-up, as `node_set_up` says it.
#[tactic(auto, using(std::proofs::lemmas::Grind::common_steps, node::proofs::Ranges::ranged_small), unfolding(crate::specs::Exports::exported_set_up, node::specs::SetUp::set_up))]
pub fn set_up(image: &mut [u8], me: usize, n: usize, cap: usize) -> Result<(), Refusal>
    ensures { set_up_left (met result) image.new ≡ exported_set_up image.old me n cap }
{
    if !rules::in_range(me, n, cap) {
        return Err(Refusal::OutOfRange);
    }
    if image.len() != image::SIZE {
        return Err(Refusal::Image);
    }
    image::store_fresh(image, me as u8, n as u8, cap as u8);
    Ok(())
}

// The room of a send's frame output; an answer that is too short counts as no room.
fn room(out: usize, answer: usize) -> usize
    ensures { result ≡ cond (ltb answer answer_size) 0 out }
{
    if answer < Answer::SIZE { 0 } else { out }
}

/// Send, as `node_send` says it.
pub fn send(
    image: &mut [u8],
    to: usize,
    class: usize,
    body: &[u8],
    out: &mut [u8],
    answer: &mut [u8],
) -> Result<(), Refusal>
    ensures { send_left (met result) image.new out.new answer.new
        ≡ exported_send image.old to class body.now out.old answer.old }
{
    let mut node = opened(image)?;
    told(node.check_send(to, class, body, room(out.len(), answer.len())))?;
    let issue = node.issue(to, body, out);
    image::store_matrix(image, &node.m);
    let said = Answer {
        extras: issue.extras as u8,
        bytes: issue.bytes as u16,
        ..Answer::default()
    };
    said.write(answer);
    Ok(())
}

/// Offer, as `node_offer` says it.
pub fn offer(
    image: &mut [u8],
    frame: &[u8],
    queue: &mut [u8],
    answer: &mut [u8],
) -> Result<(), Refusal>
    ensures { offer_left (met result) image.new queue.new answer.new
        ≡ exported_offer image.old frame.now queue.old answer.old }
{
    let node = opened(image)?;
    told(node.check_offer(frame, queue, answer.len() < Answer::SIZE))?;
    holdback::hold(queue, node.held as usize, frame);
    image::store_held(image, node.held + 1);
    Answer::default().write(answer);
    Ok(())
}

// Whether a lent output or the lent answer is too short for a deliver.
fn short_for_deliver(out: usize, body: usize, answer: usize) -> bool
    ensures { result ≡ (ltb answer answer_size || short_outputs out body) }
{
    answer < Answer::SIZE || Node::short_outputs(out, body)
}

/// Deliver, as `node_deliver` says it.
pub fn deliver(
    image: &mut [u8],
    queue: &mut [u8],
    out: &mut [u8],
    body: &mut [u8],
    answer: &mut [u8],
) -> Result<(), Refusal>
    ensures { deliver_left (met result) image.new queue.new out.new body.new answer.new
        ≡ exported_deliver image.old queue.old out.old body.old answer.old }
{
    let mut node = opened(image)?;
    let short = short_for_deliver(out.len(), body.len(), answer.len());
    told(node.check_deliver(queue, short))?;
    let Some(slot) = holdback::search(queue, node.held as usize, node.me, &node.deliv) else {
        let none = Answer {
            tried: node.held,
            ..Answer::default()
        };
        none.write(answer);
        return Ok(());
    };
    let d = node.take(queue, slot, out, body);
    image::store_delivery(image, &node);
    Answer::delivery(d).write(answer);
    Ok(())
}
