//! Offer: its checks on a lent record, and the call.
ghost use Rattle.std.specs.Prelude.{◌≡◌, ◌&&◌, ◌||◌, eqb, not, IfOk};
ghost use Rattle.refusal.specs.Numbers.{met};
ghost use Rattle.frame.specs.Frame.{decode};
ghost use Rattle.protocol.specs.Offer.{deliverable};
ghost use Rattle.holdback.specs.CheckedQueue.{CheckedQueue};
ghost use Rattle.arrival.specs.CheckedFrame.{CheckedFrame};
ghost use Rattle.node.specs.Answers.{after_offer};
ghost use Rattle.node.specs.Calls.{offer_call};
ghost use Rattle.node.specs.CallRefusals.{hold_refusal, record_refusal, take_refusal};
ghost use Rattle.node.specs.Record.{node_at};
ghost use Rattle.node.specs.Told.{offer_told, told_offer};

use super::{Held, Node, Offered};
use refusal::Refusal;

/// Frames held where only a deliverable one is still taken.
const LAST_SLOT: usize = wire::MAX_HELD - 1;

// Whether a frame finds no slot where so many are held: in the last one only a deliverable frame is laid.
fn no_room(held: usize, ready: bool) -> bool
    ensures { result ≡ (eqb held 16 || eqb held 15 && not ready) }
{
    held == wire::MAX_HELD || (held == LAST_SLOT && !ready)
}

impl Node {
    // The checks 12 to 16 of a sound frame at a node whose queue has passed check 4, and whether the frame is deliverable now.
    fn check_hold(&self, frame: &[u8], queue: &[u8]) -> Result<bool, Refusal>
        requires { CheckedQueue self.now.held queue.now × CheckedFrame frame.now }
        ensures refusal { met result ≡ hold_refusal (node_at self.now queue.now) (decode frame.now) }
        ensures ready { IfOk result (λ ready. ready ≡ deliverable (node_at self.now queue.now) (decode frame.now)) }
    {
        arrival::check(frame, self.me, &self.m, &self.deliv)?;
        let held = self.held as usize;
        if holdback::alike(queue, held, frame) {
            return Err(Refusal::Held);
        }
        let ready = arrival::deliverable(frame, self.me, &self.deliv);
        if no_room(held, ready) {
            return Err(Refusal::QueueFull);
        }
        Ok(ready)
    }

    /// The checks of an offer, and whether the frame is deliverable now; another lent buffer being too short counts as 3.
    #[tactic(auto, using(std::proofs::lemmas::Grind::common_steps), unfolding(crate::specs::CallRefusals::record_refusal))]
    pub fn check_offer(&self, frame: &[u8], queue: &[u8], short: bool) -> Result<bool, Refusal>
        ensures refusal { met result ≡ record_refusal self.now queue.now short (take_refusal self.now frame.now queue.now) }
        ensures ready { IfOk result (λ ready. ready ≡ deliverable (node_at self.now queue.now) (decode frame.now)) }
    {
        self.check_record(queue, short)?;
        frame::check::check(frame, self.n)?;
        self.check_hold(frame, queue)
    }

    // An offer on a lent record.
    fn offer_in_place(&mut self, frame: &[u8], queue: &mut [u8]) -> Result<Held, Refusal>
        ensures { after_offer (record { answer = offer_told result; node = self.new }) queue.new
            ≡ offer_call self.old frame.now queue.old }
    {
        let ready = self.check_offer(frame, queue, false)?;
        holdback::hold(queue, self.held as usize, frame);
        self.held += 1;
        Ok(Held {
            count: self.held as usize,
            ready,
        })
    }

    /// Offers a frame: it is checked and held.
    pub fn offer(mut self, frame: &[u8], queue: &mut [u8]) -> Offered
        ensures { after_offer (told_offer result) queue.new ≡ offer_call self frame.now queue.old }
    {
        let answer = self.offer_in_place(frame, queue);
        Offered { answer, node: self }
    }
}
