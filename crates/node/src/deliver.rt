//! Deliver: its checks and what it does on a lent record, and the call.
ghost use Rattle.std.specs.Prelude.{◌≡◌, [], ℕ, ◌≤◌, ◌<◌, length};
ghost use Rattle.wire.specs.Limits.{max_body, max_count};
ghost use Rattle.refusal.specs.Numbers.{met};
ghost use Rattle.matrix.specs.Array.{entry};
ghost use Rattle.frame.specs.Header.{kind_named};
ghost use Rattle.frame.specs.Frame.{decode};
ghost use Rattle.protocol.specs.Deliver.{learn};
ghost use Rattle.arrival.specs.CheckedFrame.{CheckedFrame};
ghost use Rattle.node.specs.Answers.{after_deliver};
ghost use Rattle.node.specs.Calls.{deliver_call};
ghost use Rattle.node.specs.CallRefusals.{deliver_refusal, short_outputs, Finds, FindsAt};
ghost use Rattle.node.specs.DeliverAnswer.{Frame as frame};
ghost use Rattle.node.specs.Record.{node_of};
ghost use Rattle.node.specs.Taken.{Learned, TakenIn};
ghost use Rattle.node.specs.Told.{delivered_told, deliver_told, told_deliver};

use super::{Delivered, Delivery, Found, Node};
use frame::header::Kind;
use refusal::Refusal;
use trim::Issued;

impl Node {
    /// Whether the frame output or the body output is too short.
    pub fn short_outputs(out: usize, body: usize) -> bool
        ensures { result ≡ short_outputs out body }
    {
        out < Node::OUT_SIZE || body < wire::MAX_BODY
    }

    /// The checks of a deliver, for outputs that are too short or not.
    #[tactic(auto, using(std::proofs::lemmas::Grind::common_steps, crate::proofs::Ranges::record_small), unfolding(crate::specs::CallRefusals::deliver_refusal, crate::specs::CallRefusals::record_refusal, crate::specs::Record::broken_record))]
    pub fn check_deliver(&self, queue: &[u8], short: bool) -> Result<(), Refusal>
        ensures { met result ≡ deliver_refusal self.now queue.now short }
    {
        self.check_record(queue, short)?;
        if rules::at_limit(self.me as usize, &self.m, &self.deliv) {
            return Err(Refusal::CountedOut);
        }
        Ok(())
    }

    // Takes in the entries of a delivered frame: those of a user frame are merged and the matrix is trimmed; an extra frame changes nothing.
    fn learn(&mut self, s: &[u8], kind: Kind, out: &mut [u8]) -> Issued
        requires { CheckedFrame s.now × (self.old.me < 12) × (1008 ≤ length out.old) × ((x y : ℕ) → entry self.old.m x y ≤ max_count) }
        ensures { Learned (learn (kind_named kind) (node_of self.old []) (decode s.now).entries) self.old self.new out.old out.new result.at result.extras }
    {
        match kind {
            Kind::Extra => Issued { at: 0, extras: 0 },
            Kind::User => {
                let Node { me, n, cap, .. } = *self;
                arrival::merge(&mut self.m, s, me);
                trim::trim(&mut self.m, out, 0, me, n, cap)
            }
        }
    }

    // Delivers the sound frame s: writes its body, takes in its entries, and tells what the answer says of it.
    fn take_in(&mut self, s: &[u8], tried: usize, out: &mut [u8], body: &mut [u8]) -> Delivered
        requires { CheckedFrame s.now × (self.old.me < 12) × (1008 ≤ length out.old)
            × ((x y : ℕ) → entry self.old.m x y ≤ max_count) × (max_body ≤ length body.old) }
        ensures { TakenIn self.old s.now tried out.old body.old (delivered_told result) self.new out.new body.new }
    {
        let h = frame::header::read(s);
        let a = 8 + 6 * (h.e as usize);
        let z = a + h.b as usize;
        wire::copy(body, 0, &s[a..z]);
        let kind = Kind::of(h.kind);
        let t = self.learn(s, kind, out);
        let number = arrival::number(s);
        Delivered {
            kind,
            from: h.from,
            number,
            tried,
            body: h.b as usize,
            bytes: t.at,
            extras: t.extras as usize,
        }
    }

    /// What a deliver does that meets no check and finds a deliverable frame in this slot, counted from 0:
    /// takes the frame out of the queue, writes its body into `body` and trim's extra frames into `out`, takes in its entries,
    /// and counts one more frame of its sender.
    pub fn take(
        &mut self,
        queue: &mut [u8],
        slot: usize,
        out: &mut [u8],
        body: &mut [u8],
    ) -> Delivered
        requires { FindsAt self.old queue.old (length out.old) (length body.old) slot }
        ensures sender { result.from < 12 }
        ensures taken { Finds self.old queue.old (length out.old) (length body.old) slot
            → after_deliver (record { answer = frame (delivered_told result); node = self.new }) queue.new out.new body.new
            ≡ deliver_call self.old queue.old out.old body.old }
    {
        let a = wire::MAX_FRAME * slot;
        let z = holdback::frame_end(queue, slot);
        let d = self.take_in(&queue[a..z], slot + 1, out, body);
        holdback::remove(queue, self.held as usize, slot);
        self.deliv[d.from as usize] += 1;
        self.held -= 1;
        d
    }

    // A deliver on a lent record.
    fn deliver_in_place(
        &mut self,
        queue: &mut [u8],
        out: &mut [u8],
        body: &mut [u8],
    ) -> Result<Found, Refusal>
        ensures { after_deliver (record { answer = deliver_told result; node = self.new }) queue.new out.new body.new
            ≡ deliver_call self.old queue.old out.old body.old }
    {
        let short = Node::short_outputs(out.len(), body.len());
        self.check_deliver(queue, short)?;
        let held = self.held as usize;
        match holdback::search(queue, held, self.me, &self.deliv) {
            None => Ok(Found::Nothing(held)),
            Some(slot) => Ok(Found::Frame(self.take(queue, slot, out, body))),
        }
    }

    /// Delivers the first held frame that is deliverable:
    /// takes it out of the queue, writes its body into `body` and trim's extra frames into `out`, and gives the new record.
    pub fn deliver(mut self, queue: &mut [u8], out: &mut [u8], body: &mut [u8]) -> Delivery
        ensures { after_deliver (told_deliver result) queue.new out.new body.new
            ≡ deliver_call self queue.old out.old body.old }
    {
        let answer = self.deliver_in_place(queue, out, body);
        Delivery { answer, node: self }
    }
}
