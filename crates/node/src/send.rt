//! Send: its checks and what it does on a lent record, and the call.
ghost use Rattle.std.specs.Prelude.{◌≡◌, [], length};
ghost use Rattle.refusal.specs.Numbers.{met};
ghost use Rattle.protocol.specs.Send.{sending};
ghost use Rattle.node.specs.Answers.{after_send};
ghost use Rattle.node.specs.SendAnswer.{Sent as sent};
ghost use Rattle.node.specs.Calls.{send_call, accept_send};
ghost use Rattle.node.specs.CallRefusals.{send_refusal, SendPassesAt};
ghost use Rattle.node.specs.Record.{node_of};
ghost use Rattle.node.specs.Told.{send_told, told_send};

use super::{Issue, Node, Sent};
use frame::write::Address;
use refusal::Refusal;

impl Node {
    // Kept: a class is any number, since C hands one; above 3 it is refused with 21.
    /// The checks of a send, for a frame output of this length.
    #[tactic(auto, using(std::proofs::lemmas::Grind::common_steps, crate::proofs::Ranges::record_small), unfolding(crate::specs::CallRefusals::send_refusal, crate::specs::Record::broken_record, rights::specs::Ours::ours))]
    pub fn check_send(
        &self,
        to: usize,
        class: usize,
        body: &[u8],
        out: usize,
    ) -> Result<(), Refusal>
        ensures { met result ≡ send_refusal self.now to class body.now out }
    {
        let Node {
            me,
            n,
            cap,
            held,
            ..
        } = *self;
        if rules::broken(me, n, cap, &self.m, &self.deliv, held) {
            return Err(Refusal::BrokenRecord);
        }
        if out < Node::OUT_SIZE {
            return Err(Refusal::TooShort);
        }
        if rules::at_limit(me as usize, &self.m, &self.deliv) {
            return Err(Refusal::CountedOut);
        }
        if to == me as usize || n as usize <= to {
            return Err(Refusal::Destination);
        }
        if wire::MAX_BODY < body.len() {
            return Err(Refusal::LongBody);
        }
        if rights::lacks_right(&rights::OURS, class, body) {
            return Err(Refusal::NoRight);
        }
        Ok(())
    }

    /// What a send does that meets no check: writes the user frame and then trim's extra frames into `out`, and trims the matrix.
    pub fn issue(&mut self, to: usize, body: &[u8], out: &mut [u8]) -> Issue
        requires { SendPassesAt self.old to body.now (length out.old) }
        ensures { after_send (record { answer = sent result.bytes result.extras; node = self.new }) out.new
            ≡ accept_send self.old out.old (sending (node_of self.old []) to body.now) }
    {
        let Node { me, n, cap, .. } = *self;
        let a = Address {
            from: me,
            to: to as u8,
            n,
            cap,
        };
        let at = frame::write::user(out, 0, a, &self.m, body);
        matrix::clear_column(&mut self.m, me as usize, to);
        let t = trim::trim(&mut self.m, out, at, me, n, cap);
        Issue {
            bytes: t.at,
            extras: t.extras as usize,
        }
    }

    // A send on a lent record.
    fn send_in_place(
        &mut self,
        to: usize,
        class: usize,
        body: &[u8],
        out: &mut [u8],
    ) -> Result<Issue, Refusal>
        ensures { after_send (record { answer = send_told result; node = self.new }) out.new
            ≡ send_call self.old to class body.now out.old }
    {
        self.check_send(to, class, body, out.len())?;
        Ok(self.issue(to, body, out))
    }

    // Kept: a class is any number, as in `check_send`.
    /// Sends a body to node `to`, as a node of this class: writes the user frame and then trim's extra frames into `out`, and gives the new record.
    pub fn send(mut self, to: usize, class: usize, body: &[u8], out: &mut [u8]) -> Sent
        ensures { after_send (told_send result) out.new ≡ send_call self to class body.now out.old }
    {
        let answer = self.send_in_place(to, class, body, out);
        Sent { answer, node: self }
    }
}
