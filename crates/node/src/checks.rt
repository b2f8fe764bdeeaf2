//! The checks that offer and deliver share.
ghost use Rattle.std.specs.Prelude.{◌≡◌};
ghost use Rattle.refusal.specs.Numbers.{met};
ghost use Rattle.node.specs.CallRefusals.{record_refusal};

use super::Node;
use refusal::Refusal;

impl Node {
    /// The checks of record and queue, 2 to 4. Another lent buffer being too short counts as 3.
    #[tactic(auto, using(std::proofs::lemmas::Grind::common_steps, crate::proofs::Ranges::record_small), unfolding(crate::specs::CallRefusals::record_refusal, crate::specs::Record::broken_record))]
    pub(crate) fn check_record(&self, queue: &[u8], short: bool) -> Result<(), Refusal>
        ensures { met result ≡ record_refusal self.now queue.now short 0 }
    {
        let Node {
            me,
            n,
            cap,
            held,
            ..
        } = *self;
        if rules::broken(me, n, cap, &self.m, &self.deliv, held) {
            return Err(Refusal::BrokenRecord);
        }
        if short || queue.len() != Node::QUEUE_SIZE {
            return Err(Refusal::TooShort);
        }
        if holdback::wrong_queue(queue, held as usize, me, n, &self.m, &self.deliv) {
            return Err(Refusal::WrongQueue);
        }
        Ok(())
    }
}
