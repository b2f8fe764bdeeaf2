//! The counters of a run (document 01: the tally), which each step is lent and updates in place.
#![tactic(auto)]

ghost use Rattle.std.specs.Prelude.{◌≡◌};
ghost use Rattle.counters.specs.Counted.{share, no_counters, with_extras, counted_send, counted_offer, counted_delivery, counted_nothing, totals};

/// User frames, extra frames, frames delivered (of either kind), delays (frames accepted without being deliverable), and extras per hundred user frames.
/// A count stays at the largest number of 32 bits once it is there, so that none needs room.
#[derive(Clone, Copy, Debug, PartialEq, Eq)]
pub struct Counters {
    pub user: u32,
    pub extras: u32,
    pub delivered: u32,
    pub delays: u32,
    pub share: u32,
}

impl Default for Counters {
    ghost is_default = { λ t. t ≡ no_counters };

    // The counters before the first step.
    #[tactic(auto, unfolding(crate::specs::Counted::no_counters))]
    fn default() -> Counters {
        Counters {
            user: 0,
            extras: 0,
            delivered: 0,
            delays: 0,
            share: 0,
        }
    }
}

/// Extra frames per hundred user frames, rounded to the nearest whole number, an exact half to its even neighbour; 0 without user frames.
#[tactic(auto, using(crate::proofs::ShareMeans::roundings), unfolding(crate::specs::Counted::up_to32))]
pub fn share(extras: u32, user: u32) -> u32
    ensures { result ≡ share extras user }
{
    if user == 0 {
        return 0;
    }
    let user = u64::from(user);
    let hundredfold = u64::from(extras) * 100;
    let below = hundredfold / user;
    let rest = hundredfold % user;
    // past the half, or at it where the number below is odd
    let nearest = if 2 * rest + below % 2 > user {
        below + 1
    } else {
        below
    };
    u32::try_from(nearest).unwrap_or(u32::MAX)
}

impl Counters {
    /// The T numbers, in the order in which they are printed.
    pub fn totals(self) -> [u32; 5]
        ensures { result ≡ totals self }
    {
        [
            self.user,
            self.extras,
            self.delivered,
            self.delays,
            self.share,
        ]
    }

    // With x extra frames more, and the share anew.
    #[tactic(auto, unfolding(crate::specs::Counted::with_extras, crate::specs::Counted::up_to32))]
    fn with_extras(self, x: u32) -> Counters
        ensures { result ≡ with_extras self x }
    {
        let extras = self.extras.saturating_add(x);
        Counters {
            extras,
            share: share(extras, self.user),
            ..self
        }
    }

    // Kept: `with_send` and `with_delivery` are twins, since document 01 wants one function for each step.
    // With one user frame more, and its x extra frames.
    #[tactic(auto, unfolding(crate::specs::Counted::counted_send, crate::specs::Counted::up_to32))]
    fn with_send(self, x: u32) -> Counters
        ensures { result ≡ counted_send self x }
    {
        let sent = Counters {
            user: self.user.saturating_add(1),
            ..self
        };
        sent.with_extras(x)
    }

    // With x delays more: 1 for an accepted frame that was not deliverable, 0 for one that was.
    #[tactic(auto, unfolding(crate::specs::Counted::counted_offer, crate::specs::Counted::up_to32))]
    fn with_offer(self, x: u32) -> Counters
        ensures { result ≡ counted_offer self x }
    {
        Counters {
            delays: self.delays.saturating_add(x),
            ..self
        }
    }

    // Kept: the twin of `with_send`; why, stands there.
    // With one frame more delivered, and its x extra frames.
    #[tactic(auto, unfolding(crate::specs::Counted::counted_delivery, crate::specs::Counted::up_to32))]
    fn with_delivery(self, x: u32) -> Counters
        ensures { result ≡ counted_delivery self x }
    {
        let delivered = Counters {
            delivered: self.delivered.saturating_add(1),
            ..self
        };
        delivered.with_extras(x)
    }

    // A deliver that answers none counts nothing: x, the held frames that were tried, is not used.
    #[tactic(auto, unfolding(crate::specs::Counted::counted_nothing))]
    fn with_nothing(self, x: u32) -> Counters
        ensures { result ≡ counted_nothing self x }
    {
        self
    }

    /// Counts a send that issued x extra frames.
    pub fn count_send(&mut self, x: u32)
        ensures { self.new ≡ counted_send self.old x }
    {
        *self = self.with_send(x);
    }

    /// Counts an offer that was accepted; x is 1 where the frame was not deliverable, 0 where it was.
    pub fn count_offer(&mut self, x: u32)
        ensures { self.new ≡ counted_offer self.old x }
    {
        *self = self.with_offer(x);
    }

    /// Counts a delivery that issued x extra frames.
    pub fn count_delivery(&mut self, x: u32)
        ensures { self.new ≡ counted_delivery self.old x }
    {
        *self = self.with_delivery(x);
    }

    /// Counts a deliver that answered none after x held frames were tried.
    pub fn count_nothing(&mut self, x: u32)
        ensures { self.new ≡ counted_nothing self.old x }
    {
        *self = self.with_nothing(x);
    }
}
