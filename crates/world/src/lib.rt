//! The world of a simulation: the records of up to four nodes by value, their hold-back queues (document 01: shelves)
//! and the issued frames in lent slices, and the steps on them. Nothing here prints.
#![tactic(auto)]

ghost use Rattle.std.specs.Prelude.{◌≡◌, ◌+◌, ◌-◌, ◌≤◌, ◌<◌, ◌^◌, ◌||◌, leb, ltb, length};
ghost use Rattle.wire.specs.Bytes.{put};

pub mod deliver;
pub mod log;
pub mod offer;
pub mod send;
pub mod start;

use node::Node;

/// Nodes of a simulation at most.
pub const MAX_SIMULATED: usize = 4;

/// The records of the first n nodes, how many frames are issued, and where the last of them ends in the log.
#[derive(Clone, Copy)]
pub struct World {
    // Kept: a rule of the project, no heap: an array for the most nodes there may be, and how many of them there are.
    pub n: usize,
    pub nodes: [Node; MAX_SIMULATED],
    pub issued: usize,
    pub end: usize,
}

/// What a step that is not refused led to: a send and its extra frames; an offer, how many frames are held now and whether this one was deliverable at that
/// moment; that none of the tried held frames is deliverable; or a delivery, its issue counted from 1, how many held frames were tried, and its extra frames.
#[derive(Clone, Copy)]
pub enum Outcome {
    Sent(usize),
    Held {
        count: usize,
        ready: bool,
    },
    Nothing(usize),
    Delivered {
        issue: usize,
        tried: usize,
        extras: usize,
    },
}

impl World {
    // Whether `at` is no node, or fewer than n of the limit's issues are left.
    fn stops(&self, limit: usize, at: usize) -> bool
        ensures { result ≡ (leb self.now.n at || ltb (limit - self.now.issued) self.now.n) }
    {
        self.n <= at || limit.saturating_sub(self.issued) < self.n
    }

    // Writes the bytes of `count` frames behind the log's last.
    fn append(&mut self, count: usize, log: &mut [u8], bytes: &[u8])
        requires counted { self.old.issued + count < 2 ^ 32 }
        requires room { self.old.end + length bytes.now ≤ length log.old }
        ensures counts { self.new ≡ (let w = self.old in record w { issued = w.issued + count; end = w.end + length bytes.now }) }
        ensures written { log.new ≡ put log.old self.old.end bytes.now }
    {
        wire::copy(log, self.end, bytes);
        self.issued += count;
        self.end += bytes.len();
    }
}
