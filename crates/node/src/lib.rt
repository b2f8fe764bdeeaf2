//! The causal node: its record, set-up, send, offer and deliver. The record goes into each call by value and comes back with its answer;
//! a call's checks and what it does behind them are methods of a lent record, for callers that keep the record in another form.
#![tactic(auto)]

mod checks;
mod deliver;
mod offer;
mod send;
mod set_up;

use frame::header::Kind;
use refusal::Refusal;

/// The node's record: me, n and cap; the matrix, row by row; the vector of deliveries; and the number of held frames.
#[derive(Clone, Copy, PartialEq, Eq)]
pub struct Node {
    pub me: u8,
    pub n: u8,
    pub cap: u8,
    pub m: [u32; 144],
    pub deliv: [u32; 12],
    pub held: u8,
}

impl Node {
    /// Nodes of a list at most.
    pub const MAX_NODES: usize = wire::MAX_NODES;

    /// Frames held at a node at most.
    pub const MAX_HELD: usize = wire::MAX_HELD;

    /// Bytes of a body at most.
    pub const MAX_BODY: usize = wire::MAX_BODY;

    /// Bytes of a frame at most.
    pub const MAX_FRAME: usize = wire::MAX_FRAME;

    /// The largest count.
    pub const MAX_COUNT: u32 = wire::MAX_COUNT;

    /// Bytes of the hold-back queue.
    pub const QUEUE_SIZE: usize = holdback::QUEUE_SIZE;

    /// Bytes of the frame output at least.
    pub const OUT_SIZE: usize = 2048;
}

/// Set-up's answer and the record: a fresh one, or on a refusal the all-zero one.
#[derive(Clone, Copy)]
pub struct SetUp {
    pub answer: Result<(), Refusal>,
    pub node: Node,
}

/// What a send issued: how many bytes, and how many extra frames.
#[derive(Clone, Copy)]
pub struct Issue {
    pub bytes: usize,
    pub extras: usize,
}

/// Send's answer and the record.
#[derive(Clone, Copy)]
pub struct Sent {
    pub answer: Result<Issue, Refusal>,
    pub node: Node,
}

/// What an offer came to: how many frames are held now, and whether this one was deliverable at that moment.
#[derive(Clone, Copy)]
pub struct Held {
    pub count: usize,
    pub ready: bool,
}

/// Offer's answer and the record.
#[derive(Clone, Copy)]
pub struct Offered {
    pub answer: Result<Held, Refusal>,
    pub node: Node,
}

/// A delivery: the frame's kind, from and number;
/// how many held frames were tried (document 01: looked); the body's bytes; and the bytes and extra frames issued.
#[derive(Clone, Copy)]
pub struct Delivered {
    pub kind: Kind,
    pub from: u8,
    pub number: u32,
    pub tried: usize,
    pub body: usize,
    pub bytes: usize,
    pub extras: usize,
}

/// What a deliver found: that none of the tried held frames is deliverable, or the one that it delivered.
#[derive(Clone, Copy)]
pub enum Found {
    Nothing(usize),
    Frame(Delivered),
}

/// Deliver's answer and the record.
#[derive(Clone, Copy)]
pub struct Delivery {
    pub answer: Result<Found, Refusal>,
    pub node: Node,
}
