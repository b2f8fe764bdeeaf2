//! The state of a script: records and queues, the log of issued frames, and the frame at hand.
ghost use Rattle.std.specs.Prelude.{◌≡◌, ◌<◌, length};

use super::frames::{Frame, copy_padded};
use node::Node;

/// Places: as many as there may be nodes.
const PLACES: usize = Node::MAX_NODES;

/// Bytes of a place's queue: a few more than the node's, so that a call can be lent too many.
pub const QUEUE: usize = Node::QUEUE_SIZE + 8;

/// Frames that the log keeps; another one takes the place of the first.
const LOG: usize = 128;

/// A change to a place's record or queue.
#[derive(Clone, Copy)]
pub enum Edit {
    /// All of a record but its counts.
    Sizes {
        me: u8,
        n: u8,
        cap: u8,
        held: u8,
    },
    Matrix {
        row: usize,
        column: usize,
        count: u32,
    },
    Vector {
        from: usize,
        count: u32,
    },
    /// The counts of a column from a row to a row, but not the one on the diagonal.
    Column {
        column: usize,
        first: usize,
        last: usize,
        count: u32,
    },
    QueueByte {
        at: usize,
        byte: u8,
    },
}

// Where a count stands in a matrix.
fn entry(row: usize, column: usize) -> usize
    ensures { result < 144 }
{
    Node::MAX_NODES * (row % Node::MAX_NODES) + column % Node::MAX_NODES
}

/// A record and its queue.
#[derive(Clone, Copy, PartialEq, Eq)]
pub struct Place {
    pub node: Node,
    pub queue: [u8; QUEUE],
}

impl Place {
    /// All zero.
    pub fn new() -> Place {
        Place {
            node: Node {
                me: 0,
                n: 0,
                cap: 0,
                m: [0; 144],
                deliv: [0; 12],
                held: 0,
            },
            queue: [0; QUEUE],
        }
    }

    /// Changes one thing about it. Rows, columns and senders are counted modulo the nodes; a byte past the queue's end is its last.
    pub fn edit(&mut self, edit: Edit) {
        match edit {
            Edit::Sizes { me, n, cap, held } => {
                self.node.me = me;
                self.node.n = n;
                self.node.cap = cap;
                self.node.held = held;
            }
            Edit::Matrix { row, column, count } => self.node.m[entry(row, column)] = count,
            Edit::Vector { from, count } => self.node.deliv[from % Node::MAX_NODES] = count,
            Edit::Column {
                column,
                first,
                last,
                count,
            } => self.set_column(column, first, last, count),
            Edit::QueueByte { at, byte } => self.queue[at.min(QUEUE - 1)] = byte,
        }
    }

    // Writes the counts of a column from a row to a row, but not the one on the diagonal.
    fn set_column(&mut self, column: usize, first: usize, last: usize, count: u32) {
        for row in first..=last.min(Node::MAX_NODES - 1) {
            if row != column {
                self.node.m[entry(row, column)] = count;
            }
        }
    }

    // Puts a frame into a slot, with zeros behind it.
    fn put_frame(&mut self, slot: usize, frame: &[u8]) {
        let start = Node::MAX_FRAME * slot.min(Node::MAX_HELD - 1);
        let end = start + Node::MAX_FRAME;
        copy_padded(&mut self.queue[start..end], frame);
    }
}

/// What the commands work on. It has no heap, so that making it cannot fail.
#[derive(Clone, Copy)]
pub struct State {
    places: [Place; PLACES],
    log: [[u8; Node::MAX_FRAME]; LOG],
    logged: usize,
    pub frame: Frame,
    // The types say both lengths too; a proof may cite these of any State.
    ghost whole_places: { length places ≡ 12 },
    ghost whole_log: { length log ≡ 128 },
}

impl State {
    /// All zero and empty.
    pub fn new() -> State {
        State {
            places: [Place::new(); PLACES],
            log: [[0; Node::MAX_FRAME]; LOG],
            logged: 0,
            frame: Frame::new(),
        }
    }

    /// Makes it all zero and empty again.
    pub fn reset(&mut self) {
        self.places.fill(Place::new());
        self.log.fill([0; Node::MAX_FRAME]);
        self.logged = 0;
        self.frame = Frame::new();
    }

    /// Place k.
    pub fn place(&self, k: usize) -> &Place {
        &self.places[k % PLACES]
    }

    /// Place k, to be written.
    pub fn place_mut(&mut self, k: usize) -> &mut Place {
        &mut self.places[k % PLACES]
    }

    /// Puts an issued frame into the next place of the log, and gives its number there, from 1.
    pub fn log(&mut self, frame: &[u8]) -> usize {
        let at = self.logged % LOG;
        // By a name of its own, since the struct has ghost fields.
        let log = &mut self.log;
        copy_padded(&mut log[at], frame);
        self.logged = at + 1;
        self.logged
    }

    /// Puts the frame at hand into a slot of place k's queue.
    pub fn put_frame(&mut self, k: usize, slot: usize) {
        let frame = self.frame;
        self.place_mut(k).put_frame(slot, frame.bytes());
    }

    /// The frame with this number in the log becomes the frame at hand; there is none with number 0.
    pub fn take_frame(&mut self, issue: usize) {
        if let Some(at) = issue.checked_sub(1) {
            self.frame = Frame::from_place(&self.log[at.min(LOG - 1)]);
        }
    }
}
