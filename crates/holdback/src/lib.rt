//! The hold-back queue (document 01: the shelf): sixteen slots of 802 bytes in a lent slice.
// Kept: the queue's bytes are lent and how many frames it holds stands in the record, by document 01; so each function is handed both.
#![tactic(auto)]

ghost use Rattle.std.specs.Prelude.{◌≡◌, List, [], ◌∷◌, ◌++◌, ℕ, ◌+◌, ◌*◌, ◌≤◌, ◌<◌, is_err, length, take, drop};
ghost use Rattle.wire.specs.Bytes.{put};
ghost use Rattle.wire.specs.Limits.{max_frame, max_held, max_nodes};
ghost use Rattle.matrix.specs.Message.{Message, number};
ghost use Rattle.frame.specs.Frame.{decode};
ghost use Rattle.frame.specs.Header.{header, own_length};
ghost use Rattle.protocol.specs.Offer.{deliverable, same_origin, some_same_origin};
ghost use Rattle.protocol.specs.Deliver.{search};
ghost use Rattle.arrival.specs.View.{node_with};
ghost use Rattle.arrival.specs.CheckedFrame.{CheckedFrame};
ghost use Rattle.holdback.specs.Slots.{queue_size, zeros, laid, held_frames, held_messages, without};
ghost use Rattle.holdback.specs.Places.{slot_at, frame_at, place_of, place_number};
ghost use Rattle.holdback.specs.WrongQueue.{held_refused, wrong_queue};
ghost use Rattle.holdback.specs.CheckedQueue.{CheckedQueue};
ghost use Rattle.holdback.specs.Steps.{all_zero, slot_key, some_equal};

use refusal::Refusal;

/// Bytes of the queue.
pub const QUEUE_SIZE: usize = wire::MAX_HELD * wire::MAX_FRAME;

/// Lays a frame into the first slot behind the held ones.
pub fn hold(q: &mut [u8], held: usize, s: &[u8])
    requires { (length q.old ≡ queue_size) × (held < max_held) × (length s.now ≤ max_frame) × (q.old ≡ laid (held_frames held q.old)) }
    ensures { q.new ≡ laid (held_frames held q.old ++ (s.now ∷ [])) }
{
    wire::copy(q, wire::MAX_FRAME * held, s);
}

/// Takes the frame in slot k out: the later ones move down, and the last slot that was filled becomes zero.
pub fn remove(q: &mut [u8], held: usize, k: usize)
    requires { (length q.old ≡ queue_size) × (held ≤ max_held) × (k < held) × (q.old ≡ laid (held_frames held q.old)) }
    ensures { q.new ≡ laid (without k (held_frames held q.old)) }
{
    let at = wire::MAX_FRAME * k;
    let next = at + wire::MAX_FRAME;
    let end = wire::MAX_FRAME * held;
    q.copy_within(next..end, at);
    q[end - wire::MAX_FRAME..end].fill(0);
}

/// The end of the frame in slot i, by its own e and b.
pub fn frame_end(q: &[u8], i: usize) -> usize
    requires { max_frame * i + max_frame ≤ length q.now }
    ensures { result ≡ max_frame * i + own_length (header (slot_at q.now i)) }
{
    let start = wire::MAX_FRAME * i;
    let stop = start + wire::MAX_FRAME;
    start + frame::header::own_length(frame::header::read(&q[start..stop]))
}

// The frame held in slot i.
fn held_frame(q: &[u8], held: usize, i: usize) -> &[u8]
    requires { CheckedQueue held q.now × (i < held) }
    ensures same { result.now ≡ frame_at q.now i }
    ensures sound { CheckedFrame result.now }
{
    let start = wire::MAX_FRAME * i;
    let end = frame_end(q, i);
    &q[start..end]
}

/// The slot, counted from 0, of the first held frame that is deliverable at node me.
pub fn search(q: &[u8], held: usize, me: u8, deliv: &[u32; 12]) -> Option<usize>
    requires { CheckedQueue held q.now }
    ensures { (n cap : ℕ) (m : List ℕ) (l : List Message)
        → place_number result ≡ place_of (search (deliverable (node_with me n cap m deliv.now l)) (held_messages held q.now)) }
{
    'slots: for at in 0..held {
        let s = held_frame(q, held, at);
        let e = frame::header::read(s).e as usize;
        for k in 0..e {
            if !arrival::entry_ready(frame::entries::read(s, k), me, deliv) {
                continue 'slots;
            }
        }
        return Some(at);
    }
    None
}

// Whether a sound frame has this from and number.
fn same_origin(s: &[u8], from: u8, k: u32) -> bool
    requires { CheckedFrame s.now }
    ensures { (g : Message) → from ≡ g.from → k ≡ number g → result ≡ same_origin (decode s.now) g }
{
    frame::header::read(s).from == from && arrival::number(s) == k
}

/// Whether a held frame has the same from and number as the sound frame s.
pub fn alike(q: &[u8], held: usize, s: &[u8]) -> bool
    requires { CheckedQueue held q.now × CheckedFrame s.now }
    ensures { result ≡ some_same_origin (held_messages held q.now) (decode s.now) }
{
    let h = frame::header::read(s);
    let number = arrival::number(s);
    for i in 0..held {
        if same_origin(held_frame(q, held, i), h.from, number) {
            return true;
        }
    }
    false
}

// Whether each byte is zero: both halves are or-ed at once, with no early exit; the middle byte of an odd number is in both.
fn all_zero(s: &[u8]) -> bool
    ensures { result ≡ all_zero s.now }
{
    let low = s.len() / 2;
    let high = s.len() - low;
    let mut acc: u8 = 0;
    for at in 0..high {
        acc = acc | s[at] | s[low + at];
    }
    acc == 0
}

// Whether the frame in a slot would meet none of 8 to 14, and where it would, the first of them.
fn judged(s: &[u8], me: u8, n: u8, m: &[u32; 144], deliv: &[u32; 12]) -> Result<(), Refusal>
    requires { n ≤ max_nodes }
    ensures { (cap : ℕ) → is_err result ≡ held_refused (node_with me n cap m.now deliv.now []) s.now }
{
    frame::check::check(s, n)?;
    arrival::check(s, me, m, deliv)
}

// The key of the frame in a slot, 16 * number + from, and none where the slot is wrong, whatever the node's cap.
fn slot_key(slot: &[u8], me: u8, n: u8, m: &[u32; 144], deliv: &[u32; 12]) -> Option<u64>
    requires { (length slot.now ≡ max_frame) × (n ≤ max_nodes) }
    ensures { (cap : ℕ) → result ≡ slot_key (node_with me n cap m.now deliv.now []) slot.now }
{
    let h = frame::header::read(slot);
    let len = frame::header::own_length(h);
    if wire::MAX_FRAME < len {
        return None;
    }
    let (s, padding) = slot.split_at(len);
    judged(s, me, n, m, deliv).ok()?;
    if !all_zero(padding) {
        return None;
    }
    Some(16 * u64::from(arrival::number(s)) + u64::from(h.from))
}

// Whether two of the keys are equal.
fn some_equal(keys: &[u64]) -> bool
    ensures { result ≡ some_equal keys.now }
{
    for i in 0..keys.len() {
        if keys[i + 1..].contains(&keys[i]) {
            return true;
        }
    }
    false
}

/// Check 4: the queue is not laid out as it should be, a held frame would meet one of 8 to 14, or two held frames agree in from and number; the node's cap has no part in it.
pub fn wrong_queue(q: &[u8], held: usize, me: u8, n: u8, m: &[u32; 144], deliv: &[u32; 12]) -> bool
    requires { (length q.now ≡ queue_size) × (held ≤ max_held) × (n ≤ max_nodes) }
    ensures { (cap : ℕ) → result ≡ wrong_queue (node_with me n cap m.now deliv.now []) held q.now }
{
    let mut keys = [0u64; wire::MAX_HELD];
    for i in 0..held {
        let start = wire::MAX_FRAME * i;
        let stop = start + wire::MAX_FRAME;
        let Some(key) = slot_key(&q[start..stop], me, n, m, deliv) else {
            return true;
        };
        keys[i] = key;
    }
    let rest = wire::MAX_FRAME * held;
    if !all_zero(&q[rest..]) {
        return true;
    }
    some_equal(&keys[..held])
}
