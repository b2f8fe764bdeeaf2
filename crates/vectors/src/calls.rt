//! The node's four calls, made on the script's records and queues, and their answers printed.
use frame::header::Kind;
use node::{Delivered, Found, Held, Issue, Node};
use refusal::Refusal;
use script::command::{Deliver, Offer, Send, SetUp};
use script::frames;
use script::frames::Layout;
use script::printed::{FrameText, Hex};
use script::state::{QUEUE, State};
use std::io;
use std::io::Write;

/// Bytes of the frame output and of the body output, of which a call is lent some or all.
const OUT: usize = 4096;

const BODY: usize = 128;

/// Outputs are lent full of this byte, so that what a call leaves as it was can be told.
const UNTOUCHED: u8 = 165;

// Whether a call left these bytes of an output as they were.
fn untouched(bytes: &[u8]) -> bool {
    bytes.iter().all(|byte| *byte == UNTOUCHED)
}

/// Set-up into a record.
pub fn set_up<W: Write>(w: &mut W, state: &mut State, set_up: SetUp) -> io::Result<()> {
    let made = Node::set_up(set_up.me, set_up.n, set_up.cap);
    state.place_mut(set_up.place).node = made.node;
    match made.answer {
        Err(why) => writeln!(w, "  refused {}", why.number()),
        Ok(()) => writeln!(w, "  ready"),
    }
}

/// A send from a record; issued frames go into the log.
pub fn send<W: Write>(w: &mut W, state: &mut State, send: Send) -> io::Result<()> {
    let place = state.place_mut(send.place);
    let before = *place;
    let pattern = frames::pattern(send.topic);
    let body = &pattern[..send.body.min(pattern.len())];
    let mut out = [UNTOUCHED; OUT];
    let lent = &mut out[..send.out.min(OUT)];
    let sent = before.node.send(send.to, send.class, body, lent);
    place.node = sent.node;
    match sent.answer {
        Err(why) => refused(w, why, *place == before && untouched(&out)),
        Ok(Issue { bytes, extras }) => {
            let (issued, behind) = out.split_at(bytes.min(OUT));
            write!(w, "  sent: bytes {bytes}, extras {extras}")?;
            end(w, untouched(behind))?;
            log_frames(w, state, issued)
        }
    }
}

/// An offer of the frame at hand at a record.
pub fn offer<W: Write>(w: &mut W, state: &mut State, offer: Offer) -> io::Result<()> {
    let frame = state.frame;
    let place = state.place_mut(offer.place);
    let before = *place;
    let queue = &mut place.queue[..offer.queue.min(QUEUE)];
    let offered = before.node.offer(frame.bytes(), queue);
    place.node = offered.node;
    match offered.answer {
        Err(why) => refused(w, why, *place == before),
        Ok(Held { count, ready }) => {
            let now = if ready { "deliverable" } else { "waits" };
            writeln!(w, "  held: {count}, {now}")
        }
    }
}

/// A deliver at a record; issued frames go into the log.
pub fn deliver<W: Write>(w: &mut W, state: &mut State, deliver: Deliver) -> io::Result<()> {
    let place = state.place_mut(deliver.place);
    let before = *place;
    let mut out = [UNTOUCHED; OUT];
    let mut body = [UNTOUCHED; BODY];
    let delivery = before.node.deliver(
        &mut place.queue[..deliver.queue.min(QUEUE)],
        &mut out[..deliver.out.min(OUT)],
        &mut body[..deliver.body.min(BODY)],
    );
    place.node = delivery.node;
    let kept = *place == before && untouched(&out) && untouched(&body);
    match delivery.answer {
        Err(why) => refused(w, why, kept),
        Ok(Found::Nothing(tried)) => {
            write!(w, "  none: tried {tried}")?;
            end(w, kept)
        }
        Ok(Found::Frame(frame)) => {
            let (issued, behind) = out.split_at(frame.bytes.min(OUT));
            let (shown, after) = body.split_at(frame.body.min(BODY));
            delivered(w, frame, untouched(behind) && untouched(after))?;
            if !shown.is_empty() {
                writeln!(w, "  body: {}", Hex(shown))?;
            }
            log_frames(w, state, issued)
        }
    }
}

// Prints a refusal, and whether record and lent buffers are as they were.
fn refused<W: Write>(w: &mut W, why: Refusal, kept: bool) -> io::Result<()> {
    let buffers = if kept { "all kept" } else { "CHANGED" };
    writeln!(w, "  refused {}, {buffers}", why.number())
}

// Ends a line, and tells where a call wrote more than its answer counts.
fn end<W: Write>(w: &mut W, within: bool) -> io::Result<()> {
    writeln!(w, "{}", if within { "" } else { ", MORE WRITTEN" })
}

// Prints a delivery.
fn delivered<W: Write>(w: &mut W, frame: Delivered, within: bool) -> io::Result<()> {
    let Delivered {
        kind,
        from,
        number,
        tried,
        body,
        bytes,
        extras,
    } = frame;
    let kind = match kind {
        Kind::User => "user",
        Kind::Extra => "extra",
    };
    write!(
        w,
        "  delivered: {kind} from {from}, number {number}, tried {tried}"
    )?;
    write!(w, ", body {body}, bytes {bytes}, extras {extras}")?;
    end(w, within)
}

// Takes the frames that a call issued apart, by their own lengths; puts each into the log, and prints it with its number there.
fn log_frames<W: Write>(w: &mut W, state: &mut State, issued: &[u8]) -> io::Result<()> {
    let mut rest = issued;
    while !rest.is_empty() {
        let length = Layout::of(rest).length().min(rest.len());
        let (frame, behind) = rest.split_at(length);
        let issue = state.log(frame);
        writeln!(w, "  {issue}:{}", FrameText::new(frame, length))?;
        rest = behind;
    }
    Ok(())
}
