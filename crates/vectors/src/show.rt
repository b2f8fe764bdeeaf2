//! Queues printed.
use node::Node;
use script::frames::Layout;
use script::printed::FrameText;
use std::io;
use std::io::Write;

// Whether the bytes are all zero.
fn all_zero(bytes: &[u8]) -> bool {
    bytes.iter().all(|byte| *byte == 0)
}

// Prints slot p: its frame, and whether zeros follow to its end.
fn slot<W: Write>(w: &mut W, p: usize, bytes: &[u8]) -> io::Result<()> {
    let length = Layout::of(bytes).length().min(bytes.len());
    let behind = if all_zero(&bytes[length..]) {
        ""
    } else {
        ", not zero behind it"
    };
    let frame = FrameText::new(bytes, length);
    writeln!(w, "  slot {p}{behind}:{frame}")
}

/// Prints the slots of a queue that are not all zero.
pub fn queue<W: Write>(w: &mut W, queue: &[u8]) -> io::Result<()> {
    for (p, bytes) in queue.chunks_exact(Node::MAX_FRAME).enumerate() {
        if !all_zero(bytes) {
            slot(w, p, bytes)?;
        }
    }
    Ok(())
}
