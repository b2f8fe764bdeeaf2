//! The node's and the trail's calls as they are exported to C: each is the call of the same name of the library `host`, with its clauses.
//! Lent slices have any length; each is passed as a pointer and then its length.
#![tactic(auto)]

ghost use Rattle.std.specs.Prelude.{◌≡◌};
ghost use Rattle.host.specs.Exports.{set_up_left, exported_set_up, send_left, exported_send, offer_left, exported_offer, deliver_left, exported_deliver};
ghost use Rattle.host.specs.TrailExports.{write_left, exported_write, step_left, exported_step, walk_left, exported_walk};

/// Set-up: the image becomes that of the fresh record.
// Kept: C has no Result, no enum of this kind and no type parameter; the call and its number are the C interface.
#[unsafe(no_mangle)]
pub extern "C" fn node_set_up(image: &mut [u8], me: usize, n: usize, cap: usize) -> u8
    ensures { set_up_left result image.new ≡ exported_set_up image.old me n cap }
{
    host::node_set_up(image, me, n, cap)
}

/// Send, as a node of this class: writes the user frame and then trim's extra frames into `out`; the answer has the extra frames and the bytes issued.
// Kept: C has no Result, no enum of this kind and no type parameter; the call and its number are the C interface.
#[unsafe(no_mangle)]
pub extern "C" fn node_send(
    image: &mut [u8],
    to: usize,
    class: usize,
    body: &[u8],
    out: &mut [u8],
    answer: &mut [u8],
) -> u8
    ensures { send_left result image.new out.new answer.new
        ≡ exported_send image.old to class body.now out.old answer.old }
{
    host::node_send(image, to, class, body, out, answer)
}

/// Offer: the frame is checked and held; the answer is all zero.
// Kept: C has no Result, no enum of this kind and no type parameter; the call and its number are the C interface.
#[unsafe(no_mangle)]
pub extern "C" fn node_offer(
    image: &mut [u8],
    frame: &[u8],
    queue: &mut [u8],
    answer: &mut [u8],
) -> u8
    ensures { offer_left result image.new queue.new answer.new
        ≡ exported_offer image.old frame.now queue.old answer.old }
{
    host::node_offer(image, frame, queue, answer)
}

/// Deliver: the first deliverable frame is taken out of the queue, its body written into `body` and trim's extra frames into `out`;
/// the answer says which it was. Where none is deliverable the answer says how many were tried, and nothing else changes.
// Kept: C has no Result, no enum of this kind and no type parameter; the call and its number are the C interface.
#[unsafe(no_mangle)]
pub extern "C" fn node_deliver(
    image: &mut [u8],
    queue: &mut [u8],
    out: &mut [u8],
    body: &mut [u8],
    answer: &mut [u8],
) -> u8
    ensures { deliver_left result image.new queue.new out.new body.new answer.new
        ≡ exported_deliver image.old queue.old out.old body.old answer.old }
{
    host::node_deliver(image, queue, out, body, answer)
}

/// Write: the number in use becomes what it is behind the frame.
// Kept: C has no Result, no enum of this kind and no type parameter; the call and its number are the C interface.
#[unsafe(no_mangle)]
pub extern "C" fn trail_write(file: &mut [u8], used: &mut usize, frame: &[u8]) -> u8
    ensures { write_left result file.new used.new
        ≡ exported_write file.old used.old frame.now }
{
    host::trail_write(file, used, frame)
}

/// A step: the cursor's numbers are end, w, kinds, extras and most; shown are start and length, both 0 where the walk has reached the file's start.
// Kept: C has no Result, no enum of this kind and no type parameter; the call and its number are the C interface.
#[unsafe(no_mangle)]
pub extern "C" fn trail_step(file: &[u8], cursor: &mut [u64; 5], shown: &mut [u64; 2]) -> u8
    ensures { step_left result cursor.new shown.new
        ≡ exported_step file.now cursor.old shown.old }
{
    host::trail_step(file, cursor, shown)
}

/// The whole walk with a window of w frames: the largest count of extra frames in a window.
// Kept: C has no Result, no enum of this kind and no type parameter; the call and its number are the C interface.
#[unsafe(no_mangle)]
pub extern "C" fn trail_walk(file: &[u8], w: usize, most: &mut usize) -> u8
    ensures { walk_left result most.new ≡ exported_walk file.now w most.old }
{
    host::trail_walk(file, w, most)
}
