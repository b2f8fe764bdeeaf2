//! The log: issued frames end to end, in issue order, each found by the lengths of those before it.
ghost use Rattle.std.specs.Prelude.{◌≡◌, List, ℕ, ◌+◌, ◌≤◌, length, take, drop};
ghost use Rattle.frame.specs.Header.{header, own_length};
ghost use Rattle.arrival.specs.CheckedFrame.{CheckedFrame};
ghost use Rattle.world.specs.Stored.{Begins, BeginsWith, joined, some_issue};
ghost use Rattle.world.specs.Steps.{named, issue_from};

/// The name of a delivery: the node that it is made at, and the kind, the from and the number of its frame.
#[derive(Clone, Copy)]
pub struct Name {
    pub to: usize,
    // Kept: any byte of a header, as for `frame::header::Header`; none that was issued has another than 1 or 2.
    pub kind: u8,
    pub from: u8,
    pub number: u32,
}

/// The end of the frame that begins at `at`.
pub fn frame_end(log: &[u8], at: usize) -> usize
    requires { at + 8 ≤ length log.now }
    ensures { result ≡ at + own_length (header (drop at log.now)) }
{
    at + frame::header::own_length(frame::header::read(&log[at..]))
}

/// Where the frames behind the first k begin.
pub fn skip(log: &[u8], k: usize) -> usize
    requires { BeginsWith k log.now }
    ensures { (f : List (List ℕ)) → Begins f log.now → k ≤ length f → result ≡ length (joined (take k f)) }
{
    let mut at = 0;
    for _i in 0..k {
        at = frame_end(log, at);
    }
    at
}

// Whether the sound frame s has this name.
#[tactic(auto, using(std::proofs::lemmas::Grind::common_steps), unfolding(crate::specs::Steps::named))]
fn is_named(s: &[u8], name: Name) -> bool
    requires { CheckedFrame s.now }
    ensures { result ≡ named (record { kind = name.kind; from = name.from; number = name.number }) name.to s.now }
{
    let h = frame::header::read(s);
    usize::from(h.to) == name.to
        && h.kind == name.kind
        && h.from == name.from
        && arrival::number(s) == name.number
}

/// The issue, counted from 1, of the first of the first `count` frames that has this name.
pub fn find(log: &[u8], count: usize, name: Name) -> Option<usize>
    requires { BeginsWith count log.now }
    ensures { (f : List (List ℕ)) → Begins f log.now → count ≡ length f
        → result ≡ some_issue (issue_from 1 (record { kind = name.kind; from = name.from; number = name.number }) name.to f) }
{
    let mut at = 0;
    for i in 0..count {
        let end = frame_end(log, at);
        if is_named(&log[at..end], name) {
            return Some(i + 1);
        }
        at = end;
    }
    None
}
