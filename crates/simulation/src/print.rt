//! What a step prints. Each function writes from `at` on, and gives the place after it.
ghost use Rattle.std.specs.Prelude.{◌≡◌, List, [], ◌++◌, ℕ, ◌+◌, ◌-◌, ◌*◌, ◌≤◌, ◌<◌, cond, length, drop};
ghost use Rattle.text.specs.Print.{refusal_row};
ghost use Rattle.text.specs.Wrote.{Wrote};
ghost use Rattle.simulation.specs.Yard.{header_row, issue_rows, printed_by, total_row};
ghost use Rattle.simulation.specs.Asked.{InLog, Logged, Small, numbered};

use counters::Counters;
use frame::header::Header;
use refusal::Refusal;
use world::Outcome;

/// The frames that a step issues: those of the log from the issue `from` on, counted from 0, up to the issue `to`. They begin at `place`.
#[derive(Clone, Copy)]
pub struct Issues {
    pub from: usize,
    pub to: usize,
    pub place: usize,
}

// The functions below take the lent output and a place in it, and give the place behind what they wrote.
/// The frame of a header, with its issue: S for a user frame, X for an extra.
#[tactic(auto, using(crate::proofs::Rows::issue_numbers), unfolding(crate::specs::Yard::header_row))]
pub fn put_issue(out: &mut [u8], at: usize, issue: usize, h: Header) -> usize
    requires { (issue < 100) × (at + 17 ≤ length out.old) }
    ensures { (result ≤ at + 17) × Wrote (header_row issue h) at out.old result out.new }
{
    let letter = if h.kind == 1 { b'S' } else { b'X' };
    let values = [
        issue as u32,
        u32::from(h.from),
        u32::from(h.to),
        u32::from(h.e),
    ];
    text::put_row(out, at, letter, &values)
}

/// The frames that a step issues, each on its line.
pub fn put_issues(out: &mut [u8], at: usize, log: &[u8], issues: Issues) -> usize
    requires { Logged issues log.now × (at + 17 * (issues.to - issues.from) ≤ length out.old) }
    ensures { (result ≤ at + 17 * (issues.to - issues.from))
        × ((f : List (List ℕ)) → InLog issues log.now f
        → Wrote (issue_rows (issues.from + 1) (drop issues.from f)) at out.old result out.new) }
{
    let mut end = at;
    let mut next = issues.place;
    for i in issues.from..issues.to {
        let h = frame::header::read(&log[next..]);
        end = put_issue(out, end, i + 1, h);
        next = world::log::frame_end(log, next);
    }
    end
}

/// What a step prints: x is the issue that was offered, or the node of a deliver; a refusal is any number, as for `text::put_refusal`.
pub fn put_outcome(
    out: &mut [u8],
    at: usize,
    x: usize,
    step: Result<Outcome, u8>,
    log: &[u8],
    issues: Issues,
) -> usize
    requires { Small x (numbered step) × Logged issues log.now × (at + 20 + 17 * (issues.to - issues.from) ≤ length out.old) }
    ensures { (result ≤ at + 20 + 17 * (issues.to - issues.from))
        × ((f : List (List ℕ)) → InLog issues log.now f
        → Wrote (printed_by x (issue_rows (issues.from + 1) (drop issues.from f)) (numbered step)) at out.old result out.new) }
{
    match step {
        Err(why) => text::put_refusal(out, at, why),
        Ok(Outcome::Sent(_)) => put_issues(out, at, log, issues),
        Ok(Outcome::Held { count, .. }) => text::put_row(out, at, b'A', &[x as u32, count as u32]),
        Ok(Outcome::Nothing(tried)) => text::put_row(out, at, b'N', &[x as u32, tried as u32]),
        Ok(Outcome::Delivered { issue, tried, .. }) => {
            let end = text::put_row(out, at, b'D', &[x as u32, issue as u32, tried as u32]);
            put_issues(out, end, log, issues)
        }
    }
}

/// The counters.
pub fn put_total(out: &mut [u8], at: usize, t: Counters) -> usize
    requires { at + 57 ≤ length out.old }
    ensures { (result ≤ at + 57) × Wrote (total_row t) at out.old result out.new }
{
    text::put_row(out, at, b'T', &t.totals())
}

/// The end of the output: a refusal where bytes stand behind the last line feed, and the counters.
pub fn put_ending(out: &mut [u8], at: usize, rest: bool, t: Counters) -> usize
    requires { at + 63 ≤ length out.old }
    ensures { (result ≤ at + 63) × Wrote (cond rest (refusal_row 17) [] ++ total_row t) at out.old result out.new }
{
    if rest {
        let end = text::put_refusal(out, at, Refusal::Line.number());
        return put_total(out, end, t);
    }
    put_total(out, at, t)
}
