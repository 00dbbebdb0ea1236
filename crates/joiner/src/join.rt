// The joiner: the whole message's tape, and over it the tapes of the parts that a cut changes.
ghost use Rattle.std.specs.Prelude.{◌≡◌, suc, length};
ghost use Rattle.spec.specs.Letters.{between, is_break};
ghost use Rattle.spec.specs.Joints.{row12, mark_index};
ghost use Rattle.spec.specs.Answers.{JoinPromise};
ghost use Rattle.laws.specs.Beside.{Last};
ghost use Rattle.joiner.specs.Writing.{JoinDue, JoinWritten, PartDue, PartWritten};
ghost use Rattle.joiner.specs.Writing.{outside, Looks, Reach, Laid, cuts_checked};

use crate::joints::changes_at;
use crate::{Changes, JoinCounts, Progress};
use message::answers::refused;
use message::check::check;
use spec::{Edition, Refusal, Written, alphabet, codes, numbers};
use transcriber::tape::write_tape;

// What lies between these is no break of an accepted message.
const FIRST_UNBROKEN: u8 = alphabet::MARK;

const LAST_UNBROKEN: u8 = alphabet::YA;

// Is it a gap or a pause?
fn is_break(b: u8) -> bool
    ensures { result ≡ is_break b }
{
    (b == alphabet::GAP) | (b == alphabet::PAUSE)
}

// Number 12 at one cut: no break stands there, or it is below the least place that it may have.
fn is_bad(m: &[u8], least: usize, c: usize) -> bool
    ensures { result ≡ row12 m.now least c }
{
    if m.len() <= c {
        return true;
    }
    if c < least {
        return true;
    }
    !is_break(m[c])
}

// Number 12 at the index of the first bad cut of the list, if there is one.
fn check_cuts(m: &[u8], cuts: &[usize]) -> Result<(), Refusal>
    ensures { result ≡ cuts_checked m.now cuts.now }
{
    let mut least = 0;
    for (k, &c) in cuts.iter().enumerate() {
        if is_bad(m, least, c) {
            return Err(Refusal {
                number: numbers::MISPLACED_CUT,
                place: k,
            });
        }
        least = c + 1;
    }
    Ok(())
}

// Is it one of low to high?
fn is_between(b: u8, low: u8, high: u8) -> bool
    ensures { result ≡ between low high b }
{
    (low..=high).contains(&b)
}

// The last index before i where the list has none of low to high; there is one.
fn last_outside(x: &[u8], i: usize, low: u8, high: u8) -> usize
    requires { Looks (outside low high) x.now i i }
    ensures { Last (outside low high) x.now i result }
{
    x[..i]
        .iter()
        .rposition(|&b| !is_between(b, low, high))
        .unwrap()
}

// Where the mark of the cut at place c stands on the tape, if index end is that of place e behind
// it: message and tape are walked back together, break by break and mark by mark. A turn goes back
// over a word, so no `for` counts the places.
fn mark_of(m: &[u8], t: &[u8], c: usize, e: usize, end: usize) -> usize
    requires { Reach m.now t.now c e end }
    ensures { result ≡ mark_index m.now c }
{
    let mut i = e;
    let mut k = end;
    while c < i {
        i = last_outside(m, i, FIRST_UNBROKEN, LAST_UNBROKEN);
        k = last_outside(t, k, codes::FIRST_SOUND, codes::LAST_SOUND);
    }
    k
}

// Of a part the whole message's codes stand right before place end of the output; where a cut
// changes them the part's own tape is written over them. Tells in how many steps its levels were
// found.
fn write_part(edition: Edition, p: &[u8], changed: bool, out: &mut [u8], end: usize) -> usize
    requires { PartDue edition p.now out.old end changed }
    ensures { PartWritten edition p.now changed
        out.old out.new end result }
{
    if changed {
        return write_tape(edition, p, out, end);
    }
    0
}

// Lays the part after the cut of index k. The cut is judged before that part is written, while the
// codes beside its mark are the whole message's. Message and cuts stay as they are and the output
// changes, so they are handed down one by one.
fn lay_part(
    edition: Edition,
    m: &[u8],
    cuts: &[usize],
    k: usize,
    out: &mut [u8],
    p: Progress,
) -> Progress
    requires { Laid edition m.now cuts.now (suc k) out.old p }
    ensures { Laid edition m.now cuts.now k out.new result }
{
    let c = cuts[k];
    let e = p.e;
    let end = p.at;
    let changed = p.changed;
    let at = mark_of(m, out, c, e, end);
    let Changes { before, after } = changes_at(m, out, c, at);
    let taken = write_part(edition, &m[c + 1..e], changed | after, out, end);
    let steps = p.steps + taken;
    let live = p.live + (before | after) as usize;
    Progress {
        e: c,
        at,
        live,
        steps,
        changed: before,
    }
}

// Writes the second tape and counts the live cuts, and the steps that found the levels: the whole
// message's tape, and then from the right, over it, the parts that a cut changes.
fn write_joined(edition: Edition, m: &[u8], cuts: &[usize], out: &mut [u8]) -> JoinCounts
    requires { JoinDue m.now cuts.now (length out.old) }
    ensures { JoinWritten edition m.now cuts.now out.new result }
{
    let n = out.len();
    let whole = write_tape(edition, m, out, n);
    let mut p = Progress {
        e: m.len(),
        at: n,
        live: 0,
        steps: whole,
        changed: false,
    };
    for k in (0..cuts.len()).rev() {
        p = lay_part(edition, m, cuts, k, out, p);
    }
    let first = write_part(edition, &m[..p.e], p.changed, out, p.at);
    JoinCounts {
        live: p.live,
        steps: p.steps + first,
    }
}

// The joiner (paper 01, 'Joints'): writes the tape of the message's parts, in an edition, at the
// start of the lent output, or refuses and leaves every byte.
pub fn join(edition: Edition, m: &[u8], cuts: &[usize], out: &mut [u8]) -> Result<Written, Refusal>
    ensures { JoinPromise edition m.now cuts.now
        out.old out.new result }
{
    // Not by `?`: paper 01 ('Forms') names this form.
    let checked = check(m);
    let Ok(counts) = checked else {
        return refused(checked);
    };
    check_cuts(m, cuts)?;
    let n = counts.codes;
    if out.len() < n {
        return Err(Refusal {
            number: numbers::SHORT_OUTPUT,
            place: n,
        });
    }
    let counted = write_joined(edition, m, cuts, &mut out[..n]);
    Ok(Written {
        length: n,
        live: counted.live,
    })
}
