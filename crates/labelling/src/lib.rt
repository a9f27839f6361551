// The places of a finite graph at which a path operator holds of some path, or of all paths.
#![tactic(auto)]

ghost use Rattle.std.specs.Prelude.{◌≡◌, ◌*◌, ◌≤◌, length};
ghost use Rattle.bits.specs.Row.{Zeros, member};
ghost use Rattle.ctl.specs.Paths.{Paths, quant, So};
ghost use Rattle.ctl.specs.Tables.{Onto, Grown};
ghost use Rattle.graph.specs.Lists.{step, Linked};
ghost use Rattle.graph.specs.Graphs.{places, entries, edges_at, head_of, step_of, DirectionsAt};
ghost use Rattle.labelling.specs.Labels.{Said, Labelled, Rows, Spare};

use graph::{Edges, PLACES};

// The most places of a graph that is labelled in short rooms.
const FEW_PLACES: usize = 256;

// What is said of one path: X p, F p, G p, p U q, p W q.
#[derive(Clone, Copy)]
pub enum Operator {
    Next,
    Finally,
    Globally,
    Until,
    Weak,
}

// The places from which some step leads into p, or all steps do.
fn preimage(all: bool, steps: Edges, p: &[u64], out: &mut [u64])
    requires linked { Linked steps.head.now steps.link.now steps.to.now }
    requires head_in_bounds { (length steps.head.now ≤ length p.now * 64) × (length steps.head.now ≤ length out.old * 64) }
    ensures { Labelled (length steps.entry.head.now) (member out.new) (Onto (quant all) (step steps.entry.head.now steps.entry.link.now steps.entry.to.now) (So (member p.now))) }
{
    bits::clear(out);
    for s in 0..steps.head.len() {
        if steps.onto(all, s, p) {
            bits::insert(out, s);
        }
    }
}

// The places of E[X p], or of A[X p].
fn next(all: bool, n: usize, steps: &[u16], p: &[u64], out: &mut [u64])
    requires steps_len { (length steps.now ≡ entries) × (n ≤ places) }
    requires linked { Linked (head_of n (edges_at steps.now)) (edges_at steps.now).link (edges_at steps.now).to }
    requires n_in_bounds { (n ≤ length p.now * 64) × (n ≤ length out.old * 64) }
    ensures { Labelled n (member out.new) (Onto (quant all) (step_of n (edges_at steps.now)) (So (member p.now))) }
{
    preimage(all, Edges::of(n, steps), p, out);
}

// Room for a number for each place.
pub fn blank() -> [u16; PLACES]
    ensures { Zeros places result }
{
    [0; PLACES]
}

// `until` with rooms of N numbers: what is left of each place's list, and the stack of the worklist.
fn until_in<const N: usize>(
    all: bool,
    n: usize,
    steps: &[u16],
    opposite: &[u16],
    p: &[u64],
    set: &mut [u64],
)
    requires directions_at { DirectionsAt n steps.now opposite.now }
    requires n_in_bounds { (n ≤ length p.now * 64) × (n ≤ length set.old * 64) }
    requires n_in_room { (n ≤ N) × (N ≤ places) }
    ensures { Grown (quant all) n (step_of n (edges_at steps.now)) (member p.now) (member set.old) (member set.new) }
{
    let mut rest = [0; N];
    let mut stack = [0; N];
    let steps = Edges::of(n, steps);
    let opposite = Edges::of(n, opposite);
    graph::copy(steps.head, &mut rest[..n]);
    worklist::close(
        all,
        steps,
        opposite,
        p,
        set,
        &mut rest[..n],
        &mut stack[..n],
    );
}

// `set` holds q, and comes back with the places of E[p U q], or of A[p U q]. A graph with few places has short rooms, since all of a
// room is cleared.
fn until(all: bool, n: usize, steps: &[u16], opposite: &[u16], p: &[u64], set: &mut [u64])
    requires directions_at { DirectionsAt n steps.now opposite.now }
    requires n_in_bounds { (n ≤ length p.now * 64) × (n ≤ length set.old * 64) }
    ensures { Grown (quant all) n (step_of n (edges_at steps.now)) (member p.now) (member set.old) (member set.new) }
{
    if n <= FEW_PLACES {
        until_in::<FEW_PLACES>(all, n, steps, opposite, p, set);
    } else {
        until_in::<PLACES>(all, n, steps, opposite, p, set);
    }
}

// `label` with the row of all places, and a row to use. F is U through all places; W and G are what U leaves out for the other
// quantifier.
fn apply(
    op: Operator,
    all: bool,
    n: usize,
    steps: &[u16],
    opposite: &[u16],
    places: &[u64],
    p: &[u64],
    q: &[u64],
    through: &mut [u64],
    out: &mut [u64],
)
    requires directions_at { DirectionsAt n steps.now opposite.now }
    requires rows { Rows n p.now q.now out.old }
    requires spare { Spare n places.now through.old out.old }
    ensures { Labelled n (member out.new) (λ s. Paths (quant all) (step_of n (edges_at steps.now)) s (Said op (So (member p.now)) (So (member q.now)))) }
{
    match op {
        Operator::Next => next(all, n, steps, p, out),
        Operator::Finally => {
            bits::intersection(places, p, out);
            until(all, n, steps, opposite, places, out);
        }
        Operator::Until => {
            bits::intersection(places, q, out);
            until(all, n, steps, opposite, p, out);
        }
        Operator::Globally => {
            bits::difference(places, p, out);
            until(!all, n, steps, opposite, places, out);
            bits::complement(places, out);
        }
        Operator::Weak => {
            bits::difference(places, q, through);
            bits::difference(&*through, p, out);
            until(!all, n, steps, opposite, &*through, out);
            bits::complement(places, out);
        }
    }
}

// The places below n at which the operator holds of some path, or of all paths, from there.
pub fn label(
    op: Operator,
    all: bool,
    n: usize,
    steps: &[u16],
    opposite: &[u16],
    p: &[u64],
    q: &[u64],
    out: &mut [u64],
)
    requires directions_at { DirectionsAt n steps.now opposite.now }
    requires rows { Rows n p.now q.now out.old }
    ensures { Labelled n (member out.new) (λ s. Paths (quant all) (step_of n (edges_at steps.now)) s (Said op (So (member p.now)) (So (member q.now)))) }
{
    let w = out.len();
    let mut places = bits::blank();
    let mut through = bits::blank();
    bits::below(n, &mut places[..w]);
    apply(
        op,
        all,
        n,
        steps,
        opposite,
        &places[..w],
        p,
        q,
        &mut through[..w],
        out,
    );
}
