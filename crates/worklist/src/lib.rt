// The places of E[p U q] or A[p U q] in time linear in the edges: each place that joins the set is stacked once, and each edge is
// passed once in each direction. `steps` are the lists of the steps, `opposite` those of the opposite direction.
#![tactic(auto)]

ghost use Rattle.std.specs.Prelude.{◌≡◌, true, false, ◌↔◌, ◌+◌, ◌*◌, ◌≤◌, ◌<◌, length};
ghost use Rattle.bits.specs.Row.{member};
ghost use Rattle.ctl.specs.Paths.{quant};
ghost use Rattle.ctl.specs.Tables.{Grown};
ghost use Rattle.graph.specs.Lists.{step, Linked, From};
ghost use Rattle.graph.specs.Graphs.{Turned};
ghost use Rattle.worklist.specs.Worklist.{Skipped, Rest, Ready, Visited, Gathered, lesser, Space, Visit};

use graph::Edges;

// The first position from `start` on whose target is not in the set, or 0. The targets are places below n.
pub fn skip(n: usize, steps: Edges, start: usize, set: &[u64]) -> usize
    requires from { From steps.link.now steps.to.now n start }
    requires n_in_bounds { n ≤ length set.now * 64 }
    ensures { Skipped steps.entry.link.now steps.entry.to.now (member set.now) start result }
{
    let mut k = start;
    // No index is counted here: k follows the links of a list.
    while k > 0 {
        let e = k - 1;
        if !bits::contains(set, usize::from(steps.to[e])) {
            return k;
        }
        k = usize::from(steps.link[e]);
    }
    0
}

// Whether s joins the set, where some step of it leads there; for all paths, whether all steps do. `rest` moves on past the edges
// that lead into the set, so that none is looked at twice.
pub fn joins(all: bool, steps: Edges, s: usize, p: &[u64], set: &[u64], rest: &mut [u16]) -> bool
    requires linked { Linked steps.head.now steps.link.now steps.to.now }
    requires s_in_bounds { (s < length steps.head.now) × (length steps.head.now ≤ length p.now * 64) × (length steps.head.now ≤ length set.now * 64) }
    requires rest { Rest steps.head.now steps.link.now steps.to.now rest.old (member set.now) }
    ensures variant { (result ≡ true) ↔ Ready all (step steps.entry.head.now steps.entry.link.now steps.entry.to.now) (member p.now) (member set.now) s }
    ensures rest_2 { Rest steps.entry.head.now steps.entry.link.now steps.entry.to.now rest.new (member set.now) }
{
    if bits::contains(set, s) {
        return false;
    }
    if bits::contains(p, s) {
        if all {
            let k = skip(steps.head.len(), steps, usize::from(rest[s]), set);
            rest[s] = k as u16;
            return k == 0;
        }
        return true;
    }
    false
}

// The predecessors of t, a place of the set: those that join it are stacked. Returns the height of the stack.
fn visit(
    all: bool,
    steps: Edges,
    opposite: Edges,
    t: usize,
    p: &[u64],
    set: &mut [u64],
    rest: &mut [u16],
    stack: &mut [u16],
    height: usize,
) -> usize
    requires turned { Turned (length steps.head.now) steps.head.now steps.link.now steps.to.now opposite.head.now opposite.link.now opposite.to.now }
    requires space { Space (length steps.head.now) p.now set.old stack.old }
    requires visit { Visit (quant all) steps.head.now steps.link.now steps.to.now t (member p.now) (member set.old) rest.old stack.old height (step opposite.head.now opposite.link.now opposite.to.now t) }
    ensures { Visited (quant all) steps.entry.head.now steps.entry.link.now steps.entry.to.now (member p.now) (member set.old) (member set.new) rest.new stack.new height result (λ _. false) }
{
    let mut h = height;
    let mut k = usize::from(opposite.head[t]);
    // No index is counted here: k follows the links of a list.
    while k > 0 {
        let e = k - 1;
        let s = usize::from(opposite.to[e]);
        k = usize::from(opposite.link[e]);
        if joins(all, steps, s, p, &*set, rest) {
            bits::insert(set, s);
            stack[h] = s as u16;
            h += 1;
        }
    }
    h
}

// Puts the members of word k below n on the stack, on those of the words before. Returns its height.
fn gather_word(n: usize, set: &[u64], k: usize, stack: &mut [u16], height: usize) -> usize
    requires k_in_bounds { (k < length set.now) × (n ≤ length stack.old) × (n ≤ 65536) × (k * 64 < n) }
    requires gathered { Gathered (member set.now) (lesser n (k * 64)) stack.old height }
    ensures { Gathered (member set.now) (lesser n ((k + 1) * 64)) stack.new result }
{
    let mut h = height;
    let mut left = set[k];
    // No index is counted here: each turn takes the lowest bit that is left.
    while left != 0 {
        let s = k * 64 + (left.trailing_zeros() as usize);
        if s >= n {
            return h;
        }
        stack[h] = s as u16;
        h += 1;
        left = left & (left - 1);
    }
    h
}

// Puts the members of the set below n on the stack. Returns its height.
fn gather(n: usize, set: &[u64], stack: &mut [u16]) -> usize
    requires { (n ≤ length set.now * 64) × (n ≤ length stack.old) × (n ≤ 65536) }
    ensures { Gathered (member set.now) n stack.new result }
{
    let mut h: usize = 0;
    for k in 0..n.div_ceil(64) {
        h = gather_word(n, set, k, stack, h);
    }
    h
}

// `set` holds q, and comes back with the places of E[p U q], or of A[p U q]. `rest` holds the heads: no edge is passed yet.
pub fn close(
    all: bool,
    steps: Edges,
    opposite: Edges,
    p: &[u64],
    set: &mut [u64],
    rest: &mut [u16],
    stack: &mut [u16],
)
    requires turned { Turned (length steps.head.now) steps.head.now steps.link.now steps.to.now opposite.head.now opposite.link.now opposite.to.now }
    requires space { Space (length steps.head.now) p.now set.old stack.old }
    requires rest_value { rest.old ≡ steps.head.now }
    ensures { Grown (quant all) (length steps.entry.head.now) (step steps.entry.head.now steps.entry.link.now steps.entry.to.now) (member p.now) (member set.old) (member set.new) }
{
    let mut h = gather(steps.head.len(), &*set, stack);
    // No index is counted here: the stack shrinks and grows until it is empty.
    while h > 0 {
        h -= 1;
        let t = usize::from(stack[h]);
        h = visit(all, steps, opposite, t, p, set, rest, stack, h);
    }
}
