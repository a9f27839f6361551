// The least number of steps in which a player, the driver, can force a goal, for each place of a graph, in time linear in the edges:
// each place that gets a number is queued once, and each edge is passed once in each direction.
#![tactic(auto)]

ghost use Rattle.std.specs.Prelude.{◌≡◌, true, false, ◌↔◌, ℕ, ◌+◌, ◌*◌, ◌≤◌, ◌<◌, length, get_or, drop};
ghost use Rattle.bits.specs.Row.{member};
ghost use Rattle.graph.specs.Lists.{step, Linked};
ghost use Rattle.graph.specs.Graphs.{Turned, edges_at, step_of, DirectionsAt};
ghost use Rattle.worklist.specs.Worklist.{Rest};
ghost use Rattle.games.specs.Ranks.{Ranks};
ghost use Rattle.forcing.specs.Numbers.{none, number_of, numbered};
ghost use Rattle.forcing.specs.Search.{Due, Started, Space, Visit, Visited};

use graph::{Edges, PLACES};

// The number of a place from which the driver can't force the goal. C reads it beside the others.
pub const NONE: u32 = u32::MAX;

// The places of the goal have the number 0 and are queued, the others have none. Returns how many are queued.
pub fn start(n: usize, goal: &[u64], numbers: &mut [u32], queue: &mut [u16]) -> usize
    requires { (n ≤ length goal.now * 64) × (n ≤ length numbers.old) × (n ≤ length queue.old) × (n ≤ 65536) }
    ensures { Started (member goal.now) n numbers.new queue.new result }
{
    let mut h: usize = 0;
    for s in 0..n {
        if bits::contains(goal, s) {
            numbers[s] = 0;
            queue[h] = s as u16;
            h += 1;
        } else {
            numbers[s] = NONE;
        }
    }
    h
}

// Whether s is to have a number, where some step of it leads into the set: at the driver's places where it has none yet, at the others
// where all steps lead there besides. `rest` moves on past the edges that lead into the set, so that none is looked at twice.
fn joins(
    steps: Edges,
    s: usize,
    mine: &[u64],
    set: &[u64],
    numbers: &[u32],
    rest: &mut [u16],
) -> bool
    requires linked { Linked steps.head.now steps.link.now steps.to.now }
    requires s_in_bounds { (s < length steps.head.now) × (length steps.head.now ≤ length mine.now * 64) × (length steps.head.now ≤ length set.now * 64) × (length numbers.now ≡ length steps.head.now) }
    requires rest { Rest steps.head.now steps.link.now steps.to.now rest.old (member set.now) }
    ensures variant { (result ≡ true) ↔ Due (step steps.entry.head.now steps.entry.link.now steps.entry.to.now) (member mine.now) (numbered numbers.now) (member set.now) s }
    ensures rest_2 { Rest steps.entry.head.now steps.entry.link.now steps.entry.to.now rest.new (member set.now) }
{
    if numbers[s] != NONE {
        return false;
    }
    if bits::contains(mine, s) {
        return true;
    }
    let k = worklist::skip(steps.head.len(), steps, graph::wide(rest[s]), set);
    rest[s] = k as u16;
    k == 0
}

// The predecessors of the place at `at` of the queue, which is in the set: those that join get the next number and are queued. Returns
// how many places were queued.
fn visit(
    steps: Edges,
    opposite: Edges,
    mine: &[u64],
    set: &[u64],
    rest: &mut [u16],
    numbers: &mut [u32],
    queue: &mut [u16],
    at: usize,
    hi: usize,
) -> usize
    requires turned { Turned (length steps.head.now) steps.head.now steps.link.now steps.to.now opposite.head.now opposite.link.now opposite.to.now }
    requires space { Space (length steps.head.now) mine.now set.now numbers.old queue.old }
    requires visit { Visit steps.head.now steps.link.now steps.to.now (member mine.now) (member set.now) rest.old numbers.old queue.old at hi (step opposite.head.now opposite.link.now opposite.to.now (get_or queue.old at 0)) }
    ensures { Visited steps.entry.head.now steps.entry.link.now steps.entry.to.now (member mine.now) (member set.now) rest.new numbers.old numbers.new queue.new (at + 1) result (number_of numbers.old (get_or queue.old at 0)) (λ _. false) }
{
    let t = graph::wide(queue[at]);
    let next = numbers[t] + 1;
    let mut h = hi;
    let mut k = graph::wide(opposite.head[t]);
    // Each position names the next one: no range and no slice has them in order.
    while k > 0 {
        let e = k - 1;
        let s = graph::wide(opposite.to[e]);
        k = graph::wide(opposite.link[e]);
        if joins(steps, s, mine, set, &*numbers, rest) {
            numbers[s] = next;
            queue[h] = s as u16;
            h += 1;
        }
    }
    h
}

// The numbers, with the driver's places in `mine`. `set` is a row to use, and `rest` holds the heads: no edge is passed yet.
pub fn rank(
    steps: Edges,
    opposite: Edges,
    mine: &[u64],
    goal: &[u64],
    set: &mut [u64],
    rest: &mut [u16],
    numbers: &mut [u32],
    queue: &mut [u16],
)
    requires turned { Turned (length steps.head.now) steps.head.now steps.link.now steps.to.now opposite.head.now opposite.link.now opposite.to.now }
    requires space { Space (length steps.head.now) mine.now set.old numbers.old queue.old }
    requires head_in_bounds { length steps.head.now ≤ length goal.now * 64 }
    requires rest_value { rest.old ≡ steps.head.now }
    ensures { Ranks (length steps.entry.head.now) (step steps.entry.head.now steps.entry.link.now steps.entry.to.now) (member mine.now) (member goal.now) (numbered numbers.new) (number_of numbers.new) }
{
    bits::clear(set);
    let mut hi = start(steps.head.len(), goal, numbers, queue);
    let mut at: usize = 0;
    // The queue grows as it is passed: no range has its end at the start.
    while at < hi {
        bits::insert(set, graph::wide(queue[at]));
        hi = visit(steps, opposite, mine, &*set, rest, numbers, queue, at, hi);
        at += 1;
    }
}

// The numbers of the first n places, with the driver's places in `mine`. What stands after them is kept.
pub fn number(
    n: usize,
    steps: &[u16],
    opposite: &[u16],
    mine: &[u64],
    goal: &[u64],
    numbers: &mut [u32],
)
    requires directions_at { DirectionsAt n steps.now opposite.now }
    requires n_in_bounds { (n ≤ length mine.now * 64) × (n ≤ length goal.now * 64) × (n ≤ length numbers.old) }
    ensures ranks { Ranks n (step_of n (edges_at steps.now)) (member mine.now) (member goal.now) (numbered numbers.new) (number_of numbers.new) }
    ensures by_index { (s : ℕ) → number_of numbers.new s ≤ none }
    ensures numbers_unchanged { drop n numbers.new ≡ drop n numbers.old }
{
    let steps = Edges::of(n, steps);
    let opposite = Edges::of(n, opposite);
    let mut set = bits::blank();
    let mut rest = labelling::blank();
    let mut queue = labelling::blank();
    graph::copy(steps.head, &mut rest[..n]);
    rank(
        steps,
        opposite,
        mine,
        goal,
        &mut set,
        &mut rest[..n],
        &mut numbers[..n],
        &mut queue[..n],
    );
}
