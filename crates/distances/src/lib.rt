// In how many steps a goal is reached through a set of places, for each place of a graph, in time linear in the edges: a search by breadth,
// backward from the goal. Each place that gets a number is queued once.
#![tactic(auto)]

ghost use Rattle.std.specs.Prelude.{◌≡◌, Bool, not, ◌&&◌, ℕ, ◌+◌, ◌*◌, ◌≤◌, ◌<◌, length, get_or};
ghost use Rattle.bits.specs.Row.{member};
ghost use Rattle.ctl.specs.Paths.{Graph};
ghost use Rattle.graph.specs.Lists.{step, Linked};
ghost use Rattle.graph.specs.Graphs.{places, Opposite, entries, edges_at, head_of, step_of};
ghost use Rattle.forcing.specs.Numbers.{none, number_of, numbered};
ghost use Rattle.lassos.specs.Distances.{Distances};
ghost use Rattle.distances.specs.Search.{Space, Searched, Found};

use forcing::NONE;
use graph::{Edges, PLACES};

// Whether s is to have a number, where a step of it leads to a place that has one.
fn joins(s: usize, through: &[u64], numbers: &[u32]) -> bool
    requires { (s < length through.now * 64) × (s < length numbers.now) }
    ensures { result ≡ (not (numbered numbers.now s) && member through.now s) }
{
    numbers[s] == NONE && bits::contains(through, s)
}

// The predecessors of the place at `at` of the queue: those that join get the next number and are queued. Returns how many places were
// queued. The loop of `forcing` has another test and other facts: one for both would take the test and the invariant from each.
fn visit(
    opposite: Edges,
    through: &[u64],
    numbers: &mut [u32],
    queue: &mut [u16],
    at: usize,
    hi: usize,
) -> usize
    requires space { Space opposite.head.now opposite.link.now opposite.to.now through.now numbers.old queue.old }
    requires at_lt_hi { (at < hi) × ((goal : ℕ → Bool) × Searched opposite.head.now opposite.link.now opposite.to.now (member through.now) goal numbers.old queue.old at hi) }
    ensures { (goal : ℕ → Bool) → Searched opposite.entry.head.now opposite.entry.link.now opposite.entry.to.now (member through.now) goal numbers.old queue.old at hi → Searched opposite.entry.head.now opposite.entry.link.now opposite.entry.to.now (member through.now) goal numbers.new queue.new (at + 1) result }
{
    let t = graph::wide(queue[at]);
    let next = numbers[t] + 1;
    let mut h = hi;
    let mut k = graph::wide(opposite.head[t]);
    // Each position names the next one: no range and no slice has them in order.
    while k > 0 {
        let e = k - 1;
        let s = graph::wide(opposite.to[e]);
        k = graph::wide(opposite.link[e]);
        if joins(s, through, &*numbers) {
            numbers[s] = next;
            queue[h] = s as u16;
            h += 1;
        }
    }
    h
}

// The numbers, with a queue to use.
fn search(opposite: Edges, through: &[u64], goal: &[u64], numbers: &mut [u32], queue: &mut [u16])
    requires space { Space opposite.head.now opposite.link.now opposite.to.now through.now numbers.old queue.old }
    requires in_bounds { length opposite.head.now ≤ length goal.now * 64 }
    ensures { Found (length opposite.entry.head.now) (step opposite.entry.head.now opposite.entry.link.now opposite.entry.to.now) (member through.now) (member goal.now) numbers.new }
{
    let mut hi = forcing::start(opposite.head.len(), goal, numbers, queue);
    let mut at: usize = 0;
    // The queue grows as it is passed: no range has its end at the start.
    while at < hi {
        hi = visit(opposite, through, numbers, queue, at, hi);
        at += 1;
    }
}

// The numbers of the first n places: in how many steps the goal is reached through the set. What stands after them is kept.
pub fn measure(n: usize, opposite: &[u16], through: &[u64], goal: &[u64], numbers: &mut [u32])
    requires opposite_len { (length opposite.now ≡ entries) × (n ≤ places) }
    requires linked { Linked (head_of n (edges_at opposite.now)) (edges_at opposite.now).link (edges_at opposite.now).to }
    requires n_in_bounds { (n ≤ length through.now * 64) × (n ≤ length goal.now * 64) × (n ≤ length numbers.old) }
    ensures found { Found n (step_of n (edges_at opposite.now)) (member through.now) (member goal.now) numbers.new }
    ensures by_index { (s : ℕ) → number_of numbers.new s ≤ none }
{
    let opposite = Edges::of(n, opposite);
    let mut queue = labelling::blank();
    search(opposite, through, goal, &mut numbers[..n], &mut queue[..n]);
}
