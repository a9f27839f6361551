// Walks along the steps of a graph, as numbers of statements in lent words: to a goal by distances, and round and round within a set.
#![tactic(auto)]

ghost use Rattle.std.specs.Prelude.{◌≡◌, true, false, ℕ, ◌+◌, ◌*◌, ◌≤◌, ◌<◌, length};
ghost use Rattle.bits.specs.Row.{member};
ghost use Rattle.ctl.specs.Paths.{Graph};
ghost use Rattle.graph.specs.Lists.{step, Linked};
ghost use Rattle.graph.specs.Graphs.{places};
ghost use Rattle.forcing.specs.Numbers.{number_of};
ghost use Rattle.walks.specs.Walks.{Nearest, SomeNumbered, Walked, SomeEndless, Circled};

use graph::Edges;

// How many words a path has, and 0, or the word to whose statement its last turns back, counted from 1: the number that C reads.
#[derive(Clone, Copy)]
pub struct Trail {
    pub length: usize,
    pub turn: usize,
}

// The successor of s with the least number.
pub fn nearest(steps: Edges, s: usize, numbers: &[u32]) -> usize
    requires linked { Linked steps.head.now steps.link.now steps.to.now × Graph (length steps.head.now) (step steps.head.now steps.link.now steps.to.now) }
    requires s_in_bounds { (s < length steps.head.now) × (length steps.head.now ≤ length numbers.now) }
    ensures { Nearest (step steps.entry.head.now steps.entry.link.now steps.entry.to.now) numbers.now s result }
{
    let first = graph::wide(steps.head[s]);
    let mut best = graph::wide(steps.to[first - 1]);
    let mut k = graph::wide(steps.link[first - 1]);
    // Each position names the next one: no range and no slice has them in order.
    while k > 0 {
        let e = k - 1;
        let t = graph::wide(steps.to[e]);
        k = graph::wide(steps.link[e]);
        if numbers[t] < numbers[best] {
            best = t;
        }
    }
    best
}

// Puts a way from s by falling numbers from the word `at` on, and answers where it ends.
pub fn walk(steps: Edges, s: usize, numbers: &[u32], path: &mut [u32], at: usize) -> usize
    requires linked { Linked steps.head.now steps.link.now steps.to.now × Graph (length steps.head.now) (step steps.head.now steps.link.now steps.to.now) × (length steps.head.now ≤ places) }
    requires some_numbered { SomeNumbered (length steps.head.now) (step steps.head.now steps.link.now steps.to.now) numbers.now s × (length steps.head.now ≤ length numbers.now) }
    requires head_in_bounds { at + length steps.head.now ≤ length path.old }
    ensures { Walked (length steps.entry.head.now) (step steps.entry.head.now steps.entry.link.now steps.entry.to.now) numbers.now s at path.old path.new result }
{
    let mut place = s;
    let mut k = at;
    // The number of the place that is come to ends it, and no count.
    while numbers[place] > 0 {
        path[k] = (place + 1) as u32;
        k += 1;
        place = nearest(steps, place, numbers);
    }
    path[k] = (place + 1) as u32;
    k + 1
}

// A successor of s that is not to be avoided.
pub fn onward(steps: Edges, s: usize, avoid: &[u64]) -> usize
    requires linked { Linked steps.head.now steps.link.now steps.to.now × (s < length steps.head.now) × (length steps.head.now ≤ length avoid.now * 64) }
    requires by_index { (u : ℕ) × (step steps.head.now steps.link.now steps.to.now s u ≡ true) × (member avoid.now u ≡ false) }
    ensures { (step steps.entry.head.now steps.entry.link.now steps.entry.to.now s result ≡ true) × (member avoid.now result ≡ false) }
{
    let k = worklist::skip(steps.head.len(), steps, graph::wide(steps.head[s]), avoid);
    graph::wide(steps.to[k - 1])
}

// Puts a lasso from s from the first word on: it goes where nothing is to be avoided, until it comes to a place again.
pub fn circle(steps: Edges, s: usize, avoid: &[u64], path: &mut [u32]) -> Trail
    requires linked { Linked steps.head.now steps.link.now steps.to.now × Graph (length steps.head.now) (step steps.head.now steps.link.now steps.to.now) × (length steps.head.now ≤ places) }
    requires some_endless { SomeEndless (length steps.head.now) (step steps.head.now steps.link.now steps.to.now) (member avoid.now) s × (length steps.head.now ≤ length avoid.now * 64) }
    requires head_in_bounds { length steps.head.now ≤ length path.old }
    ensures { Circled (length steps.entry.head.now) (step steps.entry.head.now steps.entry.link.now steps.entry.to.now) (member avoid.now) s path.old path.new result }
{
    let mut seen = labelling::blank();
    let mut place = s;
    let mut k: usize = 0;
    // A place that is come to again ends it, and no count.
    while seen[place] == 0 {
        path[k] = (place + 1) as u32;
        k += 1;
        seen[place] = k as u16;
        place = onward(steps, place, avoid);
    }
    Trail {
        length: k,
        turn: graph::wide(seen[place]),
    }
}
