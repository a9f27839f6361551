// A shortest way from a place that leaves it, to a goal through a set, in time linear in the edges.
#![tactic(auto)]

ghost use Rattle.std.specs.Prelude.{List, ℕ, ◌+◌, ◌*◌, ◌≤◌, ◌<◌, length};
ghost use Rattle.bits.specs.Row.{member};
ghost use Rattle.ctl.specs.Paths.{So};
ghost use Rattle.graph.specs.Graphs.{edges_at, step_of, DirectionsAt};
ghost use Rattle.departures.specs.Departures.{Departs, Left};

use graph::{Edges, PLACES};

// Puts a shortest way from s, of one step or more, to the goal through the set at the front of the lent words, as numbers of statements, and
// answers how many words it has. There must be one: the set needs not have s.
pub fn leave(
    n: usize,
    steps: &[u16],
    opposite: &[u16],
    through: &[u64],
    goal: &[u64],
    s: usize,
    path: &mut [u32],
) -> usize
    requires directions_at { DirectionsAt n steps.now opposite.now }
    requires n_in_bounds { (n ≤ length through.now * 64) × (n ≤ length goal.now * 64) × (n + 1 ≤ length path.old) }
    requires s_lt_n { (s < n) × (((ls : List ℕ) → Departs (step_of n (edges_at steps.now)) (So (member through.now)) (So (member goal.now)) s ls → ⊥) → ⊥) }
    ensures { Left (step_of n (edges_at steps.now)) (So (member through.now)) (So (member goal.now)) s path.old path.new result × (result ≤ n + 1) }
{
    let steps = Edges::of(n, steps);
    let mut numbers = [0; PLACES];
    distances::measure(n, opposite, through, goal, &mut numbers);
    let u = walks::nearest(steps, s, &numbers);
    path[0] = (s + 1) as u32;
    walks::walk(steps, u, &numbers, path, 1)
}
