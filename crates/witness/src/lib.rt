// A path for a path operator at a place, in time linear in the edges: one that bears out that it is true of some path, or one that speaks
// against its being true of all. What is reached gets a shortest way, what goes on for ever a lasso.
#![tactic(auto)]

ghost use Rattle.std.specs.Prelude.{List, ◌≡◌, false, true, not, ◌&&◌, ℕ, ◌*◌, ◌≤◌, ◌<◌, length};
ghost use Rattle.bits.specs.Row.{member};
ghost use Rattle.ctl.specs.Paths.{E, Paths, quant, So};
ghost use Rattle.graph.specs.Graphs.{edges_at, step_of, DirectionsAt};
ghost use Rattle.labelling.specs.Labels.{Said, Labelled};
ghost use Rattle.lassos.specs.Dual.{dual};
ghost use Rattle.witness.specs.Witness.{Witness};
ghost use Rattle.witness.specs.Trails.{Ready, Trailed, Stepped, Possible, Room, Words, Apart, Turned, Lent};

use graph::{Edges, PLACES};
use labelling::Operator;
use walks::Trail;

// The operands of an operator, and the row of all places, which is as long.
#[derive(Clone, Copy)]
struct Operands<'a> {
    places: &'a [u64],
    p: &'a [u64],
    q: &'a [u64],
    ghost of_p: { length p.now ≡ length places.now },
    ghost of_q: { length q.now ≡ length places.now },
}

impl<'a> Operands<'a> {
    // The places outside p, and those outside q.
    fn outside(self, first: &mut [u64], second: &mut [u64])
        requires { Apart self.places.now first.old second.old }
        ensures by_index { (s : ℕ) → member first.new s ≡ (member self.entry.places.now s && not (member self.entry.p.now s)) }
        ensures by_index_2 { (s : ℕ) → member second.new s ≡ (member self.entry.places.now s && not (member self.entry.q.now s)) }
    {
        bits::difference(self.places, self.p, first);
        bits::difference(self.places, self.q, second);
    }

    // The places outside q, and those of them that are outside p too.
    fn neither(self, first: &mut [u64], second: &mut [u64])
        requires { Apart self.places.now first.old second.old }
        ensures by_index { (s : ℕ) → member first.new s ≡ (member self.entry.places.now s && not (member self.entry.q.now s)) }
        ensures by_index_2 { (s : ℕ) → member second.new s ≡ (member first.new s && not (member self.entry.p.now s)) }
    {
        bits::difference(self.places, self.q, first);
        bits::difference(&*first, self.p, second);
    }

    // The operands of the dual.
    fn turn(self, op: Operator, first: &mut [u64], second: &mut [u64])
        requires { Apart self.places.now first.old second.old }
        ensures { Turned op self.entry.places.now self.entry.p.now self.entry.q.now first.new second.new }
    {
        match op {
            Operator::Next | Operator::Finally | Operator::Globally => self.outside(first, second),
            Operator::Until | Operator::Weak => self.neither(first, second),
        }
    }
}

// A way from s to the goal through the set, or a lasso within the set where there is none.
fn trail(
    n: usize,
    steps: &[u16],
    opposite: &[u16],
    through: &[u64],
    goal: &[u64],
    avoid: &[u64],
    s: usize,
    path: &mut [u32],
) -> Trail
    requires directions_at { DirectionsAt n steps.now opposite.now }
    requires n_in_bounds { (n ≤ length through.now * 64) × (n ≤ length goal.now * 64) × (n ≤ length avoid.now * 64) × Words n path.old }
    requires ready { Ready n (step_of n (edges_at steps.now)) (member through.now) (member goal.now) (member avoid.now) s }
    ensures { Trailed n (step_of n (edges_at steps.now)) (member through.now) (member goal.now) s path.old path.new result }
{
    let steps = Edges::of(n, steps);
    let mut numbers = [0; PLACES];
    distances::measure(n, opposite, through, goal, &mut numbers);
    if numbers[s] != forcing::NONE {
        let end = walks::walk(steps, s, &numbers, path, 0);
        return Trail {
            length: end,
            turn: 0,
        };
    }
    walks::circle(steps, s, avoid, path)
}

// One step from s to a place that is not to be avoided.
fn next(n: usize, steps: &[u16], avoid: &[u64], s: usize, path: &mut [u32]) -> Trail
    requires by_index { ((opposite : List ℕ) × DirectionsAt n steps.now opposite) × (n ≤ length avoid.now * 64) × Words n path.old }
    requires s_lt_n { (s < n) × ((u : ℕ) × (step_of n (edges_at steps.now) s u ≡ true) × (member avoid.now u ≡ false)) }
    ensures { Stepped (step_of n (edges_at steps.now)) (member avoid.now) s path.old path.new result }
{
    let steps = Edges::of(n, steps);
    let u = walks::onward(steps, s, avoid);
    path[0] = (s + 1) as u32;
    path[1] = (u + 1) as u32;
    Trail { length: 2, turn: 0 }
}

// A path from s that bears the operator out. `spare` is a row to use.
fn bears(
    op: Operator,
    n: usize,
    steps: &[u16],
    opposite: &[u16],
    of: Operands,
    avoid: &[u64],
    spare: &mut [u64],
    s: usize,
    path: &mut [u32],
) -> Trail
    requires directions_at { DirectionsAt n steps.now opposite.now }
    requires room { Room n of.places.now avoid.now spare.old × Words n path.old }
    requires possible { Possible op n (step_of n (edges_at steps.now)) (member of.p.now) (member of.q.now) (member avoid.now) s }
    ensures { Witness E op n (step_of n (edges_at steps.now)) (So (member of.entry.p.now)) (So (member of.entry.q.now)) s path.old path.new result.length result.turn }
{
    match op {
        Operator::Next => {
            bits::difference(of.places, of.p, spare);
            next(n, steps, &*spare, s, path)
        }
        Operator::Finally => trail(n, steps, opposite, of.places, of.p, avoid, s, path),
        Operator::Globally => {
            bits::clear(spare);
            trail(n, steps, opposite, of.p, &*spare, avoid, s, path)
        }
        Operator::Until => trail(n, steps, opposite, of.p, of.q, avoid, s, path),
        Operator::Weak => trail(n, steps, opposite, of.p, of.q, avoid, s, path),
    }
}

// The operator that what speaks against this one bears out.
fn dual_of(op: Operator) -> Operator
    ensures { result ≡ dual op }
{
    match op {
        Operator::Next => Operator::Next,
        Operator::Finally => Operator::Globally,
        Operator::Globally => Operator::Finally,
        Operator::Until => Operator::Weak,
        Operator::Weak => Operator::Until,
    }
}

// A path from s that speaks against the operator's being true of all paths; `row` are the places at which it is. `first`, `second` and `spare`
// are rows to use.
fn against(
    op: Operator,
    n: usize,
    steps: &[u16],
    opposite: &[u16],
    of: Operands,
    row: &[u64],
    first: &mut [u64],
    second: &mut [u64],
    spare: &mut [u64],
    s: usize,
    path: &mut [u32],
) -> Trail
    requires directions_at { DirectionsAt n steps.now opposite.now }
    requires room { Room n of.places.now row.now spare.old × Apart of.places.now first.old second.old × Words n path.old }
    requires s_lt_n { (s < n) × (member row.now s ≡ false) × Labelled n (member row.now) (λ t. Paths (quant true) (step_of n (edges_at steps.now)) t (Said op (So (member of.p.now)) (So (member of.q.now)))) }
    ensures { Witness (quant true) op n (step_of n (edges_at steps.now)) (So (member of.entry.p.now)) (So (member of.entry.q.now)) s path.old path.new result.length result.turn }
{
    of.turn(op, first, second);
    let dual = Operands {
        places: of.places,
        p: &*first,
        q: &*second,
    };
    bears(dual_of(op), n, steps, opposite, dual, row, spare, s, path)
}

// A path from s for the operator: it bears out that the operator is true of some path, or speaks against its being true of all. `row` are the
// places at which it is, and s is one of them, or none. The path stands at the front of the lent words, in numbers of statements. `places`,
// `first`, `second` and `spare` are rows to use.
pub fn witness(
    op: Operator,
    all: bool,
    n: usize,
    steps: &[u16],
    opposite: &[u16],
    p: &[u64],
    q: &[u64],
    row: &[u64],
    places: &mut [u64],
    first: &mut [u64],
    second: &mut [u64],
    spare: &mut [u64],
    s: usize,
    path: &mut [u32],
) -> Trail
    requires directions_at { DirectionsAt n steps.now opposite.now }
    requires lent { Lent n p.now q.now row.now places.old first.old second.old spare.old × Words n path.old }
    requires s_lt_n { (s < n) × (member row.now s ≡ not all) × Labelled n (member row.now) (λ t. Paths (quant all) (step_of n (edges_at steps.now)) t (Said op (So (member p.now)) (So (member q.now)))) }
    ensures { Witness (quant all) op n (step_of n (edges_at steps.now)) (So (member p.now)) (So (member q.now)) s path.old path.new result.length result.turn }
{
    bits::below(n, places);
    let of = Operands {
        places: &*places,
        p: p,
        q: q,
    };
    if all {
        return against(
            op, n, steps, opposite, of, row, first, second, spare, s, path,
        );
    }
    bits::difference(of.places, row, first);
    bears(op, n, steps, opposite, of, &*first, spare, s, path)
}
