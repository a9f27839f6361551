// The control-flow graph of a program: its steps forward and backward as lists of edges.
#![tactic(auto)]

ghost use Rattle.std.specs.Prelude.{◌≡◌, ℕ, ◌+◌, ◌-◌, ◌*◌, ◌≤◌, ◌<◌, length};
ghost use Rattle.program.specs.Program.{most, Targets, WellFormed};
ghost use Rattle.program.specs.Reading.{statements, Held};
ghost use Rattle.bits.specs.Row.{Zeros};
ghost use Rattle.graph.specs.Graphs.{places, edges_at, step_of, ListsAt, Room};
ghost use Rattle.flow.specs.FlowOf.{flow_entries, flow_at, FlowOf};
ghost use Rattle.flow.specs.Edges.{Follow, Inside, Space, Holds, turn, with_edge, steps_below, with_self, steps_back, BothDrawn};

use graph::PLACES;
use language::Statement;
use program::Program;

// The numbers of both directions, forward first.
pub const ENTRIES: usize = graph::ENTRIES + graph::ENTRIES;

// Room for a control-flow graph.
pub fn blank() -> [u16; ENTRIES]
    ensures { Zeros flow_entries result }
{
    [0; ENTRIES]
}

// The successors of a statement, twice the same where it has one.
#[derive(Clone, Copy)]
struct Next {
    first: u16,
    second: u16,
}

// One successor.
fn only(s: usize) -> Next
    requires { s ≤ places }
    ensures { (result.first ≡ s) × (result.second ≡ s) }
{
    Next {
        first: s as u16,
        second: s as u16,
    }
}

// The place of statement n.
fn place(n: u32) -> u16
    requires { (0 < n) × (n ≤ places) }
    ensures { result ≡ n - 1 }
{
    (n - 1) as u16
}

// Where a statement at place s steps to: `write` to itself, the others to where a run may go.
fn successors_of(e: Statement, s: usize) -> Next
    requires { (s < places) × Targets most e }
    ensures { Follow e s result.first result.second }
{
    match e {
        Statement::Read(_) => only(s + 1),
        Statement::Write(_) => only(s),
        Statement::Assign(_, _) => only(s + 1),
        Statement::Branch(_, n, m) => Next {
            first: place(n),
            second: place(m),
        },
        Statement::Skip => only(s + 1),
    }
}

// An edge from s to t, or from t to s where `turned` says so. Returns the number of edges.
fn add(edges: &mut [u16], count: usize, turned: bool, s: usize, t: usize) -> usize
    requires { Room edges.old count s t }
    ensures { (n : ℕ) → n ≤ places → s < n → t < n → ListsAt n edges.old count → Holds n edges.new result (count + 1) (with_edge (step_of n (edges_at edges.old)) turned s t) }
{
    if turned {
        graph::add(edges, count, t, s)
    } else {
        graph::add(edges, count, s, t)
    }
}

// The steps of the first `sources` of n places, turned around where `turned` says so. Returns the number of edges.
fn connect(
    n: usize,
    first: &[u16],
    second: &[u16],
    sources: usize,
    turned: bool,
    edges: &mut [u16],
) -> usize
    requires inside { Inside first.now second.now sources n }
    requires space { Space n edges.old }
    ensures { Holds n edges.new result (2 * sources) (turn turned (steps_below first.now second.now sources)) }
{
    graph::clear(&mut edges[..n]);
    let mut count: usize = 0;
    for k in 0..sources {
        let a = usize::from(first[k]);
        let b = usize::from(second[k]);
        count = add(edges, count, turned, k, a);
        if a != b {
            count = add(edges, count, turned, k, b);
        }
    }
    count
}

// A step to itself for each of n places that has none. Returns the number of edges.
fn add_self_steps(n: usize, edges: &mut [u16], start: usize) -> usize
    requires lists_at { ListsAt n edges.old start × (start ≤ 2 * n) }
    requires space { Space n edges.old }
    ensures { Holds n edges.new result (3 * n) (with_self n (step_of n (edges_at edges.old)) n) }
{
    let mut count = start;
    for s in 0..n {
        if edges[s] == 0 {
            count = graph::add(edges, count, s, s);
        }
    }
    count
}

// From each of n places to its predecessors, and from a place without any to itself. The last place, `write`, steps forward to itself
// alone, which does not count. Returns the number of edges.
fn connect_back(n: usize, first: &[u16], second: &[u16], edges: &mut [u16]) -> usize
    requires n_nonzero { (0 < n) × Inside first.now second.now n n }
    requires space { Space n edges.old }
    ensures { Holds n edges.new result (3 * n) (steps_back first.now second.now n) }
{
    let last = n - 1;
    let count = connect(n, first, second, last, true, edges);
    add_self_steps(n, edges, count)
}

// The steps of n places with these successors, forward and backward.
fn draw(n: usize, first: &[u16], second: &[u16], flow: &mut [u16])
    requires n_nonzero { (0 < n) × (n ≤ places) × (length flow.old ≡ flow_entries) }
    requires inside { Inside first.now second.now n n }
    ensures { BothDrawn n first.now second.now flow.new }
{
    connect(n, first, second, n, false, &mut flow[..graph::ENTRIES]);
    connect_back(n, first, second, &mut flow[graph::ENTRIES..]);
}

// The control-flow graph of the program.
pub fn of(p: Program, flow: &mut [u16])
    requires held { Held p }
    requires well_formed { WellFormed (statements p) }
    requires flow_len { length flow.old ≡ flow_entries }
    ensures { FlowOf (statements p) (flow_at flow.new) }
{
    let n = p.count;
    let mut first = [0; PLACES];
    let mut second = [0; PLACES];
    for s in 0..n {
        let t = encoding::statement_of(p.entries[s]);
        let r = successors_of(t, s);
        first[s] = r.first;
        second[s] = r.second;
    }
    draw(n, &first, &second, flow);
}
