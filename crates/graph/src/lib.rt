// Graphs as lists of edges, and whether the steps of a place lead into a set. The lists stand in lent slices, those of one direction
// in one slice of ENTRIES numbers, with one of the heads for each place.
#![tactic(auto)]

ghost use Rattle.std.specs.Prelude.{◌≡◌, true, ◌↔◌, ℕ, ◌*◌, ◌≤◌, ◌<◌, length};
ghost use Rattle.bits.specs.Row.{member};
ghost use Rattle.ctl.specs.Paths.{quant, So};
ghost use Rattle.ctl.specs.Tables.{Onto};
ghost use Rattle.graph.specs.Lists.{step, Linked, Blank};
ghost use Rattle.graph.specs.Graphs.{places, entries, edges_at, head_of, ListsAt, Room, Added};

// The most places of a graph, and their edges.
pub const PLACES: usize = 1024;

pub const EDGES: usize = 3 * PLACES;

// The numbers of one direction: the heads, the links, then the targets.
pub const ENTRIES: usize = PLACES + (EDGES + EDGES);

// An entry as a number to index by.
pub fn wide(x: u16) -> usize
    ensures { result ≡ x }
{
    usize::from(x)
}

// No edges.
pub fn clear(head: &mut [u16])
    ensures { Blank head.new }
{
    head.fill(0);
}

// A slice's entries, copied.
pub fn copy(from: &[u16], to: &mut [u16])
    requires { length to.old ≡ length from.now }
    ensures { to.new ≡ from.now }
{
    for k in 0..from.len() {
        to[k] = from[k];
    }
}

// One edge more, from s to t. Returns the number of edges.
pub fn add(edges: &mut [u16], count: usize, s: usize, t: usize) -> usize
    requires { Room edges.old count s t }
    ensures { (n : ℕ) → n ≤ places → s < n → t < n → ListsAt n edges.old count → Added n edges.old edges.new count s t result }
{
    edges[PLACES + count] = edges[s];
    edges[PLACES + EDGES + count] = t as u16;
    edges[s] = (count + 1) as u16;
    count + 1
}

// The lists of one direction: the place of a list's first edge stands in `head`, the next edge of the same place in `link`, and
// where an edge leads in `to`.
#[derive(Clone, Copy)]
pub struct Edges<'a> {
    pub head: &'a [u16],
    pub link: &'a [u16],
    pub to: &'a [u16],
}

impl<'a> Edges<'a> {
    // The lists of the first n places that stand in lent numbers.
    pub fn of(n: usize, numbers: &'a [u16]) -> Edges<'a>
        requires { (n ≤ places) × (length numbers.now ≡ entries) }
        ensures head { result.head.now ≡ head_of n (edges_at numbers.now) }
        ensures link { result.link.now ≡ (edges_at numbers.now).link }
        ensures to { result.to.now ≡ (edges_at numbers.now).to }
    {
        Edges {
            head: &numbers[..n],
            link: &numbers[PLACES..PLACES + EDGES],
            to: &numbers[PLACES + EDGES..ENTRIES],
        }
    }

    // Whether some step of s leads to a place that is in the set, or to one that is not: as `want` says.
    fn meets(self, s: usize, set: &[u64], want: bool) -> bool
        requires linked { Linked self.head.now self.link.now self.to.now }
        requires s_in_bounds { (s < length self.head.now) × (length self.head.now ≤ length set.now * 64) }
        ensures { (result ≡ true) ↔ ((t : ℕ) × (step self.entry.head.now self.entry.link.now self.entry.to.now s t ≡ true) × (member set.now t ≡ want)) }
    {
        let mut k = usize::from(self.head[s]);
        // No index is counted here: k follows the links of a list.
        while k > 0 {
            let e = k - 1;
            if bits::contains(set, usize::from(self.to[e])) == want {
                return true;
            }
            k = usize::from(self.link[e]);
        }
        false
    }

    // Whether some step of s leads into the set, or all steps: as `all` says.
    pub fn onto(self, all: bool, s: usize, set: &[u64]) -> bool
        requires linked { Linked self.head.now self.link.now self.to.now }
        requires s_in_bounds { (s < length self.head.now) × (length self.head.now ≤ length set.now * 64) }
        ensures { (result ≡ true) ↔ Onto (quant all) (step self.entry.head.now self.entry.link.now self.entry.to.now) (So (member set.now)) s }
    {
        self.meets(s, set, !all) != all
    }
}
