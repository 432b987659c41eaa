// Least starts over edges with lengths of any ordered kind, or a circuit whose joined length is above neutral.
#![tactic(auto)]

ghost use Rattle.std.specs.Prelude.{◌≡◌, if◌then◌else◌, ◌↔◌, ◌≢◌, ℕ, ◌+◌, ◌-◌, ◌<◌, ◌≤◌, length, take, Option, None, IfSome, IfNone, IfOk, IsTrue, All, MatchOption, MatchResult, slice_index};
ghost use Rattle.lengths.specs.Laws.{comes_before};
ghost use Rattle.search.specs.Terms.{begins, ends, Searchable, EdgeCircuit, LeastStarts};
ghost use Rattle.search.specs.Levels.{EdgeFits, Joinable, Level, Levelled, Marked, LowestAt, Rising};
ghost use Rattle.search.specs.Answer.{Asked, Answered, NeutralPast};

use arrayvec::ArrayVec;
use lengths::OrderedLength;
use std::fmt;
use std::marker::Model;
use std::ops::DerefSlice;

// The node `to` starts at least the length after the node `from`.
#[derive(Clone, Copy, Debug, PartialEq, Eq)]
pub struct Edge<L> {
    pub from: usize,
    pub to: usize,
    pub length: L,
}

// A chain as it is walked: its edges in their order, each by its place among the edges that are searched.
type Chain = ArrayVec<usize, 64>;

// A circuit: its edges in their order, each by its place among the edges that were searched.
// An array with a count, since an `ArrayVec` is never `Copy`. Zeros stand behind the edges, so that the edges alone make the value.
#[derive(Clone, Copy, PartialEq, Eq)]
pub struct Circuit {
    edges: [usize; 64],
    count: usize,
}

impl Model for Circuit {
    ghost use Rattle.std.specs.Prelude.{◌≡◌, ℕ, ◌-◌, ◌≤◌, List, ◌++◌, length, take, drop, replicate};
    ghost use Rattle.std.proofs.Common.{sym, ap, ◌∙◌, arith, take-append-drop, length-take-le};

    ghost Value = { List ℕ };

    ghost view = { λ c. take c.count c.edges };

    ghost invariant = { λ c. (c.count ≤ 64) × (length c.edges ≡ 64) × (drop c.count c.edges ≡ replicate (64 - c.count) 0) };

    ghost inverse = { λ edges. record { edges = edges ++ replicate (64 - length edges) 0; count = length edges } };

    ghost inverse_ok = { λ c h i. record {
      edges = (ap (λ n. take c.count c.edges ++ replicate (64 - n) 0) (length-take-le c.count c.edges (omega (arith, h.0, h.1)))
          ∙ ap (λ rest. take c.count c.edges ++ rest) (sym h.2) ∙ take-append-drop c.count c.edges) i;
      count = length-take-le c.count c.edges (omega (arith, h.0, h.1)) i;
    } };
}

impl Circuit {
    // The circuit of a chain's edges.
    pub fn new(chain: &ArrayVec<usize, 64>) -> Circuit
        ensures { result ≡ chain.now.items }
    {
        let mut edges = [0; 64];
        let count = chain.len();
        edges[..count].copy_from_slice(chain);
        Circuit { edges, count }
    }

    // The edges.
    pub fn as_slice(&self) -> &[usize]
        ensures edges { result.now ≡ self.now }
        ensures few { length result.now ≤ 64 }
    {
        &self.edges[..self.count]
    }
}

impl DerefSlice for Circuit {
    type Elem = usize;

    ghost deref_gives = { λ c edges. (edges ≡ c) × (length edges ≤ 64) };

    fn deref(&self) -> &[usize] {
        self.as_slice()
    }
}

// By hand: a list of the edges, with nothing of the zeros behind them.
impl fmt::Debug for Circuit {
    fn fmt<W: fmt::Write>(&self, f: &mut fmt::Formatter<W>) -> fmt::Result {
        f.debug_list().entries(self.as_slice()).finish()
    }
}

// Why there are no least starts.
#[derive(Clone, Copy, Debug, PartialEq, Eq)]
pub enum SearchError {
    // The edges cannot be searched.
    Unsearchable,
    // This circuit is above neutral.
    Above(Circuit),
}

impl<L: OrderedLength> Edge<L> {
    // Whether the edge joins two of the nodes and 64 lengths of its size can be joined.
    fn fits(&self, nodes: usize) -> bool
        ensures { IsTrue result ↔ EdgeFits L.size L.LARGEST nodes self.now }
    {
        self.from < nodes && self.to < nodes && self.length.measure() <= L::LARGEST / 64
    }
}

// Raises the length to the one that is reached, where that is greater, and says whether it was so.
fn raise<L: OrderedLength>(length: &mut L, reached: L) -> bool
    ensures greater { result ≡ comes_before L.cmp length.old reached }
    ensures raised { length.new ≡ (if result then reached else length.old) }
{
    let greater = *length < reached;
    if greater {
        *length = reached;
    }
    greater
}

// Whether each edge fits.
fn all_fit<L: OrderedLength>(nodes: usize, edges: &[Edge<L>]) -> bool
    ensures { IsTrue result ↔ All (EdgeFits L.size L.LARGEST nodes) edges.now }
{
    edges.iter().all(|edge| edge.fits(nodes))
}

// Edges that can be searched, over the nodes below `nodes`.
#[derive(Drop)]
struct Graph<'a, L: OrderedLength> {
    nodes: usize,
    edges: &'a [Edge<L>],
    ghost searchable: { Searchable L.neutral L.size L.LARGEST nodes edges.now },
}

impl<'a, L: OrderedLength> Graph<'a, L> {
    // The graph of the edges, where they can be searched.
    fn new(nodes: usize, edges: &'a [Edge<L>]) -> Option<Graph<'a, L>>
        ensures same { IfSome result (λ g. (g.nodes ≡ nodes) × (g.edges.now ≡ edges.now)) }
        ensures refused { IfNone result (Searchable L.neutral L.size L.LARGEST nodes edges.now → ⊥) }
    {
        if nodes > 64 || !all_fit(nodes, edges) {
            return None;
        }
        Some(Graph { nodes, edges })
    }

    // That a number is an edge's is asked of these and of chains: a type for it would be the number with the same fact, made at each use.
    // The node where the edge begins.
    fn begin_of(&self, edge: usize) -> usize
        requires { edge < length self.now.edges.now }
        ensures { result ≡ begins self.now.edges.now edge }
    {
        self.edges[edge].from
    }

    // The node where the edge ends.
    fn end_of(&self, edge: usize) -> usize
        requires { edge < length self.now.edges.now }
        ensures { result ≡ ends self.now.edges.now edge }
    {
        self.edges[edge].to
    }

    // The level after `before`, into `best`: the greatest length of a chain with at most one edge more. It answers a node that was raised.
    fn next_level(
        &self,
        before: &[L; 64],
        best: &mut [L; 64],
        via: &mut [Option<usize>; 64],
    ) -> Option<usize>
        requires { Joinable L.neutral L.size L.LARGEST self.now.edges.now before.now }
        ensures { Level L.neutral L.joined (comes_before L.cmp) self.now.edges.now (length self.now.edges.now) before.now best.new via.new result }
    {
        *best = *before;
        *via = [None; 64];
        let mut raised = None;
        for (i, edge) in self.edges.iter().enumerate() {
            let reached = before[edge.from].join(edge.length);
            if raise(&mut best[edge.to], reached) {
                via[edge.to] = Some(i);
                raised = Some(edge.to);
            }
        }
        raised
    }

    // The place in the chain whose edge begins at the lowest node.
    fn lowest_place(&self, chain: &[usize]) -> usize
        requires some { 1 ≤ length chain.now }
        requires known { All (λ e. e < length self.now.edges.now) chain.now }
        ensures { LowestAt self.now.edges.now chain.now result }
    {
        // `min_by_key` on the numbered edges says this in one line, but what it asks of a closure with a condition was not proved (tried four ways).
        let mut place = 0;
        for (t, edge) in chain.iter().enumerate() {
            if self.begin_of(*edge) < self.begin_of(chain[place]) {
                place = t;
            }
        }
        place
    }

    // The circuit of the closed chain that rises, from its lowest node.
    fn from_lowest(&self, mut chain: Chain) -> Circuit
        requires { Rising L.neutral L.joined (comes_before L.cmp) self.now.edges.now chain.items }
        ensures { EdgeCircuit L.neutral L.joined (comes_before L.cmp) self.now.edges.now result }
    {
        let lowest = self.lowest_place(&chain);
        chain.rotate_left(lowest);
        Circuit::new(&chain)
    }

    // The circuit of the chain up to and with the edge at the place.
    fn circuit_to(&self, mut chain: Chain, place: usize) -> Circuit
        requires inside { place < length chain.items }
        requires rising { Rising L.neutral L.joined (comes_before L.cmp) self.now.edges.now (take (place + 1) chain.items) }
        ensures { EdgeCircuit L.neutral L.joined (comes_before L.cmp) self.now.edges.now result }
    {
        chain.truncate(place + 1);
        self.from_lowest(chain)
    }

    // The first place in the chain whose edge ends at the node.
    fn place_of_end(&self, chain: &[usize], node: usize) -> Option<usize>
        requires { All (λ e. e < length self.now.edges.now) chain.now }
        ensures { MatchOption result (All (λ e. ends self.now.edges.now e ≢ node) chain.now) (λ place. (place < length chain.now) × (ends self.now.edges.now (slice_index chain.now place) ≡ node)) }
    {
        chain.iter().position(|edge| self.end_of(*edge) == node)
    }

    // The last level still raised `last`: the walk back from there comes to a node twice, and what lies between is above neutral.
    fn walked_back(&self, vias: &[[Option<usize>; 64]], last: usize) -> Circuit
        requires levels { Levelled L.neutral L.joined (comes_before L.cmp) self.now.edges.now vias.now self.now.nodes }
        requires raised { Marked vias.now self.now.nodes last }
        requires node { last < self.now.nodes }
        requires all { length vias.now ≡ self.now.nodes }
        ensures { EdgeCircuit L.neutral L.joined (comes_before L.cmp) self.now.edges.now result }
    {
        let mut chain = ArrayVec::new();
        let mut node = last;
        for via in vias.iter().rev() {
            let Some(edge) = via[node] else { unreachable() };
            chain.insert(0, edge);
            node = self.begin_of(edge);
            if let Some(place) = self.place_of_end(&chain, node) {
                return self.circuit_to(chain, place);
            }
        }
        unreachable()
    }

    // By node in an array: a kind of length has no blank, which an ArrayVec would need for its unused places.
    // Level after level, from neutral everywhere: the first that raises nothing has the least starts, and the last has a circuit behind it.
    fn search(&self) -> Result<[L; 64], Circuit>
        ensures found { MatchResult result (LeastStarts L.neutral L.joined (comes_before L.cmp) self.now.nodes self.now.edges.now) (λ c. EdgeCircuit L.neutral L.joined (comes_before L.cmp) self.now.edges.now c) }
        ensures past { IfOk result (NeutralPast L.neutral self.now.nodes) }
    {
        let mut starts = [L::none(); 64];
        let mut next = starts;
        let mut vias = [[None; 64]; 64];
        let vias = &mut vias[..self.nodes];
        let mut last = None;
        for via in vias.iter_mut() {
            let Some(node) = self.next_level(&starts, &mut next, via) else {
                return Ok(starts);
            };
            last = Some(node);
            starts = next;
        }
        match last {
            None => Ok(starts),
            Some(node) => Err(self.walked_back(vias, node)),
        }
    }
}

// The least starts of the nodes, and neutral past the last node, or why there are none.
pub fn least_starts<L: OrderedLength>(
    nodes: usize,
    edges: &[Edge<L>],
) -> Result<[L; 64], SearchError>
    ensures asked { Asked L.neutral L.size L.LARGEST nodes edges.now result }
    ensures answered { Answered L.neutral L.joined (comes_before L.cmp) nodes edges.now result }
    ensures past { IfOk result (NeutralPast L.neutral nodes) }
{
    let Some(graph) = Graph::new(nodes, edges) else {
        return Err(SearchError::Unsearchable);
    };
    graph.search().map_err(SearchError::Above)
}
