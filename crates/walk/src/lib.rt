// The walk along listed edges: the junction's choice of the next edge, and the nodes that a walk reaches.
#![tactic(auto)]

ghost use Rattle.std.specs.Prelude.{◌≡◌, false, not, true, ◌&&◌, ◌||◌, ◌+◌, ◌/◌, ◌<◌, ◌≤◌, eqb, get_or, length, replicate};
ghost use Rattle.vector.specs.Rows.{all_rows};
ghost use Rattle.weld.specs.Weld.{Within};
ghost use Rattle.walk.specs.Walk.{clamp, cosine_at, cosine_to, next_edge, point_at, straightest, touches, walk_from};
ghost use Rattle.walk.specs.Code.{Arrived, FirstFrom, NoneFrom, Went};
ghost use Rattle.walk.specs.Code.{ahead, better, cosine_for};

use weld::Edge;

// Points, the edges between them, and for each point a number from which on no edge ends there. The slice of points holds just those, two
// numbers each: it is of the caller's numbers, so nothing stands in it beside the coordinates. A walk marks the edges that it uses in a
// slice of its own, since the graph is only read.
#[derive(Clone, Copy)]
pub struct Graph<'a> {
    pub points: &'a [f64],
    pub edges: &'a [Edge],
    pub past: &'a [u32],
    pub ghost within: { Within edges.now (length points.now / 2) },
    pub ghost past_room: { length points.now / 2 ≤ length past.now },
    pub ghost none_past: { NoneFrom edges.now past.now },
}

// What walking from an edge found: how many nodes, and whether it came back to its start. An open walk has nodes too, so this is no
// Option.
#[derive(Clone, Copy)]
pub struct Walked {
    pub nodes: usize,
    pub closed: bool,
}

impl Graph<'_> {
    // The point number a.
    pub fn point(&self, a: u32) -> [f64; 2]
        requires { a < length self.now.points.now / 2 }
        ensures { result ≡ point_at (all_rows 2 self.now.points.now) a }
    {
        vector::coord(self.points, a as usize)
    }

    // Walks from the edge start_edge, at its smaller point, along unused edges, until it is back or no
    // unused edge is left. Its edges stay used, also those of an open walk.
    pub fn walk(&self, start_edge: usize, used: &mut [bool], nodes: &mut [u32]) -> Walked
        requires { (start_edge < length self.now.edges.now)
            × (length used.old ≡ length self.now.edges.now) × (length self.now.edges.now < length nodes.old)
            × (get_or used.old start_edge true ≡ false) }
        ensures { Went
            (walk_from (all_rows 2 self.now.points.now) self.now.edges.now start_edge used.old)
            result.nodes result.closed used.new nodes.new }
    {
        let start_node = self.edges[start_edge].smaller;
        used[start_edge] = true;
        nodes[0] = start_node;
        let mut count = 1;
        let mut previous = start_node;
        let mut current = self.edges[start_edge].larger;
        while current != start_node {
            nodes[count] = current;
            let step = Step {
                graph: &*self,
                used: &*used,
                previous,
                current,
            };
            let Some(next_edge) = step.select_next_edge() else {
                return Walked {
                    nodes: count + 1,
                    closed: false,
                };
            };
            used[next_edge] = true;
            previous = current;
            current = self.edges[next_edge].other(current);
            count += 1;
        }
        Walked {
            nodes: count,
            closed: true,
        }
    }

    // The first unused edge at current, from edge k on. Not inlined, and no method of Step: with one, 384 segments took 4 % longer.
    #[inline(never)]
    fn first_available(&self, used: &[bool], current: u32, k: usize) -> Option<usize>
        requires { (length used.now ≡ length self.now.edges.now) × (current < length self.now.points.now / 2) }
        ensures { FirstFrom current self.now.edges.now used.now k result }
    {
        let edges = self.edges;
        for j in k..self.past[current as usize] as usize {
            if is_available(edges[j], current, used[j]) {
                return Some(j);
            }
        }
        None
    }
}

// Where a walk is: which edges are used, the point that it came from, and the point that it is at.
#[derive(Clone, Copy)]
struct Step<'a> {
    graph: &'a Graph<'a>,
    used: &'a [bool],
    previous: u32,
    current: u32,
    ghost alike: { length used.now ≡ length graph.now.edges.now },
    ghost from: { previous < length graph.now.points.now / 2 },
    ghost at: { current < length graph.now.points.now / 2 },
}

impl Step<'_> {
    // Chooses the next edge of a walk. In the usual degree-2 case the choice is unique, and no root is
    // taken. At a degenerate node, the straightest continuation is used.
    fn select_next_edge(&self) -> Option<usize>
        ensures { let g = self.now.graph.now in
            result ≡ next_edge (all_rows 2 g.points.now) g.edges.now self.now.used.now self.now.previous self.now.current }
    {
        let Step {
            graph,
            used,
            current,
            ..
        } = *self;
        let first = graph.first_available(used, current, 0)?;
        let Some(second) = graph.first_available(used, current, first + 1) else {
            return Some(first);
        };
        Some(self.straightest(first, second))
    }

    // Of the unused edges at the current point, of which these are the first two, the one with the largest cosine.
    fn straightest(&self, first: usize, second: usize) -> usize
        requires { (first < length self.now.graph.now.edges.now) × (second < length self.now.graph.now.edges.now) }
        ensures { let g = self.now.graph.now in
            let f = cosine_at (all_rows 2 g.points.now) g.edges.now self.now.previous self.now.current in
            result ≡ straightest f first (f first) (ahead self.now.current g.edges.now self.now.used.now (Some second)) }
    {
        let arrival = self.arrive();
        let mut best = Best {
            edge: first,
            cosine: self.cosine_along(arrival, first),
        };
        let mut next = Some(second);
        while let Some(k) = next {
            best = best.or(k, self.cosine_along(arrival, k));
            next = self.graph.first_available(self.used, self.current, k + 1);
        }
        best.edge
    }

    // The arrival at the current point from the previous one.
    fn arrive(&self) -> Arrival
        ensures { let g = self.now.graph.now in
            Arrived (all_rows 2 g.points.now) self.now.previous self.now.current result }
    {
        let at = self.graph.point(self.current);
        let incoming = vector::minus(at, self.graph.point(self.previous));
        let norm = root::sqrt(vector::dot(incoming, incoming));
        Arrival {
            node: self.current,
            at,
            incoming,
            norm,
        }
    }

    // The cosine of edge k after an arrival.
    fn cosine_along(&self, arrival: Arrival, k: usize) -> f64
        requires { k < length self.now.graph.now.edges.now }
        ensures { let g = self.now.graph.now in result ≡ cosine_for arrival (all_rows 2 g.points.now) g.edges.now k }
    {
        let next = self.graph.edges[k].other(arrival.node);
        arrival.cosine(self.graph.point(next))
    }
}

// Whether an edge ends at c and is unused.
fn is_available(edge: Edge, c: u32, used: bool) -> bool
    ensures { result ≡ not used && touches c edge }
{
    !used && edge.touches(c)
}

// A walk's arrival at a node: where that is, the step to it, and that step's norm.
#[derive(Clone, Copy)]
struct Arrival {
    node: u32,
    at: [f64; 2],
    incoming: [f64; 2],
    norm: f64,
}

impl Arrival {
    // The cosine between the incoming step and the step on to next, cut to -1..1.
    fn cosine(self, next: [f64; 2]) -> f64
        ensures { result ≡ cosine_to self.incoming self.norm self.at next }
    {
        let outgoing = vector::minus(next, self.at);
        let norm = root::sqrt(vector::dot(outgoing, outgoing));
        clamp(vector::dot(self.incoming, outgoing) / (self.norm * norm))
    }
}

// x cut to -1..1; a NaN stays.
fn clamp(x: f64) -> f64
    ensures { result ≡ clamp x }
{
    x.clamp(-1.0, 1.0)
}

// The straightest edge so far, and its cosine.
#[derive(Clone, Copy)]
struct Best {
    edge: usize,
    cosine: f64,
}

impl Best {
    // A later edge takes over only if its cosine is greater.
    fn or(self, edge: usize, cosine: f64) -> Best
        ensures { result ≡ better self edge cosine }
    {
        if self.cosine < cosine {
            return Best { edge, cosine };
        }
        self
    }
}

// For each of the points the number after its last edge.
pub fn past_edges(edges: &[Edge], past: &mut [u32])
    requires { (length edges.now ≤ 384) × Within edges.now (length past.old)
        × (past.old ≡ replicate (length past.old) 0) }
    ensures { NoneFrom edges.now past.new }
{
    for (k, edge) in edges.iter().enumerate() {
        let after = k as u32 + 1;
        past[edge.smaller as usize] = after;
        past[edge.larger as usize] = after;
    }
}
