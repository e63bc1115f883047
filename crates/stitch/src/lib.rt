// Stitching: the loops among the walks along listed edges, and the counts of edges.
#![tactic(auto)]

pub mod alone;

ghost use Rattle.std.specs.Prelude.{◌≡◌, cond, false, true, reverse, ◌*◌, ◌+◌, ◌/◌, ◌<◌, ◌≤◌, get_or, length, replicate};
ghost use Rattle.std.proofs.Math.Seq.{paste};
ghost use Rattle.vector.specs.Rows.{all_rows, all_segs};
ghost use Rattle.walk.specs.Walk.{point_at, walks};
ghost use Rattle.walk.specs.Code.{Below};
ghost use Rattle.stitch.specs.Stitch.{cross2, in_walks, kind_by, pinches, plus_walk, repeated, rule_by, signed_area, turned};
ghost use Rattle.stitch.specs.Claim.{ComparisonsOf};
ghost use Rattle.stitch.specs.Entry.{strictness_of};
ghost use Rattle.stitch.specs.Code.{Counting, Finished, Finishing, Spare, Stitchable, Stitches, Turn, Wrote, edges_in};

use walk::Graph;
use weld::Edge;

// How many points, nodes and loops were written, and the counts of edges.
#[derive(Clone, Copy)]
pub struct Stitched {
    pub points: usize,
    pub nodes: usize,
    pub loops: usize,
    pub counts: Counts,
}

// Edges: how many are listed, and how many of them are in walks that are loops, pinched, flat or open.
#[derive(Clone, Copy)]
pub struct Counts {
    pub listed: usize,
    pub in_loops: usize,
    pub pinched: usize,
    pub flat: usize,
    pub opened: usize,
}

// What stitching segments gives: the above, and how many comparisons of points welding made.
#[derive(Clone, Copy)]
pub struct StitchedSegments {
    pub stitched: Stitched,
    pub comparisons: usize,
}

// What a walk is.
#[derive(Clone, Copy)]
pub enum Kind {
    Loop,
    Pinched,
    Flat,
    Open,
}

impl Counts {
    // The counts with so many edges more, in a walk of this kind.
    fn plus(self, kind: Kind, edges: usize) -> Counts
        requires { in_walks self + edges < 65536 }
        ensures { result ≡ plus_walk kind edges self }
    {
        match kind {
            Kind::Loop => Counts {
                in_loops: self.in_loops + edges,
                ..self
            },
            Kind::Pinched => Counts {
                pinched: self.pinched + edges,
                ..self
            },
            Kind::Flat => Counts {
                flat: self.flat + edges,
                ..self
            },
            Kind::Open => Counts {
                opened: self.opened + edges,
                ..self
            },
        }
    }
}

// Which closed walks are loops. In the usual way, the Rust's, one that passes a point twice is as any other; in the strict way it is
// pinched, and not returned.
#[derive(Clone, Copy)]
pub enum Strictness {
    Usual,
    Strict,
}

// By a yes or no, as C hands it over: 0 is no.
impl From<u8> for Strictness {
    ghost from_gives = { λ strict strictness. strictness ≡ strictness_of strict };

    fn from(strict: u8) -> Self {
        match strict {
            0 => Strictness::Usual,
            _ => Strictness::Strict,
        }
    }
}

// What decides that a closed walk is a loop: the squared tolerance, and the way.
#[derive(Clone, Copy)]
pub struct Rule {
    pub tol2: f64,
    pub strictness: Strictness,
}

// Stitches the plane segments of a single cell, four numbers each, into closed loops.
//
// Writes the welded points, the nodes of the loops and where each loop ends among them. A loop whose area is negative
// is reversed. Most cells give at most 16 segments, whose small tables take less time to clear. The lent buffers stand one by one here and
// below: a struct of them would have to promise in each function that they stay lent.
pub fn stitch_segments(
    segments: &[f64],
    strictness: Strictness,
    tol: f64,
    numbers: &mut [f64],
    nodes: &mut [u32],
    ends: &mut [u32],
) -> StitchedSegments
    requires { Stitchable (length segments.now / 4) numbers.old nodes.old ends.old }
    ensures { Stitches (rule_by strictness tol) (all_segs 2 segments.now) result.stitched
        numbers.old numbers.new nodes.old nodes.new ends.old ends.new
        × ComparisonsOf (rule_by strictness tol).tol2 (all_segs 2 segments.now) result.comparisons }
{
    let rule = Rule {
        tol2: tol * tol,
        strictness,
    };
    if segments.len() / 4 <= 16 {
        return stitch_within::<16, 17, 32>(segments, rule, numbers, nodes, ends);
    }
    stitch_within::<384, 385, 768>(segments, rule, numbers, nodes, ends)
}

// Stitches by a rule, with tables for EDGES segments, for the NODES of a walk along them and for their POINTS points, and marks for all 384
// places.
fn stitch_within<const EDGES: usize, const NODES: usize, const POINTS: usize>(
    segments: &[f64],
    rule: Rule,
    numbers: &mut [f64],
    nodes: &mut [u32],
    ends: &mut [u32],
) -> StitchedSegments
    requires { Stitchable (length segments.now / 4) numbers.old nodes.old ends.old
        × (length segments.now / 4 ≤ EDGES) × (EDGES < NODES) × (NODES ≤ 385) × (2 * EDGES ≤ POINTS) × (POINTS ≤ 768) }
    ensures { Stitches rule (all_segs 2 segments.now) result.stitched
        numbers.old numbers.new nodes.old nodes.new ends.old ends.new
        × ComparisonsOf rule.tol2 (all_segs 2 segments.now) result.comparisons }
{
    let mut edges = [Edge {
        smaller: 0,
        larger: 0,
    }; EDGES];
    let mut used = [false; 384];
    let mut walked = [0; NODES];
    let mut past = [0; POINTS];
    let w = weld::weld(segments, rule.tol2, numbers, &mut edges);
    walk::past_edges(&edges[..w.edges], &mut past);
    let graph = Graph {
        points: &numbers[..2 * w.points],
        edges: &edges[..w.edges],
        past: &past,
    };
    let tally = stitch_edges(&graph, rule, &mut used[..w.edges], &mut walked, nodes, ends);
    StitchedSegments {
        stitched: Stitched {
            points: w.points,
            nodes: tally.counts.in_loops,
            loops: tally.loops,
            counts: tally.counts,
        },
        comparisons: w.comparisons,
    }
}

// What the walks so far have given: the loops, and the counts of edges. Loops have as many nodes as edges.
#[derive(Clone, Copy)]
struct Tally {
    loops: usize,
    counts: Counts,
}

// Walks from each unused edge in listed order, and writes the loops. The graph and the rule stand one by one, since the graph is walk's.
fn stitch_edges(
    graph: &Graph,
    rule: Rule,
    used: &mut [bool],
    walked: &mut [u32],
    nodes: &mut [u32],
    ends: &mut [u32],
) -> Tally
    requires { Spare graph.now.edges.now walked.old nodes.old ends.old
        × (used.old ≡ replicate (length graph.now.edges.now) false) × (length graph.now.points.now / 2 ≤ 768) }
    ensures { Wrote (all_rows 2 graph.now.points.now) rule (length graph.now.edges.now)
        (walks (all_rows 2 graph.now.points.now) graph.now.edges.now) result
        nodes.old nodes.new ends.old ends.new }
{
    let mut tally = Tally {
        loops: 0,
        counts: Counts {
            listed: graph.edges.len(),
            in_loops: 0,
            pinched: 0,
            flat: 0,
            opened: 0,
        },
    };
    for k in 0..graph.edges.len() {
        stitch_from(graph, k, rule, used, walked, nodes, ends, &mut tally);
    }
    tally
}

// Walks from edge k, unless it is used already.
fn stitch_from(
    graph: &Graph,
    k: usize,
    rule: Rule,
    used: &mut [bool],
    walked: &mut [u32],
    nodes: &mut [u32],
    ends: &mut [u32],
    tally: &mut Tally,
)
    requires { Spare graph.now.edges.now walked.old nodes.old ends.old × (k < length graph.now.edges.now)
        × (length used.old ≡ length graph.now.edges.now) × Counting tally.old used.old
        × (length graph.now.points.now / 2 ≤ 768) }
    ensures { Turn (all_rows 2 graph.now.points.now) graph.now.edges.now rule
        k (get_or used.old k true) used.old tally.old nodes.old ends.old
        used.new tally.new nodes.new ends.new }
{
    if used[k] {
        return;
    }
    let w = graph.walk(k, used, walked);
    finish(
        graph,
        &walked[..w.nodes],
        w.closed,
        rule,
        nodes,
        ends,
        tally,
    );
}

// Ends a walk: its nodes are written if it is a loop, and its edges are counted. A closed walk has three
// nodes at least (`three` of the claim), so that is not tested. `closed` stands beside the nodes as in `Walked`, and why.
fn finish(
    graph: &Graph,
    walked: &[u32],
    closed: bool,
    rule: Rule,
    nodes: &mut [u32],
    ends: &mut [u32],
    tally: &mut Tally,
)
    requires { Finishing (length graph.now.points.now / 2) walked.now closed tally.old nodes.old ends.old }
    ensures { Finished (kind_by (all_rows 2 graph.now.points.now) rule closed walked.now)
        (turned (all_rows 2 graph.now.points.now) walked.now)
        (edges_in closed (length walked.now)) tally.old nodes.old ends.old tally.new
        nodes.new ends.new }
{
    let m = walked.len();
    let counts = tally.counts;
    if !closed {
        tally.counts = counts.plus(Kind::Open, m - 1);
        return;
    }
    if is_pinched(walked, rule.strictness) {
        tally.counts = counts.plus(Kind::Pinched, m);
        return;
    }
    let area = signed_area(graph, walked);
    if rule.tol2 < vector::absolute(area) {
        put_loop(walked, area < 0.0, nodes, counts.in_loops);
        ends[tally.loops] = (counts.in_loops + m) as u32;
        tally.loops += 1;
        tally.counts = counts.plus(Kind::Loop, m);
        return;
    }
    tally.counts = counts.plus(Kind::Flat, m);
}

// Whether a closed walk with these nodes is pinched.
fn is_pinched(nodes: &[u32], strictness: Strictness) -> bool
    requires { Below 768 nodes.now }
    ensures { result ≡ pinches strictness nodes.now }
{
    match strictness {
        Strictness::Usual => false,
        Strictness::Strict => has_repeated(nodes),
    }
}

// Whether some node stands twice, by a mark for each point. Not inlined, so that the marks are cleared in the strict way only.
#[inline(never)]
fn has_repeated(nodes: &[u32]) -> bool
    requires { Below 768 nodes.now }
    ensures { result ≡ repeated nodes.now }
{
    let mut seen = [false; 768];
    for &node in nodes {
        if seen[node as usize] {
            return true;
        }
        seen[node as usize] = true;
    }
    false
}

// Half the sum of the cross products of cyclic neighbours.
fn signed_area(graph: &Graph, nodes: &[u32]) -> f64
    requires { (0 < length nodes.now) × Below (length graph.now.points.now / 2) nodes.now }
    ensures { result ≡ signed_area (all_rows 2 graph.now.points.now) nodes.now }
{
    let last = nodes.len() - 1;
    let mut area2 = 0.0;
    for i in 0..last {
        area2 += cross_at(graph, nodes[i], nodes[i + 1]);
    }
    (area2 + cross_at(graph, nodes[last], nodes[0])) / 2.0
}

// The cross product of the points a and b.
fn cross_at(graph: &Graph, a: u32, b: u32) -> f64
    requires { (a < length graph.now.points.now / 2) × (b < length graph.now.points.now / 2) }
    ensures { result ≡ cross2 (point_at (all_rows 2 graph.now.points.now) a)
        (point_at (all_rows 2 graph.now.points.now) b) }
{
    let p = graph.point(a);
    let q = graph.point(b);
    p[0] * q[1] - q[0] * p[1]
}

// Writes the nodes of a loop from `at` on, reversed as a whole if asked.
fn put_loop(nodes: &[u32], reversed: bool, out: &mut [u32], at: usize)
    requires { at + length nodes.now ≤ length out.old }
    ensures { out.new ≡ paste out.old at
        (cond reversed (reverse nodes.now) nodes.now) (length nodes.now) }
{
    let part = &mut out[at..at + nodes.len()];
    put_nodes(nodes, part);
    if reversed {
        part.reverse();
    }
}

// Writes nodes over a slice of their length, one by one: `copy_from_slice` calls `memmove`, which the linked library would need from the
// C library for this alone.
fn put_nodes(nodes: &[u32], out: &mut [u32])
    requires { length out.old ≡ length nodes.now }
    ensures { out.new ≡ nodes.now }
{
    for (j, &node) in nodes.iter().enumerate() {
        out[j] = node;
    }
}
