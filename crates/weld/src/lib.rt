// Welding: the points that the ends of segments become, and the edges between them.
#![tactic(auto)]

ghost use Rattle.std.specs.Prelude.{◌≡◌, ◌+◌, ◌*◌, ◌/◌, ◌^◌, ◌≤◌, ◌<◌, ◌||◌, cond, eqb, length, min, take};
ghost use Rattle.vector.specs.Rows.{all_rows, row, rows, segs};
ghost use Rattle.weld.specs.Weld.{Within, between, compared_ends, comparisons, find, listed};
ghost use Rattle.weld.specs.Code.{Added, Became, SegmentWelded, Weldable, Welds};

// How many points and edges there are, and how many comparisons of points were made.
#[derive(Clone, Copy)]
pub struct Welded {
    pub points: usize,
    pub edges: usize,
    pub comparisons: usize,
}

// Welds segments of four numbers each: their ends become points, and the edges between them are listed.
pub fn weld(segments: &[f64], tol2: f64, points: &mut [f64], edges: &mut [Edge]) -> Welded
    requires { Weldable (length segments.now / 4) points.old edges.old }
    ensures { Welds tol2 segments.now (length segments.now / 4) points.old result.points result.edges
        points.new edges.new
        × (result.comparisons ≡ comparisons tol2 (segs 2 (length segments.now / 4) segments.now)) }
{
    let mut welded = Welded {
        points: 0,
        edges: 0,
        comparisons: 0,
    };
    for i in 0..segments.len() / 4 {
        weld_segment(segments, i, tol2, points, edges, &mut welded);
    }
    welded
}

// Both ends of segment i become points; the edge between them is listed if new. The comparisons are worked out from the points that the
// ends became, since counting them in `find` takes longer.
fn weld_segment(
    segments: &[f64],
    i: usize,
    tol2: f64,
    points: &mut [f64],
    edges: &mut [Edge],
    welded: &mut Welded,
)
    requires { (4 * i + 3 < length segments.now) × (2 * welded.old.points + 3 < length points.old)
        × (welded.old.points + 1 < 2 ^ 32) × (welded.old.edges < length edges.old)
        × Within (take welded.old.edges edges.old) welded.old.points
        × (welded.old.comparisons < 2 ^ 32) }
    ensures { SegmentWelded (row 2 segments.now (2 * i)) (row 2 segments.now (2 * i + 1)) tol2
        welded.old.points points.old welded.old.edges edges.old welded.new.points points.new
        welded.new.edges edges.new
        × (welded.new.comparisons ≡ welded.old.comparisons
        + compared_ends tol2 (row 2 segments.now (2 * i)) (row 2 segments.now (2 * i + 1))
        (rows 2 welded.old.points points.old)) }
{
    let n = welded.points;
    let p = vector::coord(segments, 2 * i);
    let q = vector::coord(segments, 2 * i + 1);
    let a = push_coord(points, &mut welded.points, p, tol2);
    let m = welded.points;
    let b = push_coord(points, &mut welded.points, q, tol2);
    welded.comparisons += compared_with(a, n) + compared_with(b, m);
    add_edge(edges, &mut welded.edges, n, a, b);
}

// How many of n points an end was compared with, by the point k that it became: up to and with k, or with all of them if k is new.
fn compared_with(k: u32, n: usize) -> usize
    ensures { result ≡ min (k + 1) n }
{
    (k as usize + 1).min(n)
}

// Adds p to the n points unless one is near already. Gives the number of the point that it is. The points grow in place in the numbers
// that a caller lends, and the edges in an array: there is no heap.
fn push_coord(points: &mut [f64], n: &mut usize, p: [f64; 2], tol2: f64) -> u32
    requires { (2 * n.old + 1 < length points.old) × (n.old < 2 ^ 32) }
    ensures { Became p tol2 n.old points.old result n.new points.new }
{
    if let Some(k) = find(&points[..2 * *n], p, tol2) {
        return k as u32;
    }
    let k = *n;
    vector::put(points, k, p);
    *n = k + 1;
    k as u32
}

// The number of the first point within the tolerance of p: the first, not the nearest (docs/RULES.md). A loop, since it turns once for
// each end and point: with the iterator's `find`, which proves too, 384 segments took 3 % longer.
fn find(points: &[f64], p: [f64; 2], tol2: f64) -> Option<usize>
    ensures { result ≡ find p tol2 (all_rows 2 points.now) }
{
    for k in 0..points.len() / 2 {
        if vector::dist2(vector::coord(points, k), p) <= tol2 {
            return Some(k);
        }
    }
    None
}

// Adds the edge between points a and b to the m edges, which are between the first n points, unless a and b are one
// point or it is listed already.
fn add_edge(edges: &mut [Edge], m: &mut usize, n: usize, a: u32, b: u32)
    requires { (m.old < length edges.old) × Within (take m.old edges.old) n }
    ensures { Added a b m.old edges.old m.new edges.new }
{
    if a == b {
        return;
    }
    let edge = Edge::between(a, b);
    if known(&edges[..*m], n, edge) {
        return;
    }
    edges[*m] = edge;
    *m += 1;
}

// Whether an edge is one of these, which are between the first n points. With a newer point it is none of them, and
// they are not looked through. That n is of before the segment, so no struct of the points and edges holds what is asked of it.
fn known(edges: &[Edge], n: usize, edge: Edge) -> bool
    requires { Within edges.now n }
    ensures { result ≡ listed edge edges.now }
{
    if edge.larger as usize >= n {
        return false;
    }
    edges.contains(&edge)
}

// An edge by its two points, smaller first.
#[derive(Clone, Copy, PartialEq, Eq)]
pub struct Edge {
    pub smaller: u32,
    pub larger: u32,
}

impl Edge {
    // The edge between points a and b.
    fn between(a: u32, b: u32) -> Edge
        ensures { result ≡ between a b }
    {
        Edge {
            smaller: a.min(b),
            larger: a.max(b),
        }
    }

    // Whether it ends at point c.
    pub fn touches(self, c: u32) -> bool
        ensures { result ≡ eqb self.smaller c || eqb self.larger c }
    {
        self.smaller == c || self.larger == c
    }

    // Its end that is not point c.
    pub fn other(self, c: u32) -> u32
        ensures { result ≡ cond (eqb self.smaller c) self.larger self.smaller }
    {
        if self.smaller == c {
            self.larger
        } else {
            self.smaller
        }
    }
}
