// Polygons in space, cut by a plane, and polygons in the plane, cut by a line: points of D coordinates.
ghost use Rattle.std.specs.Prelude.{◌≡◌, [], ◌+◌, ◌*◌, ◌/◌, ◌<◌, ◌≤◌, length, take};
ghost use Rattle.vector.specs.Rows.{all_rows, all_segs, rows, segs};
ghost use Rattle.clip.specs.Clip.{alike, duplicate, edges, lies_on, push_all, push_segment, push_segments, push_unique, tol_squared};
ghost use Rattle.clip.specs.Clip.{without_closing};
ghost use Rattle.clip.specs.Cell.{at_most};
ghost use Rattle.clip.specs.Code.{Crossed, Distances, EdgeClipped, FaceCut, Points, PolygonClipped, Segments, SideCut, Sided};
ghost use Rattle.clip.specs.View.{cut_of, points_of, seg_of};

use crate::{Clipped, Found, next_of, ratio, side_of, signed_at};
use vector::{absolute, coord, dist2, distance, minus, plus, put, scale};

// The plane or line that cuts, by a point of it and its unit normal, and the tolerance of the tests.
#[derive(Clone, Copy)]
pub struct Cut<const D: usize> {
    pub origin: [f64; D],
    pub normal: [f64; D],
    pub tol: f64,
}

impl<const D: usize> Cut<D> {
    // The square of the tolerance, which squared distances are compared with.
    pub fn tol2(&self) -> f64
        ensures { result ≡ tol_squared (cut_of self.now) }
    {
        self.tol * self.tol
    }
}

// The points that a directed edge gives when its polygon is clipped.
#[derive(Clone, Copy)]
pub enum Clip<const D: usize> {
    Nothing,
    One([f64; D]),
    Two([f64; D], [f64; D]),
}

// The point where a directed edge meets the cut, and whether it lies there by default.
#[derive(Clone, Copy)]
pub struct Crossing<const D: usize> {
    pub point: [f64; D],
    pub defaulted: bool,
}

// What a directed edge gives, and whether it has a crossing that was defaulted.
#[derive(Clone, Copy)]
pub struct Clipping<const D: usize> {
    pub clip: Clip<D>,
    pub defaulted: bool,
}

// Intersection of a polygon with the cut: its segments, written to out.
//
// The polygon is clipped to one side of the cut, and the boundary edges that lie on the cut are kept. This
// handles concave polygons too, and yields one segment per crossing interval. What the scratch `points` holds
// afterwards is not said. The polygon is a slice of numbers, as the C interface lends it, and no slice of points, since `points` also
// holds the distances. The polygon and the cut stand one by one: a struct of both would be taken apart in each of four functions. The
// clauses on room stay: they relate slices that are lent apart, and no value holds both.
pub fn plane_section_segments<const D: usize>(
    polygon: &[f64],
    cut: &Cut<D>,
    points: &mut [f64],
    out: &mut [f64],
) -> Found
    requires { (0 < D) × (D * at_most (length polygon.now / D) ≤ length points.old)
        × (D * (2 * at_most (length polygon.now / D)) ≤ length out.old) }
    ensures { FaceCut D (cut_of cut.now) (all_rows D polygon.now) out.old result out.new }
{
    let none = Found {
        segments: 0,
        defaulted: 0,
    };
    if polygon.len() / D < 3 {
        return none;
    }
    match kept_side(polygon, cut, points) {
        Some(sign) => section_on(polygon, cut, sign, points, out),
        None => none,
    }
}

// The segments of the polygon clipped with a sign, 1 above the cut and -1 below it. The distances of the corners stand
// in the last places of points.
fn section_on<const D: usize>(
    polygon: &[f64],
    cut: &Cut<D>,
    sign: f64,
    points: &mut [f64],
    out: &mut [f64],
) -> Found
    requires { (0 < D) × (2 < length polygon.now / D) × (D * at_most (length polygon.now / D) ≤ length points.old)
        × (D * (2 * at_most (length polygon.now / D)) ≤ length out.old)
        × Distances (cut_of cut.now) D (length polygon.now / D) polygon.now points.old }
    ensures { SideCut D (cut_of cut.now) sign (all_rows D polygon.now) out.old result
        out.new }
{
    let clipped = clip_polygon(polygon, cut, sign, points);
    let left = without_closing::<D>(&points[..D * clipped.points], cut.tol2());
    let defaulted = clipped.defaulted;
    if left < 2 {
        return Found {
            segments: 0,
            defaulted,
        };
    }
    Found {
        segments: segments(&points[..D * left], cut, out),
        defaulted,
    }
}

// The side that holds the polygon's interior: above if any corner is, else below if any is; and none if the face
// is clear of the cut, so that it has no section. Leaves the distances of the corners in the last places of points.
fn kept_side<const D: usize>(polygon: &[f64], cut: &Cut<D>, points: &mut [f64]) -> Option<f64>
    requires { (0 < D) × (length polygon.now / D ≤ length points.old) }
    ensures { Sided (cut_of cut.now) D (length polygon.now / D) polygon.now result points.new }
{
    let n = polygon.len() / D;
    let distances = points.len() - n;
    let mut above = 0;
    let mut below = 0;
    for i in 0..n {
        let d = distance(coord(polygon, i), cut.origin, cut.normal);
        points[distances + i] = d;
        above += usize::from(d > cut.tol);
        below += usize::from(d < -cut.tol);
    }
    side_of(above, below, n, cut.tol)
}

// The clipped points of the polygon, written to points. The distances of the corners stand in the last places of
// points, and each is read before a point can be written there.
fn clip_polygon<const D: usize>(
    polygon: &[f64],
    cut: &Cut<D>,
    sign: f64,
    points: &mut [f64],
) -> Clipped
    requires { (0 < D) × (2 < length polygon.now / D) × (D * at_most (length polygon.now / D) ≤ length points.old)
        × Distances (cut_of cut.now) D (length polygon.now / D) polygon.now points.old }
    ensures { PolygonClipped D (cut_of cut.now) sign (tol_squared (cut_of cut.now)) (all_rows D polygon.now) points.old result
        points.new }
{
    let n = polygon.len() / D;
    let tol2 = cut.tol2();
    let distances = points.len() - n;
    let first = sign * points[distances];
    let mut a = coord(polygon, 0);
    let mut da = first;
    let mut m = 0;
    let mut defaulted = 0;
    for i in 0..n {
        let b = coord(polygon, next_of(i, n));
        let db = signed_at(points, distances + i + 1, sign, first);
        let edge = clip_edge(a, da, b, db, cut);
        m = push_clip(points, m, edge.clip, tol2);
        defaulted += usize::from(edge.defaulted);
        a = b;
        da = db;
    }
    Clipped {
        points: m,
        defaulted,
    }
}

// What the edge from a to b gives, by the signed distances da and db. Ends and distances stand one by one, here and below: a
// struct of both would be made for each corner and taken apart in two functions.
fn clip_edge<const D: usize>(
    a: [f64; D],
    da: f64,
    b: [f64; D],
    db: f64,
    cut: &Cut<D>,
) -> Clipping<D>
    ensures { EdgeClipped (cut_of cut.now) a.entry da b.entry db (points_of result.clip) result.defaulted }
{
    let low = -cut.tol;
    match (da >= low, db >= low) {
        (true, true) => Clipping {
            clip: Clip::One(b),
            defaulted: false,
        },
        (true, false) => {
            let leaving = plane_intersection(a, da, b, db, cut);
            Clipping {
                clip: Clip::One(leaving.point),
                defaulted: leaving.defaulted,
            }
        }
        (false, true) => {
            let entering = plane_intersection(a, da, b, db, cut);
            Clipping {
                clip: Clip::Two(entering.point, b),
                defaulted: entering.defaulted,
            }
        }
        (false, false) => Clipping {
            clip: Clip::Nothing,
            defaulted: false,
        },
    }
}

// Where the edge from a to b meets the cut, moved onto the cut to remove the interpolation error.
fn plane_intersection<const D: usize>(
    a: [f64; D],
    da: f64,
    b: [f64; D],
    db: f64,
    cut: &Cut<D>,
) -> Crossing<D>
    ensures { Crossed (cut_of cut.now) a.entry da b.entry db result.point result.defaulted }
{
    let at = ratio(da, db);
    let p = plus(a, scale(minus(b, a), at.t));
    let d = distance(p, cut.origin, cut.normal);
    Crossing {
        point: minus(p, scale(cut.normal, d)),
        defaulted: at.defaulted,
    }
}

// Pushes the points of an edge after the m there are. Gives how many there are then. The m stands beside its buffer, here and below:
// the points grow in place, without a heap, in the scratch that also holds the distances.
fn push_clip<const D: usize>(points: &mut [f64], m: usize, clip: Clip<D>, tol2: f64) -> usize
    requires { (0 < D) × (D * (m + length (points_of clip)) ≤ length points.old) }
    ensures { Points D points.old
        (push_all tol2 (rows D m points.old) (points_of clip.entry)) result points.new }
{
    match clip {
        Clip::Nothing => m,
        Clip::One(p) => push_unique(points, m, p, tol2),
        Clip::Two(p, q) => {
            let k = push_unique(points, m, p, tol2);
            push_unique(points, k, q, tol2)
        }
    }
}

// Pushes p after the m points there are, unless it is near the last. Gives how many there are then.
fn push_unique<const D: usize>(points: &mut [f64], m: usize, p: [f64; D], tol2: f64) -> usize
    requires { (0 < D) × (D * (m + 1) ≤ length points.old) }
    ensures { Points D points.old (push_unique tol2 (rows D m points.old) p.entry) result
        points.new }
{
    if m == 0 || dist2(coord(points, m - 1), p) > tol2 {
        put(points, m, p);
        return m + 1;
    }
    m
}

// How many of the points are left without the closing duplicate of the cyclic walk.
fn without_closing<const D: usize>(points: &[f64], tol2: f64) -> usize
    requires { 0 < D }
    ensures { (take result (all_rows D points.now) ≡ without_closing tol2 (all_rows D points.now)) ×
        (result ≤ length points.now / D) }
{
    let m = points.len() / D;
    if m > 1 && dist2::<D>(coord(points, 0), coord(points, m - 1)) <= tol2 {
        return m - 1;
    }
    m
}

// The edges of clipped points that lie on the cut, each once, written to out. Gives how many there are.
fn segments<const D: usize>(points: &[f64], cut: &Cut<D>, out: &mut [f64]) -> usize
    requires { (0 < D) × (0 < length points.now / D) × (D * (2 * (length points.now / D)) ≤ length out.old) }
    ensures { Segments D out.old
        (push_segments (cut_of cut.now) (tol_squared (cut_of cut.now)) [] (edges (all_rows D points.now)))
        result out.new }
{
    let m = points.len() / D;
    let mut a = coord(points, 0);
    let mut k = 0;
    for i in 0..m {
        let b = coord(points, next_of(i, m));
        k = push_segment(out, k, &Segment { a, b }, cut);
        a = b;
    }
    k
}

// Pushes a segment after the k there are, if it lies on the cut and is no duplicate. Gives how many there are then. They
// grow in place, without a heap, in the buffer that a caller lends.
fn push_segment<const D: usize>(
    out: &mut [f64],
    k: usize,
    segment: &Segment<D>,
    cut: &Cut<D>,
) -> usize
    requires { (0 < D) × (D * (2 * (k + 1)) ≤ length out.old) }
    ensures { Segments D out.old
        (push_segment (cut_of cut.now) (tol_squared (cut_of cut.now)) (segs D k out.old) (seg_of segment.now))
        result out.new }
{
    if segment.lies_on(cut) && !segment.is_duplicate(&out[..D * (2 * k)], cut.tol2()) {
        put(out, 2 * k, segment.a);
        put(out, 2 * k + 1, segment.b);
        return k + 1;
    }
    k
}

// A segment by its ends.
#[derive(Clone, Copy)]
struct Segment<const D: usize> {
    a: [f64; D],
    b: [f64; D],
}

impl<const D: usize> Segment<D> {
    // Whether its ends are on the cut and apart.
    fn lies_on(&self, cut: &Cut<D>) -> bool
        ensures { result ≡ lies_on (cut_of cut.now) (tol_squared (cut_of cut.now)) (seg_of self.now) }
    {
        let da = distance(self.a, cut.origin, cut.normal);
        let db = distance(self.b, cut.origin, cut.normal);
        absolute(da) <= cut.tol && absolute(db) <= cut.tol && dist2(self.a, self.b) > cut.tol2()
    }

    // Whether one of the segments in a slice has its ends near these, either way round.
    fn is_duplicate(&self, segments: &[f64], tol2: f64) -> bool
        requires { 0 < D }
        ensures { result ≡ duplicate tol2 (all_segs D segments.now) (seg_of self.now) }
    {
        for i in 0..segments.len() / (2 * D) {
            let a = coord(segments, 2 * i);
            let b = coord(segments, 2 * i + 1);
            if self.alike(&Segment { a, b }, tol2) {
                return true;
            }
        }
        false
    }

    // Whether the ends are near those of a segment that was pushed, either way round.
    fn alike(&self, pushed: &Segment<D>, tol2: f64) -> bool
        ensures { result ≡ alike tol2 (seg_of pushed.now) (seg_of self.now) }
    {
        (dist2(pushed.a, self.a) <= tol2 && dist2(pushed.b, self.b) <= tol2)
            || (dist2(pushed.a, self.b) <= tol2 && dist2(pushed.b, self.a) <= tol2)
    }
}
