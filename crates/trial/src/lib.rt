// For tests only: proved functions of the crates below, which are no part of Cicelybeam's interface, made callable from Rust. Each
// export tests the lengths and refuses what does not fit; a slice passes as a pointer and a length.
// They cross as C's do: an answer is a number, a count or 1 or 0, and space and the plane, normal and direction have a name each.
#![tactic(auto)]

ghost use Rattle.std.specs.Prelude.{◌≡◌, [], ◌∷◌, ◌/◌, ◌<◌, ◌≤◌, length};
ghost use Rattle.vector.specs.Rows.{put, row};
ghost use Rattle.vector.specs.Vector.{line_of, normal_along, plane_of, unit};
ghost use Rattle.vector.specs.Tolerance.{tolerance};
ghost use Rattle.stitch.specs.Code.{Stitchable};
ghost use Rattle.stitch.specs.Entry.{strictness_of};
ghost use Rattle.trial.specs.Trial.{ClipFits, Clips, FrameGiven, Refused, ScalingGiven, Stitching, Total, Unclipped, UnitGiven, Unstitched, deprojected, plane_in, projected, stitched_in};

use clip::polygon::{Cut, plane_section_segments};
use stitch::{StitchedSegments, Strictness};
use vector::{Plane, coord, put};

// The answer to lengths that do not fit.
const REFUSED: usize = 4294967295;

// The segments of a polygon and its crossings by default, counted.
#[repr(C)]
#[derive(Clone, Copy)]
pub struct Clipped {
    pub segments: usize,
    pub defaulted: usize,
}

// The segments of a polygon in space, written to out, by a cut in two rows: its origin and its normal. Lends `points` as scratch.
#[unsafe(no_mangle)]
pub extern "C" fn trial_space_segments(
    poly: &[f64],
    placed: &[f64],
    tol: f64,
    points: &mut [f64],
    out: &mut [f64],
) -> Clipped
    ensures { Total (ClipFits 3 256 poly.now placed.now points.old out.old)
        (Clips 3 (length poly.now / 3) poly.now placed.now tol out.old result
        out.new)
        (Unclipped result out.old out.new) }
{
    segments::<3, 256>(poly, placed, tol, points, out)
}

// The same in the plane.
#[unsafe(no_mangle)]
pub extern "C" fn trial_plane_segments(
    poly: &[f64],
    placed: &[f64],
    tol: f64,
    points: &mut [f64],
    out: &mut [f64],
) -> Clipped
    ensures { Total (ClipFits 2 384 poly.now placed.now points.old out.old)
        (Clips 2 (length poly.now / 2) poly.now placed.now tol out.old result
        out.new)
        (Unclipped result out.old out.new) }
{
    segments::<2, 384>(poly, placed, tol, points, out)
}

// The segments of at most LIMIT corners, of D coordinates each. What both exports are given stands one by one here too.
fn segments<const D: usize, const LIMIT: usize>(
    poly: &[f64],
    placed: &[f64],
    tol: f64,
    points: &mut [f64],
    out: &mut [f64],
) -> Clipped
    requires { (0 < D) × (D ≤ 3) × (LIMIT ≤ 384) }
    ensures { Total (ClipFits D LIMIT poly.now placed.now points.old out.old)
        (Clips D (length poly.now / D) poly.now placed.now tol out.old result
        out.new)
        (Unclipped result out.old out.new) }
{
    let refused = Clipped {
        segments: REFUSED,
        defaulted: 0,
    };
    let n = poly.len() / D;
    if n > LIMIT || placed.len() < 2 * D {
        return refused;
    }
    let most = 3 * n / 2;
    if points.len() < D * most || out.len() < 2 * D * most {
        return refused;
    }
    let cut = Cut {
        origin: coord::<D>(placed, 0),
        normal: coord::<D>(placed, 1),
        tol,
    };
    let found = plane_section_segments(poly, &cut, points, out);
    Clipped {
        segments: found.segments,
        defaulted: found.defaulted,
    }
}

// What stitching gives, and whether the lengths fitted.
#[repr(C)]
#[derive(Clone, Copy, Default)]
pub struct Answer {
    pub fitted: usize,
    pub points: usize,
    pub nodes: usize,
    pub loops: usize,
    pub listed: usize,
    pub in_loops: usize,
    pub pinched: usize,
    pub flat: usize,
    pub opened: usize,
    pub comparisons: usize,
}

impl From<StitchedSegments> for Answer {
    ghost from_gives = { λ s r. (r.fitted ≡ 1) × (stitched_in r ≡ s.stitched) × (r.comparisons ≡ s.comparisons) };

    fn from(stitching: StitchedSegments) -> Self {
        let s = stitching.stitched;
        Answer {
            fitted: 1,
            points: s.points,
            nodes: s.nodes,
            loops: s.loops,
            listed: s.counts.listed,
            in_loops: s.counts.in_loops,
            pinched: s.counts.pinched,
            flat: s.counts.flat,
            opened: s.counts.opened,
            comparisons: stitching.comparisons,
        }
    }
}

// Stitches segments of four numbers each.
#[unsafe(no_mangle)]
pub extern "C" fn trial_stitch(
    segments: &[f64],
    strict: u8,
    tol: f64,
    points: &mut [f64],
    nodes: &mut [u32],
    ends: &mut [u32],
) -> Answer
    ensures { Total (Stitchable (length segments.now / 4) points.old nodes.old ends.old)
        (Stitching segments.now (strictness_of strict) tol result points.old points.new nodes.old
        nodes.new ends.old ends.new)
        (Unstitched result points.old points.new nodes.old nodes.new
        ends.old ends.new) }
{
    let s = segments.len() / 4;
    if s > 384 || points.len() < 4 * s || nodes.len() < s || ends.len() < s / 3 {
        return Answer::default();
    }
    stitch::stitch_segments(segments, Strictness::from(strict), tol, points, nodes, ends).into()
}

// The tolerance of coordinates in space.
#[unsafe(no_mangle)]
pub extern "C" fn trial_space_tolerance(coords: &[f64]) -> f64
    ensures { result ≡ tolerance 3 coords.now }
{
    vector::slice_tolerance::<3>(coords)
}

// The tolerance of coordinates in the plane.
#[unsafe(no_mangle)]
pub extern "C" fn trial_plane_tolerance(coords: &[f64]) -> f64
    ensures { result ≡ tolerance 2 coords.now }
{
    vector::slice_tolerance::<2>(coords)
}

// The plane of a cut in two rows, its origin and its normal: unit normal, u and v, written to out. Gives 1, or 0 if there is none.
#[unsafe(no_mangle)]
pub extern "C" fn trial_plane_frame(placed: &[f64], out: &mut [f64]) -> usize
    ensures { Total ((6 ≤ length placed.now) × (9 ≤ length out.old))
        (FrameGiven (plane_of (row 3 placed.now 0) (row 3 placed.now 1)) result out.old out.new)
        (Refused result out.old out.new) }
{
    if placed.len() < 6 || out.len() < 9 {
        return REFUSED;
    }
    put_frame(Plane::new(coord(placed, 0), coord(placed, 1)), out)
}

// The same for a line in space, the second row being its direction.
#[unsafe(no_mangle)]
pub extern "C" fn trial_line_frame(placed: &[f64], out: &mut [f64]) -> usize
    ensures { Total ((6 ≤ length placed.now) × (9 ≤ length out.old))
        (FrameGiven (line_of (row 3 placed.now 0) (row 3 placed.now 1)) result out.old out.new)
        (Refused result out.old out.new) }
{
    if placed.len() < 6 || out.len() < 9 {
        return REFUSED;
    }
    put_frame(Plane::of_line(coord(placed, 0), coord(placed, 1)), out)
}

// Writes the three vectors of a plane. Gives 1, or 0 if there is no plane.
fn put_frame(found: Option<Plane>, out: &mut [f64]) -> usize
    requires { 9 ≤ length out.old }
    ensures { FrameGiven found result out.old out.new }
{
    let Some(plane) = found else {
        return 0;
    };
    put(out, 0, plane.normal);
    put(out, 1, plane.u);
    put(out, 2, plane.v);
    1
}

// The coordinates in a plane, given by its origin, u and v in three rows, of the point in the fourth, written to out.
#[unsafe(no_mangle)]
pub extern "C" fn trial_project(rows: &[f64], out: &mut [f64]) -> usize
    ensures { Total ((12 ≤ length rows.now) × (2 ≤ length out.old))
        ((result ≡ 1) × (out.new ≡ put 2 out.old 0 (projected rows.now)))
        (Refused result out.old out.new) }
{
    if rows.len() < 12 || out.len() < 2 {
        return REFUSED;
    }
    put(out, 0, plane_in(rows).project(coord(rows, 3)));
    1
}

// The point of space, written to out, with the coordinates x and y in a plane that its origin, u and v give in three rows.
#[unsafe(no_mangle)]
pub extern "C" fn trial_deproject(rows: &[f64], x: f64, y: f64, out: &mut [f64]) -> usize
    ensures { Total ((9 ≤ length rows.now) × (3 ≤ length out.old))
        ((result ≡ 1) × (out.new ≡ put 3 out.old 0 (deprojected rows.now (x ∷ y ∷ []))))
        (Refused result out.old out.new) }
{
    if rows.len() < 9 || out.len() < 3 {
        return REFUSED;
    }
    put(out, 0, plane_in(rows).deproject([x, y]));
    1
}

// The plane whose origin, u and v are the first three rows. Its normal is not read.
fn plane_in(rows: &[f64]) -> Plane
    requires { 9 ≤ length rows.now }
    ensures { result ≡ plane_in rows.now }
{
    let origin = coord(rows, 0);
    Plane {
        origin,
        normal: origin,
        u: coord(rows, 1),
        v: coord(rows, 2),
    }
}

// The unit normal of a line in the plane with this normal, written to out. Gives 1, or 0 if there is none.
#[unsafe(no_mangle)]
pub extern "C" fn trial_line_normal(x: f64, y: f64, out: &mut [f64]) -> usize
    ensures { Total (2 ≤ length out.old) (UnitGiven (unit (x ∷ y ∷ [])) result out.old out.new)
        (Refused result out.old out.new) }
{
    put_unit(vector::unit([x, y]), out)
}

// The same for a line with this direction.
#[unsafe(no_mangle)]
pub extern "C" fn trial_line_normal_along(x: f64, y: f64, out: &mut [f64]) -> usize
    ensures { Total (2 ≤ length out.old) (UnitGiven (normal_along (x ∷ y ∷ [])) result out.old out.new)
        (Refused result out.old out.new) }
{
    put_unit(vector::normal_along([x, y]), out)
}

// Writes a unit vector. Gives 1, or 0 if there is none.
fn put_unit(found: Option<[f64; 2]>, out: &mut [f64]) -> usize
    ensures { Total (2 ≤ length out.old) (UnitGiven found result out.old out.new) (Refused result out.old out.new) }
{
    if out.len() < 2 {
        return REFUSED;
    }
    let Some(a) = found else {
        return 0;
    };
    put(out, 0, a);
    1
}

// A normal in space, scaled, written to out. Gives 1, or 0 if a component is not finite.
#[unsafe(no_mangle)]
pub extern "C" fn trial_scaled_in_space(normal: &[f64], out: &mut [f64]) -> usize
    ensures { ScalingGiven 3 normal.now result out.old out.new }
{
    put_scaled::<3>(normal, out)
}

// The same in the plane.
#[unsafe(no_mangle)]
pub extern "C" fn trial_scaled_in_plane(normal: &[f64], out: &mut [f64]) -> usize
    ensures { ScalingGiven 2 normal.now result out.old out.new }
{
    put_scaled::<2>(normal, out)
}

// Writes a normal of D numbers, scaled. Gives 1, or 0 if a component is not finite.
fn put_scaled<const D: usize>(normal: &[f64], out: &mut [f64]) -> usize
    ensures { ScalingGiven D normal.now result out.old out.new }
{
    if normal.len() < D || out.len() < D {
        return REFUSED;
    }
    let Some(scaled) = vector::scaled_normal(coord::<D>(normal, 0)) else {
        return 0;
    };
    put(out, 0, scaled);
    1
}
