// The section of a polygon by a plane in space or by a line in the plane, and the segments of a cell in space, face by face.
#![tactic(auto)]

ghost use Rattle.std.specs.Prelude.{◌≡◌, ◌++◌, map, cond, ◌+◌, ◌*◌, ◌/◌, ◌<◌, ◌≤◌, get_or, length, ltb};
ghost use Rattle.std.specs.Float.{binary64, nan};
ghost use Rattle.std.specs.Float.Ieee.{mul};
ghost use Rattle.vector.specs.Rows.{all_segs, segs};
ghost use Rattle.clip.specs.Cell.{at_most, cut_by, faces_of, project_seg};
ghost use Rattle.clip.specs.Clip.{ratio};
ghost use Rattle.clip.specs.Code.{CellCut, Fit, Segments, next_of, side_of};
ghost use Rattle.clip.specs.Defaulted.{defaults};
ghost use Rattle.clip.specs.View.{cut_of};

pub mod polygon;

use polygon::{Cut, plane_section_segments};
use vector::{Plane, absolute, coord, put};

// How many segments were written, and how many crossings were defaulted.
#[derive(Clone, Copy)]
pub struct Found {
    pub segments: usize,
    pub defaulted: usize,
}

// How many clipped points were written, and how many crossings were defaulted.
#[derive(Clone, Copy)]
pub struct Clipped {
    pub points: usize,
    pub defaulted: usize,
}

// Where an edge meets the cut, from 0 at its first end to 1: divided, or the middle by default.
#[derive(Clone, Copy)]
pub struct Meeting {
    pub t: f64,
    pub defaulted: bool,
}

// The plane that cuts a cell in space, with its axes, and the tolerance of the tests.
#[derive(Clone, Copy)]
pub struct CuttingPlane {
    pub plane: Plane,
    pub tol: f64,
}

impl CuttingPlane {
    // The cut of each face.
    pub fn cut(&self) -> Cut<3>
        ensures { cut_of result ≡ cut_by self.now.plane self.now.tol }
    {
        Cut {
            origin: self.plane.origin,
            normal: self.plane.normal,
            tol: self.tol,
        }
    }
}

// A cell whose corners stand in coords face by face; ends are running totals. Its segments, in the plane's own coordinates, written to
// out. The scratch `points` and `space` has room for one face at a time, and what it holds afterwards is not said.
pub fn cell_segments(
    coords: &[f64],
    ends: &[usize],
    cutting: &CuttingPlane,
    points: &mut [f64],
    space: &mut [f64],
    out: &mut [f64],
) -> Found
    requires { Fit 0 ends.now (length coords.now / 3) (length points.old) (length space.old)
        × (4 * at_most (length coords.now / 3) ≤ length out.old) }
    ensures { CellCut (cut_by cutting.now.plane cutting.now.tol) cutting.now.plane (faces_of 3 ends.now coords.now)
        out.old result out.new }
{
    let cut = cutting.cut();
    let mut k = 0;
    let mut defaulted = 0;
    let mut s = 0;
    for &e in ends {
        let found = plane_section_segments(&coords[3 * s..3 * e], &cut, points, space);
        k = project_segments(&space[..6 * found.segments], cutting.plane, out, k);
        defaulted += found.defaulted;
        s = e;
    }
    Found {
        segments: k,
        defaulted,
    }
}

// Projects segments into the plane, after the `from` in out, where they grow in place. Gives how many there are then. `put_on_line` of
// line_cut is this loop at other widths with another map: a function for both takes a closure and a clause about it, and is longer.
fn project_segments(space: &[f64], plane: Plane, out: &mut [f64], from: usize) -> usize
    requires { 4 * (from + length space.now / 6) ≤ length out.old }
    ensures { Segments 2 out.old (segs 2 from out.old ++ map (project_seg plane) (all_segs 3 space.now))
        result out.new }
{
    let k = space.len() / 6;
    for i in 0..k {
        let j = 2 * (from + i);
        put(out, j, plane.project(coord(space, 2 * i)));
        put(out, j + 1, plane.project(coord(space, 2 * i + 1)));
    }
    from + k
}

// Where an edge meets the cut, by the signed distances of its ends.
pub fn ratio(da: f64, db: f64) -> Meeting
    ensures { (result.t ≡ ratio da db) × (result.defaulted ≡ defaults da db) }
{
    let denom = da - db;
    if absolute(denom) > f64::MIN_POSITIVE {
        return Meeting {
            t: da / denom,
            defaulted: false,
        };
    }
    Meeting {
        t: 0.5,
        defaulted: true,
    }
}

// The side of the cut that a polygon is clipped to, by the sign that makes its distances positive, if so many of n corners are above
// tol and below -tol: 1 above, -1 below. None, if none is; or if all are on one side and tol is not negative, since the face is then
// clear of the cut.
pub fn side_of(above: usize, below: usize, n: usize, tol: f64) -> Option<f64>
    ensures { result ≡ side_of above below n tol }
{
    if tol >= 0.0 && (above == n || below == n) {
        None
    } else if above > 0 {
        Some(1.0)
    } else if below > 0 {
        Some(-1.0)
    } else {
        None
    }
}

// The signed distance at a place of xs, or after its end that of the first corner.
pub fn signed_at(xs: &[f64], at: usize, sign: f64, first: f64) -> f64
    ensures { result ≡ cond (ltb at (length xs.now)) (mul binary64 sign (get_or xs.now at nan)) first }
{
    if at < xs.len() { sign * xs[at] } else { first }
}

// The place after i in a ring of n.
pub fn next_of(i: usize, n: usize) -> usize
    requires { i < n }
    ensures { result ≡ next_of i n }
{
    if i + 1 < n { i + 1 } else { 0 }
}
