// A cell in space cut by a line. The answer is segments only.
#![tactic(auto)]

ghost use Rattle.std.specs.Prelude.{◌≡◌, ◌++◌, map, ◌*◌, ◌+◌, ◌/◌, ◌≤◌, length};
ghost use Rattle.rows.specs.Outcome.{told_count};
ghost use Rattle.vector.specs.Rows.{all_rows, all_segs, segs};
ghost use Rattle.cell.specs.Read.{cell_of, polygons_of, space_cell};
ghost use Rattle.clip.specs.Cell.{at_most};
ghost use Rattle.clip.specs.Code.{Points, Segments};
ghost use Rattle.clip.specs.View.{cut_of};
ghost use Rattle.walk.specs.Code.{Below};
ghost use Rattle.walk.specs.Walk.{point_at};
ghost use Rattle.cuts.specs.Code.{through_of};
ghost use Rattle.cuts.specs.Defaulted.{line_count};
ghost use Rattle.cuts.specs.Lines.{GaveLine, line_told};
ghost use Rattle.line_cut.specs.LineCut.{axis, line_cut, loop_segments, on_line, segment_on_line};
ghost use Rattle.line_cut.specs.Defaulted.{line_defaulted, loop_defaulted};
ghost use Rattle.line_cut.specs.Code.{CanCutLoop, CanCutLoops, LineFits, LineGiven, LoopCut, on_line_defaulted, on_line_of};

use cell::Cell;
use cell::accepted::SpaceCell;
use clip::polygon::{Cut, plane_section_segments};
use clip::{CuttingPlane, Found};
use cuts::{Size, Through, Way};
use rows::Refusal;
use stitch::Strictness;
use vector::{Plane, coord, plus, put, scale};

// Cuts a single cell in space with the line through origin that has this direction: the segments, six numbers each. Tells how many
// crossings were defaulted, too: of the cell on a plane, and of that section's loops on the line.
//
// The cell is cut by a plane that contains the line, whose in-plane basis makes the line y = 0, and the loops of
// that section are cut by it.
pub fn slice_line_3d(
    cell: &Cell,
    through: &Through,
    tol: f64,
    numbers: &mut [f64],
) -> Result<Found, Refusal>
    ensures { GaveLine
        (line_cut (cell_of cell.now) (through_of through.now) tol (length numbers.old))
        (line_told result) numbers.old numbers.new
        × (line_count result
        ≡ told_count (line_defaulted (cell_of cell.now) (through_of through.now) tol (length numbers.old))) }
{
    let accepted = cell.in_space()?;
    let plane = through.place(Way::Direction)?;
    if 14 * accepted.corners > numbers.len() {
        return Err(Refusal::ShortBuffer);
    }
    let cutting = CuttingPlane { plane, tol };
    Ok(line_cell(&accepted, &cutting, numbers))
}

// The cut of an accepted cell by the line y = 0 of a plane.
fn line_cell(cell: &SpaceCell, cutting: &CuttingPlane, numbers: &mut [f64]) -> Found
    requires { 14 * cell.now.corners ≤ length numbers.old }
    ensures { LineGiven cutting.now.plane cutting.now.tol (polygons_of (space_cell (cell_of cell.now.cell))) numbers.old
        result numbers.new }
{
    match Size::of(cell) {
        Size::Fixed => line_within::<144, 36, 12, 72, 108, 216>(cell, cutting, numbers),
        _ => line_within::<1536, 384, 128, 768, 1152, 2304>(cell, cutting, numbers),
    }
}

// Scratch for one loop of a section: its polygon, the polygon's clipped points and its segments.
#[derive(Drop)]
struct Scratch<const POLYGON: usize, const CLIPPED: usize, const FLAT: usize> {
    polygon: [f64; POLYGON],
    clipped: [f64; CLIPPED],
    flat: [f64; FLAT],
}

// The section of a cell by the plane, and each of its loops cut by y = 0, with scratch for a section of so many numbers, nodes and ends,
// and for so many numbers of a loop's polygon, of its clipped points and of its segments. Not inlined, so that a small cell's frame has no
// large scratch in it.
#[inline(never)]
fn line_within<
    const NUMBERS: usize,
    const NODES: usize,
    const ENDS: usize,
    const POLYGON: usize,
    const CLIPPED: usize,
    const FLAT: usize,
>(cell: &SpaceCell, cutting: &CuttingPlane, numbers: &mut [f64]) -> Found
    requires { (14 * cell.now.corners ≤ length numbers.old)
        × LineFits NUMBERS NODES ENDS POLYGON CLIPPED FLAT cell.now.corners
        × (NUMBERS ≤ 1536) × (NODES ≤ 384) × (ENDS ≤ 128) × (POLYGON ≤ 768) × (CLIPPED ≤ 1152) × (FLAT ≤ 2304) }
    ensures { LineGiven cutting.now.plane cutting.now.tol (polygons_of (space_cell (cell_of cell.now.cell))) numbers.old
        result numbers.new }
{
    let mut points = [0.0; NUMBERS];
    let mut nodes = [0; NODES];
    let mut ends = [0; ENDS];
    let mut scratch = Scratch {
        polygon: [0.0; POLYGON],
        clipped: [0.0; CLIPPED],
        flat: [0.0; FLAT],
    };
    let section = cuts::section_cell(
        cell,
        cutting,
        Strictness::Usual,
        &mut points,
        &mut nodes,
        &mut ends,
    );
    let stitched = section.stitched;
    let found = cut_loops(
        &points[..2 * stitched.points],
        &nodes[..stitched.nodes],
        &ends[..stitched.loops],
        cutting,
        &mut scratch,
        numbers,
    );
    Found {
        segments: found.segments,
        defaulted: section.defaulted + found.defaulted,
    }
}

// Cuts each loop by y = 0 and writes the segments on the line. Gives how many there are, and how many crossings were defaulted. Points and
// nodes stand one by one: here they are those of a section, below the nodes are of one loop.
fn cut_loops<const POLYGON: usize, const CLIPPED: usize, const FLAT: usize>(
    points: &[f64],
    nodes: &[u32],
    ends: &[u32],
    cutting: &CuttingPlane,
    scratch: &mut Scratch<POLYGON, CLIPPED, FLAT>,
    numbers: &mut [f64],
) -> Found
    requires { CanCutLoops points.now nodes.now ends.now POLYGON CLIPPED FLAT numbers.old }
    ensures { LoopCut numbers.old
        (on_line_of cutting.now.plane cutting.now.tol (all_rows 2 points.now) ends.now nodes.now)
        (on_line_defaulted cutting.now.tol (all_rows 2 points.now) ends.now nodes.now)
        result numbers.new }
{
    let mut k = 0;
    let mut defaulted = 0;
    let mut s = 0;
    for &end in ends {
        let e = end as usize;
        let found = cut_loop(points, &nodes[s..e], cutting, scratch, numbers, k);
        k = found.segments;
        defaulted += found.defaulted;
        s = e;
    }
    Found {
        segments: k,
        defaulted,
    }
}

// Cuts one loop by y = 0: its segments on the line, after the `from` in numbers, where they grow in place. Tells how many there are
// then, and how many of its crossings were defaulted.
fn cut_loop<const POLYGON: usize, const CLIPPED: usize, const FLAT: usize>(
    points: &[f64],
    nodes: &[u32],
    cutting: &CuttingPlane,
    scratch: &mut Scratch<POLYGON, CLIPPED, FLAT>,
    numbers: &mut [f64],
    from: usize,
) -> Found
    requires { CanCutLoop points.now nodes.now POLYGON CLIPPED FLAT
        × (6 * (from + at_most (length nodes.now)) ≤ length numbers.old) }
    ensures { LoopCut numbers.old
        (segs 3 from numbers.old
        ++ map (segment_on_line cutting.now.plane)
        (loop_segments cutting.now.tol (all_rows 2 points.now) nodes.now))
        (loop_defaulted cutting.now.tol (all_rows 2 points.now) nodes.now)
        result numbers.new }
{
    loop_points(points, nodes, &mut scratch.polygon);
    let cut = axis(cutting.tol);
    let polygon = &scratch.polygon[..2 * nodes.len()];
    let found = plane_section_segments(polygon, &cut, &mut scratch.clipped, &mut scratch.flat);
    let flat = &scratch.flat[..4 * found.segments];
    Found {
        segments: put_on_line(flat, cutting.plane, numbers, from),
        defaulted: found.defaulted,
    }
}

// The line y = 0 with a tolerance.
fn axis(tol: f64) -> Cut<2>
    ensures { cut_of result ≡ axis tol }
{
    Cut {
        origin: [0.0, 0.0],
        normal: [0.0, 1.0],
        tol,
    }
}

// The points of a loop, one after the other, written to out.
fn loop_points(points: &[f64], nodes: &[u32], out: &mut [f64])
    requires { Below (length points.now / 2) nodes.now × (2 * length nodes.now ≤ length out.old) }
    ensures { Points 2 out.old (map (point_at (all_rows 2 points.now)) nodes.now)
        (length nodes.now) out.new }
{
    for (i, &node) in nodes.iter().enumerate() {
        put::<2>(out, i, coord(points, node as usize));
    }
}

// Writes segments as points of the line, after the `from` in out. Gives how many there are then.
fn put_on_line(flat: &[f64], plane: Plane, out: &mut [f64], from: usize) -> usize
    requires { 6 * (from + length flat.now / 4) ≤ length out.old }
    ensures { Segments 3 out.old
        (segs 3 from out.old ++ map (segment_on_line plane) (all_segs 2 flat.now))
        result out.new }
{
    let k = flat.len() / 4;
    for i in 0..k {
        let j = 2 * (from + i);
        put(out, j, on_line(coord(flat, 2 * i), plane));
        put(out, j + 1, on_line(coord(flat, 2 * i + 1), plane));
    }
    from + k
}

// The point of the line with the coordinate a[0] along it.
fn on_line(a: [f64; 2], plane: Plane) -> [f64; 3]
    ensures { result ≡ on_line plane a }
{
    plus(plane.origin, scale(plane.u, a[0]))
}
