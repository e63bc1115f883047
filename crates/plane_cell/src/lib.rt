// A cell in the plane cut by a line, by its normal or by its direction. The answer is segments only.
#![tactic(auto)]

ghost use Rattle.std.specs.Prelude.{◌≡◌, ◌*◌, ◌≤◌, length};
ghost use Rattle.rows.specs.Outcome.{told_count};
ghost use Rattle.cell.specs.Read.{cell_of, plane_cell, polygons_of};
ghost use Rattle.clip.specs.Cell.{at_most};
ghost use Rattle.clip.specs.View.{cut_of};
ghost use Rattle.cuts.specs.Code.{through_of};
ghost use Rattle.cuts.specs.Defaulted.{line_count};
ghost use Rattle.cuts.specs.Lines.{GaveLine, line_told};
ghost use Rattle.plane_cell.specs.PlaneCell.{line_through, normal_by, plane_cell_cut};
ghost use Rattle.plane_cell.specs.Defaulted.{plane_cell_defaulted};
ghost use Rattle.plane_cell.specs.Code.{PolygonCut, cutting};

use cell::Cell;
use cell::accepted::PlaneCell;
use clip::Found;
use clip::polygon::{Cut, plane_section_segments};
use cuts::{Scaling, Through, Way};
use rows::Refusal;
use vector::{normal_along, unit};

// Cuts a single cell in the plane with a line: the segments, four numbers each. Tells how many crossings were defaulted, too.
pub fn slice_2d(
    way: Way,
    cell: &Cell,
    through: &Through,
    tol: f64,
    numbers: &mut [f64],
) -> Result<Found, Refusal>
    ensures { GaveLine
        (plane_cell_cut way (cell_of cell.now) (through_of through.now) tol (length numbers.old))
        (line_told result) numbers.old numbers.new
        × (line_count result
        ≡ told_count (plane_cell_defaulted way (cell_of cell.now) (through_of through.now) tol (length numbers.old))) }
{
    let accepted = cell.in_plane()?;
    let cut = place(way, through, tol)?;
    if 6 * accepted.corners > numbers.len() {
        return Err(Refusal::ShortBuffer);
    }
    Ok(line_cell(&accepted, &cut, numbers))
}

// The line through origin with this normal or direction, or refusal 5 or 6.
fn place(way: Way, through: &Through, tol: f64) -> Result<Cut<2>, Refusal>
    ensures { cutting result ≡ line_through way (through_of through.now) tol }
{
    let (origin, vector) = through.rows::<2>()?;
    let normal = normal_by(way, through.scaling, vector).ok_or(Refusal::NoDirection)?;
    Ok(Cut {
        origin,
        normal,
        tol,
    })
}

// The unit normal of a line by its normal or its direction. By `Way`, as a plane is, and for the same reason (crates/cuts).
fn normal_by(way: Way, scaling: Scaling, vector: [f64; 2]) -> Option<[f64; 2]>
    ensures { result ≡ normal_by way scaling vector }
{
    match way {
        Way::Normal => unit(scaling.take(vector)?),
        Way::Direction => normal_along(vector),
    }
}

// The segments of an accepted cell on a line. Scratch comes in two sizes.
fn line_cell(cell: &PlaneCell, cut: &Cut<2>, numbers: &mut [f64]) -> Found
    requires { 6 * cell.now.corners ≤ length numbers.old }
    ensures { PolygonCut (cut_of cut.now) (polygons_of (plane_cell (cell_of cell.now.cell))) numbers.old
        result numbers.new }
{
    if cell.corners <= 4 {
        return line_within::<8, 12>(cell, cut, numbers);
    }
    line_within::<512, 768>(cell, cut, numbers)
}

// The same with scratch for so many numbers of corners and of clipped points. Not inlined, so that a small cell's frame has no large
// scratch in it.
#[inline(never)]
fn line_within<const CORNERS: usize, const POINTS: usize>(
    cell: &PlaneCell,
    cut: &Cut<2>,
    numbers: &mut [f64],
) -> Found
    requires { (6 * cell.now.corners ≤ length numbers.old) × (2 * cell.now.corners ≤ CORNERS)
        × (2 * at_most cell.now.corners ≤ POINTS) × (CORNERS ≤ 512) × (POINTS ≤ 768) }
    ensures { PolygonCut (cut_of cut.now) (polygons_of (plane_cell (cell_of cell.now.cell))) numbers.old
        result numbers.new }
{
    let mut polygon = [0.0; CORNERS];
    let mut points = [0.0; POINTS];
    cell.copy(&mut polygon);
    plane_section_segments(&polygon[..2 * cell.corners], cut, &mut points, numbers)
}
