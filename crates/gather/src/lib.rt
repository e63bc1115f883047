// The segments of a cell in space on a plane, before they are stitched.
#![tactic(auto)]

ghost use Rattle.std.specs.Prelude.{◌≡◌, length};
ghost use Rattle.rows.specs.Outcome.{told_count};
ghost use Rattle.cell.specs.Read.{cell_of};
ghost use Rattle.cuts.specs.Code.{through_of};
ghost use Rattle.cuts.specs.Defaulted.{line_count};
ghost use Rattle.cuts.specs.Lines.{GaveLine, line_told};
ghost use Rattle.gather.specs.Gather.{gather_cut};
ghost use Rattle.gather.specs.Defaulted.{gather_defaulted};

use cell::Cell;
use clip::{CuttingPlane, Found};
use cuts::{Through, Way};
use rows::Refusal;

// Gathers the segments that a plane cut of the cell stitches, in the plane's own coordinates, four numbers each: those of
// each face, faces in their order. Tells how many crossings were defaulted, too.
//
// `slice_line_3d` of line_cut takes the same steps. One function for both, with the work as a closure, was proved: 36 lines more for the
// ten that go, with clauses about whatever the closure does.
pub fn gather_cell_by_plane(
    cell: &Cell,
    through: &Through,
    tol: f64,
    numbers: &mut [f64],
) -> Result<Found, Refusal>
    ensures { GaveLine
        (gather_cut (cell_of cell.now) (through_of through.now) tol (length numbers.old))
        (line_told result) numbers.old numbers.new
        × (line_count result
        ≡ told_count (gather_defaulted (cell_of cell.now) (through_of through.now) tol (length numbers.old))) }
{
    let accepted = cell.in_space()?;
    let plane = through.place(Way::Normal)?;
    if 6 * accepted.corners > numbers.len() {
        return Err(Refusal::ShortBuffer);
    }
    let cutting = CuttingPlane { plane, tol };
    Ok(cuts::gather_cell(&accepted, &cutting, numbers))
}
