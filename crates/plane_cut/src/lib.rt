// A cell in space cut by a plane.
#![tactic(auto)]

ghost use Rattle.std.specs.Prelude.{◌≡◌};
ghost use Rattle.rows.specs.Outcome.{told_count};
ghost use Rattle.cell.specs.Read.{cell_of};
ghost use Rattle.stitch.specs.Entry.{Gave, buffers, lengths, section_told};
ghost use Rattle.cuts.specs.Code.{through_of};
ghost use Rattle.cuts.specs.Comparisons.{section_comparisons};
ghost use Rattle.cuts.specs.Defaulted.{section_count, stitched_in};
ghost use Rattle.plane_cut.specs.PlaneCut.{plane_cut};
ghost use Rattle.plane_cut.specs.Defaulted.{plane_defaulted};
ghost use Rattle.plane_cut.specs.Comparisons.{plane_comparisons};

use cell::Cell;
use clip::CuttingPlane;
use cuts::{CellSection, Through, Way};
use rows::Refusal;
use stitch::Strictness;
use stitch::alone::room;

// Cuts a single cell in space with a plane: the section's points in the plane's own coordinates, the nodes of its
// loops, and where each loop ends among them; and tells how many crossings were defaulted and how many comparisons of points it took. The
// lent buffers stand one by one, as in stitch.
pub fn section_cell_by_plane(
    cell: &Cell,
    through: &Through,
    strictness: Strictness,
    tol: f64,
    numbers: &mut [f64],
    nodes: &mut [u32],
    ends: &mut [u32],
) -> Result<CellSection, Refusal>
    ensures { Gave
        (plane_cut (cell_of cell.now) (through_of through.now) strictness tol
        (lengths (buffers numbers.old nodes.old ends.old)))
        (section_told (stitched_in result)) (buffers numbers.old nodes.old ends.old)
        (buffers numbers.new nodes.new ends.new)
        × (section_count result
        ≡ told_count (plane_defaulted (cell_of cell.now) (through_of through.now) tol
        (lengths (buffers numbers.old nodes.old ends.old))))
        × (section_comparisons result
        ≡ told_count (plane_comparisons (cell_of cell.now) (through_of through.now) tol
        (lengths (buffers numbers.old nodes.old ends.old)))) }
{
    let accepted = cell.in_space()?;
    let corners = accepted.corners;
    let plane = through.place(Way::Normal)?;
    if !room(
        6 * corners,
        3 * corners / 2,
        corners / 2,
        numbers.len(),
        nodes.len(),
        ends.len(),
    ) {
        return Err(Refusal::ShortBuffer);
    }
    let cutting = CuttingPlane { plane, tol };
    Ok(cuts::section_cell(&accepted, &cutting, strictness, numbers, nodes, ends))
}
