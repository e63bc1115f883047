// Cells that were accepted: past refusals 1 to 4, with their type and the number of their face corners. Two structs with a `copy` each,
// and two tests in `Cell`: how a cell is read, its types and its corners are others in the plane, and a trait for these would be longer.
ghost use Rattle.std.specs.Prelude.{◌≡◌, Some};
ghost use Rattle.cell.specs.Types.{plane_type, space_type};
ghost use Rattle.cell.specs.Read.{Accepted, cell_of, corners_of, plane_cell, space_cell};

use crate::Cell;
use crate::types::{PlaneType, SpaceType};

// In space.
#[derive(Clone, Copy)]
pub struct SpaceCell<'a> {
    pub cell: Cell<'a>,
    pub kind: SpaceType,
    pub corners: usize,
    pub ghost accepted: { Accepted (space_cell (cell_of cell)) },
    pub ghost known: { space_type cell.cell_type ≡ Some kind },
    pub ghost count: { corners ≡ corners_of (space_cell (cell_of cell)) },
}

// In the plane.
#[derive(Clone, Copy)]
pub struct PlaneCell<'a> {
    pub cell: Cell<'a>,
    pub kind: PlaneType,
    pub corners: usize,
    pub ghost accepted: { Accepted (plane_cell (cell_of cell)) },
    pub ghost known: { plane_type cell.cell_type ≡ Some kind },
    pub ghost count: { corners ≡ corners_of (plane_cell (cell_of cell)) },
}
