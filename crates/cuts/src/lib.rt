// What all cuts share: placing, and the segments and the section of an accepted cell on a plane.
#![tactic(auto)]

ghost use Rattle.std.specs.Prelude.{◌≡◌, ◌*◌, ◌≤◌, length};
ghost use Rattle.rows.specs.Outcome.{found};
ghost use Rattle.rows.specs.Refusals.{outcome_of};
ghost use Rattle.cell.specs.Read.{cell_of, polygons_of, space_cell};
ghost use Rattle.clip.specs.Cell.{cut_by};
ghost use Rattle.clip.specs.Code.{CellCut};
ghost use Rattle.stitch.specs.Entry.{buffers};
ghost use Rattle.cuts.specs.Cuts.{frame_by, place_in, placed_by, scaling_of, taken, through_by};
ghost use Rattle.cuts.specs.Code.{CellFits, Roomy, SectionGiven, Sized, rows_of, through_of};

use cell::accepted::SpaceCell;
use cell::types::SpaceType;
use clip::{CuttingPlane, Found};
use rows::Refusal;
use stitch::{Stitched, Strictness};
use vector::{Plane, coord, scaled_normal};

// What the vector is that a cut is given by: data of the definitions and theorems, so no closure stands for it.
#[derive(Clone, Copy)]
pub enum Way {
    Normal,
    Direction,
}

// How a normal is taken before it is made unit: as it is given, or scaled by a power of two, so that it may be of any length.
#[derive(Clone, Copy)]
pub enum Scaling {
    AsGiven,
    Scaled,
}

impl From<u8> for Scaling {
    ghost from_gives = { λ scaled scaling. scaling ≡ scaling_of scaled };

    fn from(scaled: u8) -> Self {
        match scaled {
            0 => Scaling::AsGiven,
            _ => Scaling::Scaled,
        }
    }
}

impl Scaling {
    // The normal as it is taken; none where it is to be scaled and a component is not finite.
    pub fn take<const D: usize>(self, normal: [f64; D]) -> Option<[f64; D]>
        ensures { result ≡ taken self normal.entry }
    {
        match self {
            Scaling::AsGiven => Some(normal),
            Scaling::Scaled => scaled_normal(normal),
        }
    }
}

// A cut as it is given: a point of it, its normal or its direction, and how a normal is taken. A direction is taken as it is given.
#[derive(Clone, Copy)]
pub struct Through<'a> {
    pub origin: &'a [f64],
    pub vector: &'a [f64],
    pub scaling: Scaling,
}

impl Through<'_> {
    // The plane through origin with this normal, or the one that holds the line with this direction; or refusal 5 or 6.
    pub fn place(&self, way: Way) -> Result<Plane, Refusal>
        ensures { outcome_of result ≡ place_in way (through_of self.now) }
    {
        let (origin, vector) = self.rows::<3>()?;
        plane_by(way, self.scaling, origin, vector).ok_or(Refusal::NoDirection)
    }

    // The point and the vector, if both have D coordinates, or refusal 5.
    pub fn rows<const D: usize>(&self) -> Result<([f64; D], [f64; D]), Refusal>
        ensures { outcome_of result ≡ placed_by D (through_of self.now) (found (rows_of self.now)) }
    {
        if self.origin.len() != D || self.vector.len() != D {
            return Err(Refusal::VectorLength);
        }
        Ok((coord(self.origin, 0), coord(self.vector, 0)))
    }
}

// The plane by its normal or by a line's direction.
fn plane_by(way: Way, scaling: Scaling, origin: [f64; 3], vector: [f64; 3]) -> Option<Plane>
    ensures { result ≡ frame_by way (through_by scaling origin vector) }
{
    match way {
        Way::Normal => Plane::new(origin, scaling.take(vector)?),
        Way::Direction => Plane::of_line(origin, vector),
    }
}

// How large the scratch is that a cell takes. It comes in three sizes, so that small cells do not take the time to clear large ones.
#[derive(Clone, Copy)]
pub enum Size {
    Fixed,
    Small,
    Large,
}

impl Size {
    // Fixed types have at most 24 face corners, four a face; small polyhedra at most 88 entries; and others 256.
    pub fn of(cell: &SpaceCell) -> Size
        ensures { Sized result (cell_of cell.now.cell) }
    {
        match cell.kind {
            SpaceType::Phed => {
                if cell.cell.conn.len() <= 88 {
                    return Size::Small;
                }
                Size::Large
            }
            _ => Size::Fixed,
        }
    }
}

// The segments of an accepted cell on a plane, in the plane's own coordinates, written over the start of `out`. The cell and the
// plane stand one by one, since each comes of a test of its own.
pub fn gather_cell(cell: &SpaceCell, cutting: &CuttingPlane, out: &mut [f64]) -> Found
    requires { 6 * cell.now.corners ≤ length out.old }
    ensures { CellCut (cut_by cutting.now.plane cutting.now.tol) cutting.now.plane (polygons_of (space_cell (cell_of cell.now.cell))) out.old
        result out.new }
{
    match Size::of(cell) {
        Size::Fixed => gather_within::<72, 6, 18, 36>(cell, cutting, out),
        Size::Small => gather_within::<264, 29, 396, 792>(cell, cutting, out),
        Size::Large => gather_within::<768, 85, 1152, 2304>(cell, cutting, out),
    }
}

// The same with scratch for so many numbers of corners, for so many faces, and for so many numbers of one face's clipped points and of
// its segments. Not inlined, so that a small cell's frame has no large scratch in it.
#[inline(never)]
fn gather_within<const CORNERS: usize, const FACES: usize, const POINTS: usize, const SPACE: usize>(
    cell: &SpaceCell,
    cutting: &CuttingPlane,
    out: &mut [f64],
) -> Found
    requires { (6 * cell.now.corners ≤ length out.old) × CellFits CORNERS FACES POINTS SPACE (cell_of cell.now.cell)
        × (CORNERS ≤ 768) × (FACES ≤ 85) × (POINTS ≤ 1152) × (SPACE ≤ 2304) }
    ensures { CellCut (cut_by cutting.now.plane cutting.now.tol) cutting.now.plane (polygons_of (space_cell (cell_of cell.now.cell))) out.old
        result out.new }
{
    let mut corners = [0.0; CORNERS];
    let mut face_ends = [0; FACES];
    let mut points = [0.0; POINTS];
    let mut space = [0.0; SPACE];
    let kept = cell.copy(&mut corners, &mut face_ends);
    clip::cell_segments(
        &corners[..3 * kept.corners],
        &face_ends[..kept.faces],
        cutting,
        &mut points,
        &mut space,
        out,
    )
}

// What was stitched of a cell, how many of its crossings were defaulted, and how many comparisons of points stitching took.
#[derive(Clone, Copy)]
pub struct CellSection {
    pub stitched: Stitched,
    pub defaulted: usize,
    pub comparisons: usize,
}

// The section of an accepted cell by a plane: its segments, stitched. The lent buffers stand one by one, as in stitch, and why.
pub fn section_cell(
    cell: &SpaceCell,
    cutting: &CuttingPlane,
    strictness: Strictness,
    numbers: &mut [f64],
    nodes: &mut [u32],
    ends: &mut [u32],
) -> CellSection
    requires { Roomy cell.now.corners numbers.old nodes.old ends.old }
    ensures { SectionGiven strictness cutting.now.plane cutting.now.tol (polygons_of (space_cell (cell_of cell.now.cell))) result
        (buffers numbers.old nodes.old ends.old)
        (buffers numbers.new nodes.new ends.new) }
{
    match Size::of(cell) {
        Size::Fixed => section_within::<144>(cell, cutting, strictness, numbers, nodes, ends),
        Size::Small => section_within::<528>(cell, cutting, strictness, numbers, nodes, ends),
        Size::Large => section_within::<1536>(cell, cutting, strictness, numbers, nodes, ends),
    }
}

// The same with scratch for so many numbers of segments. Not inlined, for the same reason.
#[inline(never)]
pub fn section_within<const SEGMENTS: usize>(
    cell: &SpaceCell,
    cutting: &CuttingPlane,
    strictness: Strictness,
    numbers: &mut [f64],
    nodes: &mut [u32],
    ends: &mut [u32],
) -> CellSection
    requires { Roomy cell.now.corners numbers.old nodes.old ends.old × (SEGMENTS ≤ 1536)
        × (6 * cell.now.corners ≤ SEGMENTS) }
    ensures { SectionGiven strictness cutting.now.plane cutting.now.tol (polygons_of (space_cell (cell_of cell.now.cell))) result
        (buffers numbers.old nodes.old ends.old)
        (buffers numbers.new nodes.new ends.new) }
{
    let mut segments = [0.0; SEGMENTS];
    let found = gather_cell(cell, cutting, &mut segments);
    let segments = &segments[..4 * found.segments];
    let stitching = stitch::stitch_segments(
        segments,
        strictness,
        cutting.tol,
        numbers,
        nodes,
        ends,
    );
    CellSection {
        stitched: stitching.stitched,
        defaulted: found.defaulted,
        comparisons: stitching.comparisons,
    }
}
