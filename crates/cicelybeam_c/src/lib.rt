// Cicelybeam for C and Rust: what the crate cicelybeam has, by the same names. A slice passes as a pointer and a length. An export has to
// stand in the crate of the static library, which no program can use, so it repeats what the function that it calls promises.
#![tactic(auto)]

ghost use Rattle.std.specs.Prelude.{◌≡◌, length};
ghost use Rattle.std.specs.Float.{binary64};
ghost use Rattle.root.specs.Root.{sqrt_of};
ghost use Rattle.rows.specs.Outcome.{told_count};
ghost use Rattle.vector.specs.Tolerance.{told_tolerance, tolerance_of};
ghost use Rattle.cell.specs.Read.{cell};
ghost use Rattle.stitch.specs.Entry.{Gave, buffers, lengths, stitch_alone, strictness_of};
ghost use Rattle.stitch.specs.Comparisons.{stitch_comparisons};
ghost use Rattle.cuts.specs.Cuts.{scaling_of, through, through_by};
ghost use Rattle.cuts.specs.Lines.{GaveLine};
ghost use Rattle.cuts.specs.declared.Way.TheVariants as way;
ghost use Rattle.plane_cut.specs.PlaneCut.{plane_cut};
ghost use Rattle.plane_cut.specs.Defaulted.{plane_defaulted};
ghost use Rattle.plane_cut.specs.Comparisons.{plane_comparisons};
ghost use Rattle.line_cut.specs.LineCut.{line_cut};
ghost use Rattle.line_cut.specs.Defaulted.{line_defaulted};
ghost use Rattle.plane_cell.specs.PlaneCell.{plane_cell_cut};
ghost use Rattle.plane_cell.specs.Defaulted.{plane_cell_defaulted};
ghost use Rattle.gather.specs.Gather.{gather_cut};
ghost use Rattle.gather.specs.Defaulted.{gather_defaulted};
ghost use Rattle.cicelybeam.specs.Exports.{told_in, told_line_in, told_tolerance_in};

use cicelybeam::{Line, Section, Tolerance};

// A space cell cut by a plane: its normal scaled unless `scaled` is 0, and in the strict way unless `strict` is 0.
#[unsafe(no_mangle)]
pub extern "C" fn cicelybeam_plane(
    cell_type: u8,
    conn: &[u64],
    coords: &[f64],
    origin: &[f64],
    normal: &[f64],
    scaled: u8,
    strict: u8,
    tol: f64,
    numbers: &mut [f64],
    nodes: &mut [u32],
    ends: &mut [u32],
) -> Section
    ensures { Gave
        (plane_cut (cell cell_type conn.now coords.now) (through_by (scaling_of scaled) origin.now normal.now) (strictness_of strict) tol
        (lengths (buffers numbers.old nodes.old ends.old)))
        (told_in result) (buffers numbers.old nodes.old ends.old)
        (buffers numbers.new nodes.new ends.new)
        × (result.defaulted
        ≡ told_count (plane_defaulted (cell cell_type conn.now coords.now) (through_by (scaling_of scaled) origin.now normal.now) tol
        (lengths (buffers numbers.old nodes.old ends.old))))
        × (result.comparisons
        ≡ told_count (plane_comparisons (cell cell_type conn.now coords.now) (through_by (scaling_of scaled) origin.now normal.now) tol
        (lengths (buffers numbers.old nodes.old ends.old)))) }
{
    cicelybeam::cicelybeam_plane(
        cell_type, conn, coords, origin, normal, scaled, strict, tol, numbers, nodes, ends,
    )
}

// The segments of a space cell on a plane, before they are stitched; its normal scaled unless `scaled` is 0.
#[unsafe(no_mangle)]
pub extern "C" fn cicelybeam_gather(
    cell_type: u8,
    conn: &[u64],
    coords: &[f64],
    origin: &[f64],
    normal: &[f64],
    scaled: u8,
    tol: f64,
    numbers: &mut [f64],
) -> Line
    ensures { GaveLine
        (gather_cut (cell cell_type conn.now coords.now)
        (through_by (scaling_of scaled) origin.now normal.now) tol (length numbers.old))
        (told_line_in result) numbers.old numbers.new
        × (result.defaulted
        ≡ told_count (gather_defaulted (cell cell_type conn.now coords.now) (through_by (scaling_of scaled) origin.now normal.now) tol (length numbers.old))) }
{
    cicelybeam::cicelybeam_gather(
        cell_type, conn, coords, origin, normal, scaled, tol, numbers,
    )
}

// A space cell cut by a line.
#[unsafe(no_mangle)]
pub extern "C" fn cicelybeam_line_in_space(
    cell_type: u8,
    conn: &[u64],
    coords: &[f64],
    origin: &[f64],
    direction: &[f64],
    tol: f64,
    numbers: &mut [f64],
) -> Line
    ensures { GaveLine
        (line_cut (cell cell_type conn.now coords.now)
        (through origin.now direction.now) tol (length numbers.old))
        (told_line_in result) numbers.old numbers.new
        × (result.defaulted
        ≡ told_count (line_defaulted (cell cell_type conn.now coords.now) (through origin.now direction.now) tol (length numbers.old))) }
{
    cicelybeam::cicelybeam_line_in_space(cell_type, conn, coords, origin, direction, tol, numbers)
}

// A plane cell cut by a line that its normal gives, scaled unless `scaled` is 0.
#[unsafe(no_mangle)]
pub extern "C" fn cicelybeam_plane_cell_by_normal(
    cell_type: u8,
    conn: &[u64],
    coords: &[f64],
    origin: &[f64],
    normal: &[f64],
    scaled: u8,
    tol: f64,
    numbers: &mut [f64],
) -> Line
    ensures { GaveLine
        (plane_cell_cut way.Normal (cell cell_type conn.now coords.now)
        (through_by (scaling_of scaled) origin.now normal.now) tol (length numbers.old))
        (told_line_in result) numbers.old numbers.new
        × (result.defaulted
        ≡ told_count (plane_cell_defaulted way.Normal (cell cell_type conn.now coords.now) (through_by (scaling_of scaled) origin.now normal.now) tol
        (length numbers.old))) }
{
    cicelybeam::cicelybeam_plane_cell_by_normal(
        cell_type, conn, coords, origin, normal, scaled, tol, numbers,
    )
}

// A plane cell cut by a line that its direction gives.
#[unsafe(no_mangle)]
pub extern "C" fn cicelybeam_plane_cell_by_direction(
    cell_type: u8,
    conn: &[u64],
    coords: &[f64],
    origin: &[f64],
    direction: &[f64],
    tol: f64,
    numbers: &mut [f64],
) -> Line
    ensures { GaveLine
        (plane_cell_cut way.Direction (cell cell_type conn.now coords.now)
        (through origin.now direction.now) tol (length numbers.old))
        (told_line_in result) numbers.old numbers.new
        × (result.defaulted
        ≡ told_count (plane_cell_defaulted way.Direction (cell cell_type conn.now coords.now) (through origin.now direction.now) tol
        (length numbers.old))) }
{
    cicelybeam::cicelybeam_plane_cell_by_direction(
        cell_type, conn, coords, origin, direction, tol, numbers,
    )
}

// Stitching alone; in the strict way unless `strict` is 0.
#[unsafe(no_mangle)]
pub extern "C" fn cicelybeam_stitch(
    segments: &[f64],
    strict: u8,
    tol: f64,
    numbers: &mut [f64],
    nodes: &mut [u32],
    ends: &mut [u32],
) -> Section
    ensures { Gave
        (stitch_alone segments.now (strictness_of strict) tol
        (lengths (buffers numbers.old nodes.old ends.old)))
        (told_in result) (buffers numbers.old nodes.old ends.old)
        (buffers numbers.new nodes.new ends.new)
        × (result.defaulted ≡ 0)
        × (result.comparisons
        ≡ told_count (stitch_comparisons segments.now tol
        (lengths (buffers numbers.old nodes.old ends.old)))) }
{
    cicelybeam::cicelybeam_stitch(segments, strict, tol, numbers, nodes, ends)
}

// The tolerance of a mesh in space, by its coordinates.
#[unsafe(no_mangle)]
pub extern "C" fn cicelybeam_tolerance_in_space(coords: &[f64]) -> Tolerance
    ensures { told_tolerance_in result ≡ told_tolerance (tolerance_of 3 coords.now) }
{
    cicelybeam::cicelybeam_tolerance_in_space(coords)
}

// The tolerance of a mesh in the plane.
#[unsafe(no_mangle)]
pub extern "C" fn cicelybeam_tolerance_in_plane(coords: &[f64]) -> Tolerance
    ensures { told_tolerance_in result ≡ told_tolerance (tolerance_of 2 coords.now) }
{
    cicelybeam::cicelybeam_tolerance_in_plane(coords)
}

// The square root as IEEE 754 has it.
#[unsafe(no_mangle)]
pub extern "C" fn cicelybeam_sqrt(x: f64) -> f64
    ensures { result ≡ sqrt_of binary64 x }
{
    cicelybeam::cicelybeam_sqrt(x)
}
