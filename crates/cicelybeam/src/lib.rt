// Cicelybeam as the crate cicelybeam_c gives it to C and Rust: thin functions over the proved entries. For C, types and refusals are
// numbers here, what a cut is given by stands one by one, and each way and each width has a function of its own.
#![tactic(auto)]

ghost use Rattle.std.specs.Prelude.{◌≡◌, ◌<◌, length};
ghost use Rattle.std.specs.Float.{binary64};
ghost use Rattle.root.specs.Root.{sqrt_of};
ghost use Rattle.rows.specs.Outcome.{told_count};
ghost use Rattle.rows.specs.Refusals.{outcome_of};
ghost use Rattle.vector.specs.Tolerance.{told_tolerance, tolerance_of};
ghost use Rattle.cell.specs.Read.{cell};
ghost use Rattle.stitch.specs.Entry.{Gave, Small, buffers, lengths, section_told, stitch_alone, strictness_of};
ghost use Rattle.stitch.specs.Comparisons.{comparisons_told, stitch_comparisons, stitched_of};
ghost use Rattle.cuts.specs.Cuts.{scaling_of, through, through_by};
ghost use Rattle.cuts.specs.Comparisons.{section_comparisons};
ghost use Rattle.cuts.specs.Defaulted.{line_count, section_count, stitched_in};
ghost use Rattle.cuts.specs.Lines.{GaveLine, line_told};
ghost use Rattle.cuts.specs.declared.Way.TheVariants as way;
ghost use Rattle.plane_cut.specs.PlaneCut.{plane_cut};
ghost use Rattle.plane_cut.specs.Defaulted.{plane_defaulted};
ghost use Rattle.plane_cut.specs.Comparisons.{plane_comparisons};
ghost use Rattle.line_cut.specs.LineCut.{line_cut};
ghost use Rattle.line_cut.specs.Defaulted.{line_defaulted};
ghost use Rattle.plane_cell.specs.PlaneCell.{plane_cell_cut};
ghost use Rattle.plane_cell.specs.Defaulted.{plane_cell_defaulted};
ghost use Rattle.gather.specs.Gather.{gather_cut};
ghost use Rattle.gather.specs.Defaulted.{gather_defaulted};
ghost use Rattle.cicelybeam.specs.Exports.{told_in, told_line_in, told_tolerance_in};

use cell::Cell;
use clip::Found;
use cuts::{CellSection, Scaling, Through, Way};
use rows::Refusal;
use stitch::{StitchedSegments, Strictness};

// struct cicelybeam_section: refusal 0, how many points, nodes and loops were written, the counts of edges, how many crossings were
// defaulted, and how many comparisons of points welding made; or the number of a refusal, and 0 for all else. C's `open` is `opened` here,
// since `open` is a reserved word.
#[repr(C)]
#[derive(Clone, Copy, Default)]
pub struct Section {
    pub refusal: u32,
    pub points: u32,
    pub nodes: u32,
    pub loops: u32,
    pub listed: u32,
    pub in_loops: u32,
    pub pinched: u32,
    pub flat: u32,
    pub opened: u32,
    pub defaulted: u32,
    pub comparisons: u32,
}

// struct cicelybeam_line: refusal 0, how many segments were written, and how many crossings were defaulted; or the number of a refusal,
// and 0 for both.
#[repr(C)]
#[derive(Clone, Copy, Default)]
pub struct Line {
    pub refusal: u32,
    pub segments: u32,
    pub defaulted: u32,
}

// struct cicelybeam_tolerance: refusal 0 and the tolerance, or the number of a refusal and 0.
#[repr(C)]
#[derive(Clone, Copy, Default)]
pub struct Tolerance {
    pub refusal: u32,
    pub value: f64,
}

impl From<Result<f64, Refusal>> for Tolerance {
    ghost from_gives = { λ answer t. told_tolerance_in t ≡ told_tolerance (outcome_of answer) };

    fn from(answer: Result<f64, Refusal>) -> Self {
        match answer {
            Ok(value) => Tolerance { refusal: 0, value },
            Err(refusal) => Tolerance {
                refusal: u32::from(refusal),
                ..Tolerance::default()
            },
        }
    }
}

// A space cell cut by a plane: its normal scaled unless `scaled` is 0, and in the strict way unless `strict` is 0.
pub fn cicelybeam_plane(
    cell_type: u8,
    conn: &[u64],
    coords: &[f64],
    origin: &[f64],
    normal: &[f64],
    scaled: u8,
    strict: u8,
    tol: f64,
    numbers: &mut [f64],
    nodes: &mut [u32],
    ends: &mut [u32],
) -> Section
    ensures { Gave
        (plane_cut (cell cell_type conn.now coords.now) (through_by (scaling_of scaled) origin.now normal.now) (strictness_of strict) tol
        (lengths (buffers numbers.old nodes.old ends.old)))
        (told_in result) (buffers numbers.old nodes.old ends.old)
        (buffers numbers.new nodes.new ends.new)
        × (result.defaulted
        ≡ told_count (plane_defaulted (cell cell_type conn.now coords.now) (through_by (scaling_of scaled) origin.now normal.now) tol
        (lengths (buffers numbers.old nodes.old ends.old))))
        × (result.comparisons
        ≡ told_count (plane_comparisons (cell cell_type conn.now coords.now) (through_by (scaling_of scaled) origin.now normal.now) tol
        (lengths (buffers numbers.old nodes.old ends.old)))) }
{
    let cell = Cell {
        cell_type,
        conn,
        coords,
    };
    let through = Through {
        origin,
        vector: normal,
        scaling: Scaling::from(scaled),
    };
    told_section(plane_cut::section_cell_by_plane(
        &cell,
        &through,
        Strictness::from(strict),
        tol,
        numbers,
        nodes,
        ends,
    ))
}

// The segments of a space cell on a plane, before they are stitched; its normal scaled unless `scaled` is 0.
pub fn cicelybeam_gather(
    cell_type: u8,
    conn: &[u64],
    coords: &[f64],
    origin: &[f64],
    normal: &[f64],
    scaled: u8,
    tol: f64,
    numbers: &mut [f64],
) -> Line
    ensures { GaveLine
        (gather_cut (cell cell_type conn.now coords.now)
        (through_by (scaling_of scaled) origin.now normal.now) tol (length numbers.old))
        (told_line_in result) numbers.old numbers.new
        × (result.defaulted
        ≡ told_count (gather_defaulted (cell cell_type conn.now coords.now) (through_by (scaling_of scaled) origin.now normal.now) tol (length numbers.old))) }
{
    let cell = Cell {
        cell_type,
        conn,
        coords,
    };
    let through = Through {
        origin,
        vector: normal,
        scaling: Scaling::from(scaled),
    };
    told_line(gather::gather_cell_by_plane(&cell, &through, tol, numbers))
}

// A space cell cut by a line.
pub fn cicelybeam_line_in_space(
    cell_type: u8,
    conn: &[u64],
    coords: &[f64],
    origin: &[f64],
    direction: &[f64],
    tol: f64,
    numbers: &mut [f64],
) -> Line
    ensures { GaveLine
        (line_cut (cell cell_type conn.now coords.now)
        (through origin.now direction.now) tol (length numbers.old))
        (told_line_in result) numbers.old numbers.new
        × (result.defaulted
        ≡ told_count (line_defaulted (cell cell_type conn.now coords.now) (through origin.now direction.now) tol (length numbers.old))) }
{
    let cell = Cell {
        cell_type,
        conn,
        coords,
    };
    let through = Through {
        origin,
        vector: direction,
        scaling: Scaling::AsGiven,
    };
    told_line(line_cut::slice_line_3d(&cell, &through, tol, numbers))
}

// A plane cell cut by a line that its normal gives, scaled unless `scaled` is 0.
pub fn cicelybeam_plane_cell_by_normal(
    cell_type: u8,
    conn: &[u64],
    coords: &[f64],
    origin: &[f64],
    normal: &[f64],
    scaled: u8,
    tol: f64,
    numbers: &mut [f64],
) -> Line
    ensures { GaveLine
        (plane_cell_cut way.Normal (cell cell_type conn.now coords.now)
        (through_by (scaling_of scaled) origin.now normal.now) tol (length numbers.old))
        (told_line_in result) numbers.old numbers.new
        × (result.defaulted
        ≡ told_count (plane_cell_defaulted way.Normal (cell cell_type conn.now coords.now) (through_by (scaling_of scaled) origin.now normal.now) tol
        (length numbers.old))) }
{
    let cell = Cell {
        cell_type,
        conn,
        coords,
    };
    let through = Through {
        origin,
        vector: normal,
        scaling: Scaling::from(scaled),
    };
    told_line(plane_cell::slice_2d(Way::Normal, &cell, &through, tol, numbers))
}

// A plane cell cut by a line that its direction gives.
pub fn cicelybeam_plane_cell_by_direction(
    cell_type: u8,
    conn: &[u64],
    coords: &[f64],
    origin: &[f64],
    direction: &[f64],
    tol: f64,
    numbers: &mut [f64],
) -> Line
    ensures { GaveLine
        (plane_cell_cut way.Direction (cell cell_type conn.now coords.now)
        (through origin.now direction.now) tol (length numbers.old))
        (told_line_in result) numbers.old numbers.new
        × (result.defaulted
        ≡ told_count (plane_cell_defaulted way.Direction (cell cell_type conn.now coords.now) (through origin.now direction.now) tol
        (length numbers.old))) }
{
    let cell = Cell {
        cell_type,
        conn,
        coords,
    };
    let through = Through {
        origin,
        vector: direction,
        scaling: Scaling::AsGiven,
    };
    told_line(plane_cell::slice_2d(Way::Direction, &cell, &through, tol, numbers))
}

// Stitching alone, which computes no crossing; in the strict way unless `strict` is 0.
pub fn cicelybeam_stitch(
    segments: &[f64],
    strict: u8,
    tol: f64,
    numbers: &mut [f64],
    nodes: &mut [u32],
    ends: &mut [u32],
) -> Section
    ensures { Gave
        (stitch_alone segments.now (strictness_of strict) tol
        (lengths (buffers numbers.old nodes.old ends.old)))
        (told_in result) (buffers numbers.old nodes.old ends.old)
        (buffers numbers.new nodes.new ends.new)
        × (result.defaulted ≡ 0)
        × (result.comparisons
        ≡ told_count (stitch_comparisons segments.now tol
        (lengths (buffers numbers.old nodes.old ends.old)))) }
{
    told_section(without_crossings(stitch::alone::stitch_alone(
        segments,
        Strictness::from(strict),
        tol,
        numbers,
        nodes,
        ends,
    )))
}

// The tolerance of a mesh in space, by its coordinates.
pub fn cicelybeam_tolerance_in_space(coords: &[f64]) -> Tolerance
    ensures { told_tolerance_in result ≡ told_tolerance (tolerance_of 3 coords.now) }
{
    vector::tolerance::<3>(coords).into()
}

// The tolerance of a mesh in the plane.
pub fn cicelybeam_tolerance_in_plane(coords: &[f64]) -> Tolerance
    ensures { told_tolerance_in result ≡ told_tolerance (tolerance_of 2 coords.now) }
{
    vector::tolerance::<2>(coords).into()
}

// The square root as IEEE 754 has it.
pub fn cicelybeam_sqrt(x: f64) -> f64
    ensures { result ≡ sqrt_of binary64 x }
{
    root::sqrt(x)
}

// What was stitched alone, as a section of which no crossing was computed.
fn without_crossings(answer: Result<StitchedSegments, Refusal>) -> Result<CellSection, Refusal>
    ensures { (stitched_in result ≡ stitched_of answer) × (section_count result ≡ 0)
        × (section_comparisons result ≡ comparisons_told answer) }
{
    let stitching = answer?;
    Ok(CellSection {
        stitched: stitching.stitched,
        defaulted: 0,
        comparisons: stitching.comparisons,
    })
}

// An answer as a C struct. `From` asks nothing, and this asks that the numbers fit 32 bits.
fn told_section(answer: Result<CellSection, Refusal>) -> Section
    requires { Small (section_told (stitched_in answer)) × (section_count answer < 4294967296)
        × (section_comparisons answer < 4294967296) }
    ensures { (told_in result ≡ section_told (stitched_in answer)) × (result.defaulted ≡ section_count answer)
        × (result.comparisons ≡ section_comparisons answer) }
{
    match answer {
        Ok(section) => told_cell_section(section),
        Err(refusal) => Section {
            refusal: u32::from(refusal),
            ..Section::default()
        },
    }
}

// A section's numbers in 32 bits, which it asks as well.
fn told_cell_section(section: CellSection) -> Section
    requires { Small (record { refusal = 0; answer = section.stitched }) × (section.defaulted < 4294967296)
        × (section.comparisons < 4294967296) }
    ensures { (told_in result ≡ record { refusal = 0; answer = section.stitched }) × (result.defaulted ≡ section.defaulted)
        × (result.comparisons ≡ section.comparisons) }
{
    let s = section.stitched;
    Section {
        refusal: 0,
        points: s.points as u32,
        nodes: s.nodes as u32,
        loops: s.loops as u32,
        listed: s.counts.listed as u32,
        in_loops: s.counts.in_loops as u32,
        pinched: s.counts.pinched as u32,
        flat: s.counts.flat as u32,
        opened: s.counts.opened as u32,
        defaulted: section.defaulted as u32,
        comparisons: section.comparisons as u32,
    }
}

// A line section as a C struct. No `From` either: it asks that the numbers fit.
fn told_line(answer: Result<Found, Refusal>) -> Line
    requires { ((line_told answer).segments < 4294967296) × (line_count answer < 4294967296) }
    ensures { (told_line_in result ≡ line_told answer) × (result.defaulted ≡ line_count answer) }
{
    match answer {
        Ok(found) => Line {
            refusal: 0,
            segments: found.segments as u32,
            defaulted: found.defaulted as u32,
        },
        Err(refusal) => Line {
            refusal: u32::from(refusal),
            ..Line::default()
        },
    }
}
