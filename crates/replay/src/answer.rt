// An entry's answer to a record.
ghost use Rattle.replay.specs.Entry.{Decodes};

use cicelybeam::{
    Line, Section, Tolerance, cicelybeam_gather, cicelybeam_line_in_space, cicelybeam_plane,
    cicelybeam_plane_cell_by_direction, cicelybeam_plane_cell_by_normal, cicelybeam_sqrt,
    cicelybeam_stitch, cicelybeam_tolerance_in_plane, cicelybeam_tolerance_in_space,
};

// The entries. A record has their number.
#[derive(Clone, Copy)]
pub enum Entry {
    Plane,
    LineInSpace,
    PlaneCellByNormal,
    PlaneCellByDirection,
    Stitch,
    ToleranceInSpace,
    ToleranceInPlane,
    Sqrt,
    Gather,
}

// A number that names no entry.
#[derive(Clone, Copy)]
pub struct UnknownEntry(pub u64);

impl TryFrom<u64> for Entry {
    type Error = UnknownEntry;

    ghost try_from_gives = { Decodes };

    fn try_from(number: u64) -> Result<Self, UnknownEntry> {
        match number {
            1 => Ok(Entry::Plane),
            2 => Ok(Entry::LineInSpace),
            3 => Ok(Entry::PlaneCellByNormal),
            4 => Ok(Entry::PlaneCellByDirection),
            5 => Ok(Entry::Stitch),
            6 => Ok(Entry::ToleranceInSpace),
            7 => Ok(Entry::ToleranceInPlane),
            8 => Ok(Entry::Sqrt),
            9 => Ok(Entry::Gather),
            _ => Err(UnknownEntry(number)),
        }
    }
}

// An entry and what it reads. Segments that are stitched stand for coordinates, and the number whose root is taken for
// the tolerance.
#[derive(Clone, Copy)]
pub struct Case<'a> {
    pub entry: Entry,
    pub scaled: u8,
    pub strict: u8,
    pub cell_type: u8,
    pub tol: f64,
    pub conn: &'a [u64],
    pub coords: &'a [f64],
    pub origin: &'a [f64],
    pub vector: &'a [f64],
}

// The buffers that an entry is lent.
#[derive(Drop)]
pub struct Buffers<'a> {
    pub numbers: &'a mut [f64],
    pub nodes: &'a mut [u32],
    pub ends: &'a mut [u32],
}

impl Case<'_> {
    // What the entry tells.
    pub fn answer(&self, lent: &mut Buffers) -> Answered {
        match self.entry {
            Entry::Plane => self.plane(lent),
            Entry::Stitch => cicelybeam_stitch(
                self.coords,
                self.strict,
                self.tol,
                lent.numbers,
                lent.nodes,
                lent.ends,
            )
            .into(),
            Entry::ToleranceInSpace => cicelybeam_tolerance_in_space(self.coords).into(),
            Entry::ToleranceInPlane => cicelybeam_tolerance_in_plane(self.coords).into(),
            Entry::Sqrt => Answered {
                value: cicelybeam_sqrt(self.tol),
                ..Answered::default()
            },
            Entry::LineInSpace => self.by_direction(cicelybeam_line_in_space, lent.numbers),
            Entry::Gather => self.by_normal(cicelybeam_gather, lent.numbers),
            Entry::PlaneCellByNormal => {
                self.by_normal(cicelybeam_plane_cell_by_normal, lent.numbers)
            }
            Entry::PlaneCellByDirection => {
                self.by_direction(cicelybeam_plane_cell_by_direction, lent.numbers)
            }
        }
    }

    fn plane(&self, lent: &mut Buffers) -> Answered {
        cicelybeam_plane(
            self.cell_type,
            self.conn,
            self.coords,
            self.origin,
            self.vector,
            self.scaled,
            self.strict,
            self.tol,
            lent.numbers,
            lent.nodes,
            lent.ends,
        )
        .into()
    }

    // What an entry tells that writes segments alone, of a cut by its normal.
    fn by_normal<F>(&self, cut: F, numbers: &mut [f64]) -> Answered
    where
        F: Fn(u8, &[u64], &[f64], &[f64], &[f64], u8, f64, &mut [f64]) -> Line,
        requires { F.IsAlwaysCallable cut }
    {
        cut(
            self.cell_type,
            self.conn,
            self.coords,
            self.origin,
            self.vector,
            self.scaled,
            self.tol,
            numbers,
        )
        .into()
    }

    // And of a cut by its direction.
    fn by_direction<F>(&self, cut: F, numbers: &mut [f64]) -> Answered
    where
        F: Fn(u8, &[u64], &[f64], &[f64], &[f64], f64, &mut [f64]) -> Line,
        requires { F.IsAlwaysCallable cut }
    {
        cut(
            self.cell_type,
            self.conn,
            self.coords,
            self.origin,
            self.vector,
            self.tol,
            numbers,
        )
        .into()
    }
}

// What an entry tells: refusal, points or segments, nodes, loops, the five counts of edges, how many crossings were defaulted, and how many
// comparisons of points were made; and a tolerance or a root.
#[derive(Clone, Copy, Default)]
pub struct Answered {
    pub counts: [u32; 11],
    pub value: f64,
}

impl From<Section> for Answered {
    fn from(s: Section) -> Self {
        Answered {
            counts: [
                s.refusal,
                s.points,
                s.nodes,
                s.loops,
                s.listed,
                s.in_loops,
                s.pinched,
                s.flat,
                s.opened,
                s.defaulted,
                s.comparisons,
            ],
            value: 0.0,
        }
    }
}

impl From<Line> for Answered {
    fn from(l: Line) -> Self {
        Answered {
            counts: [l.refusal, l.segments, 0, 0, 0, 0, 0, 0, 0, l.defaulted, 0],
            value: 0.0,
        }
    }
}

impl From<Tolerance> for Answered {
    fn from(t: Tolerance) -> Self {
        Answered {
            counts: [t.refusal, 0, 0, 0, 0, 0, 0, 0, 0, 0, 0],
            value: t.value,
        }
    }
}
