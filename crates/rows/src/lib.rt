// Flat slices read in rows (definitions only, in `specs/`), and why there is no answer.
#![tactic(auto)]

ghost use Rattle.std.specs.Prelude.{◌≡◌};
ghost use Rattle.rows.specs.Refusals.{number};

// Why there is no answer. The first that applies is told, in this order; stitching alone tests the last one first.
#[derive(Clone, Copy, Debug, PartialEq, Eq)]
pub enum Refusal {
    CellType = 1,
    NodeCount = 2,
    PartialRow = 3,
    NoSuchRow = 4,
    VectorLength = 5,
    NoDirection = 6,
    ShortBuffer = 7,
    Segments = 8,
}

// The number that is told.
impl From<Refusal> for u32 {
    ghost from_gives = { λ refusal n. n ≡ number refusal };

    fn from(refusal: Refusal) -> u32 {
        refusal as u32
    }
}
