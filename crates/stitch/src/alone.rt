// Stitching alone: segments that the caller hands over.
ghost use Rattle.std.specs.Prelude.{◌≡◌};
ghost use Rattle.rows.specs.Outcome.{told_count};
ghost use Rattle.stitch.specs.Entry.{Gave, buffers, lengths, room, section_told, stitch_alone};
ghost use Rattle.stitch.specs.Comparisons.{comparisons_told, stitch_comparisons, stitched_of};

use crate::{StitchedSegments, Strictness, stitch_segments};
use rows::Refusal;

// Stitches segments of four numbers each, at most 384: their points, the nodes of the loops, and where each loop ends
// among them; and how many comparisons of points it took. The lent buffers stand one by one, as C lends them.
pub fn stitch_alone(
    segments: &[f64],
    strictness: Strictness,
    tol: f64,
    numbers: &mut [f64],
    nodes: &mut [u32],
    ends: &mut [u32],
) -> Result<StitchedSegments, Refusal>
    ensures { Gave
        (stitch_alone segments.now strictness tol
        (lengths (buffers numbers.old nodes.old ends.old)))
        (section_told (stitched_of result)) (buffers numbers.old nodes.old ends.old)
        (buffers numbers.new nodes.new ends.new)
        × (comparisons_told result
        ≡ told_count (stitch_comparisons segments.now tol
        (lengths (buffers numbers.old nodes.old ends.old)))) }
{
    let s = segments.len() / 4;
    if segments.len() % 4 != 0 || s > 384 {
        return Err(Refusal::Segments);
    }
    if !room(4 * s, s, s / 3, numbers.len(), nodes.len(), ends.len()) {
        return Err(Refusal::ShortBuffer);
    }
    Ok(stitch_segments(segments, strictness, tol, numbers, nodes, ends))
}

// Whether buffers of lengths a, b and c hold x numbers, y nodes and z ends.
pub fn room(x: usize, y: usize, z: usize, a: usize, b: usize, c: usize) -> bool
    ensures { result ≡ room x y z (record { numbers = a; nodes = b; ends = c }) }
{
    x <= a && y <= b && z <= c
}
