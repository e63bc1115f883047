// A cell's faces and corners: refusals 1 to 4 are tested first, and the corners of what is accepted are copied.
#![tactic(auto)]

pub mod accepted;
pub mod types;

ghost use Rattle.std.specs.Prelude.{◌≡◌, ◌+◌, ◌*◌, ◌/◌, ◌<◌, ◌≤◌, length, get_or, take};
ghost use mathlib.Core.List.{flatten};
ghost use Rattle.std.proofs.Math.Seq.{paste};
ghost use Rattle.rows.specs.Refusals.{outcome_of};
ghost use Rattle.rows.specs.Rows.{over, row};
ghost use Rattle.cell.specs.Faces.{stretches, kept, faces_of};
ghost use Rattle.cell.specs.Read.{polygons, space_cell, plane_cell, polygons_of, corners_of, face_count};
ghost use Rattle.cell.specs.Read.{cell_of, Copied, CopiedPolygon, Tested};
ghost use Rattle.cell.specs.Code.{Below, gathered, rows_tested, corners_tested, Listed, Testable};
ghost use Rattle.cell.specs.Code.{Copies, CopiesFaces, PutsFaces, PutFaces};

use accepted::{PlaneCell, SpaceCell};
use rows::Refusal;
use types::{Nodes, PlaneType, Shape, SpaceType};

// A cell as it is handed over: a type number, node numbers, and coordinates.
#[derive(Clone, Copy)]
pub struct Cell<'a> {
    pub cell_type: u8,
    pub conn: &'a [u64],
    pub coords: &'a [f64],
}

// How many face corners and faces are kept.
#[derive(Clone, Copy)]
pub struct Kept {
    pub corners: usize,
    pub faces: usize,
}

impl<'a> Cell<'a> {
    // The accepted cell in space, or one of refusals 1 to 4.
    pub fn in_space(&self) -> Result<SpaceCell<'a>, Refusal>
        ensures { Tested (λ taken. cell_of taken.cell ≡ cell_of self.now) (space_cell (cell_of self.now)) result }
    {
        let kind = SpaceType::try_from(self.cell_type)?;
        let rows = self.rows::<3>(kind.nodes())?;
        let corners = self.test_faces(kind.shape(), rows)?;
        Ok(SpaceCell {
            cell: *self,
            kind,
            corners,
        })
    }

    // The accepted cell in the plane, or one of refusals 1 to 4.
    pub fn in_plane(&self) -> Result<PlaneCell<'a>, Refusal>
        ensures { Tested (λ taken. cell_of taken.cell ≡ cell_of self.now) (plane_cell (cell_of self.now)) result }
    {
        let kind = PlaneType::try_from(self.cell_type)?;
        let rows = self.rows::<2>(kind.nodes())?;
        let n = kind.corners(self.conn.len());
        let corners = self.test_corners(&POSITIONS[..n], rows)?;
        Ok(PlaneCell {
            cell: *self,
            kind,
            corners,
        })
    }

    // Refusals 2 and 3 of a type with so many nodes, or how many rows of W coordinates there are.
    fn rows<const W: usize>(&self, nodes: Nodes) -> Result<usize, Refusal>
        requires { 0 < W }
        ensures { outcome_of result ≡ rows_tested W nodes (cell_of self.now) }
    {
        if !nodes.allow(self.conn.len()) {
            return Err(Refusal::NodeCount);
        }
        if self.coords.len() % W != 0 {
            return Err(Refusal::PartialRow);
        }
        Ok(self.coords.len() / W)
    }

    // Refusal 4, or how many corners the faces of this shape have.
    fn test_faces(&self, shape: Shape, rows: usize) -> Result<usize, Refusal>
        requires { Testable (cell_of self.now) (faces_of shape self.now.conn.now) }
        ensures { outcome_of result ≡ corners_tested (cell_of self.now) rows
            (flatten (faces_of shape self.now.conn.now)) }
    {
        match shape {
            Shape::Tet => self.test_corners(TET.corners, rows),
            Shape::Wedge => self.test_corners(WEDGE.corners, rows),
            Shape::Hex => self.test_corners(HEX.corners, rows),
            Shape::Phed => {
                let mut corners = [0; 256];
                let mut ends = [0; 85];
                let kept = list_phed(self.conn, &mut corners, &mut ends);
                self.test_corners(&corners[..kept.corners], rows)
            }
        }
    }

    // Refusal 4, or how many corners these are.
    fn test_corners(&self, corners: &[u8], rows: usize) -> Result<usize, Refusal>
        requires { Below (length self.now.conn.now) corners.now }
        ensures { outcome_of result ≡ corners_tested (cell_of self.now) rows corners.now }
    {
        for p in corners {
            if rows <= self.node(*p) {
                return Err(Refusal::NoSuchRow);
            }
        }
        Ok(corners.len())
    }

    // The corners of the faces of this shape, all of which are rows.
    fn copy_faces(&self, shape: Shape, out: &mut [f64], face_ends: &mut [usize]) -> Kept
        requires { CopiesFaces (cell_of self.now) (faces_of shape self.now.conn.now) out.old face_ends.old }
        ensures { Copied (polygons 3 self.now.conn.now self.now.coords.now (faces_of shape self.now.conn.now)) result
            out.old out.new face_ends.old face_ends.new }
    {
        match shape {
            Shape::Tet => self.put_faces(TET, out, face_ends),
            Shape::Wedge => self.put_faces(WEDGE, out, face_ends),
            Shape::Hex => self.put_faces(HEX, out, face_ends),
            Shape::Phed => {
                let mut corners = [0; 256];
                let mut ends = [0; 85];
                let kept = list_phed(self.conn, &mut corners, &mut ends);
                let faces = FaceList {
                    corners: &corners[..kept.corners],
                    ends: &ends[..kept.faces],
                };
                self.put_faces(faces, out, face_ends)
            }
        }
    }

    // These faces.
    fn put_faces(&self, faces: FaceList, out: &mut [f64], face_ends: &mut [usize]) -> Kept
        requires { PutsFaces (cell_of self.now) faces out.old face_ends.old }
        ensures { PutFaces (cell_of self.now) faces.entry result
            out.old out.new face_ends.old face_ends.new }
    {
        self.copy_rows::<3>(faces.corners, out);
        face_ends[..faces.ends.len()].copy_from_slice(faces.ends);
        Kept {
            corners: faces.corners.len(),
            faces: faces.ends.len(),
        }
    }

    // The corners' rows, one after the other.
    fn copy_rows<const W: usize>(&self, corners: &[u8], out: &mut [f64])
        requires { Copies W (cell_of self.now) corners.now out.old }
        ensures { out.new ≡ over (gathered W (cell_of self.now) corners.now) out.old }
    {
        for (j, p) in corners.iter().enumerate() {
            copy_row::<W>(self.coords, self.node(*p), out, j);
        }
    }

    // The node at a position of the connectivity. By `as`, since there is no `From` from u64 to usize.
    fn node(&self, p: u8) -> usize
        requires { p < length self.now.conn.now }
        ensures { result ≡ get_or self.now.conn.now p 0 }
    {
        self.conn[p as usize] as usize
    }
}

impl SpaceCell<'_> {
    // The corners' coordinates of the cell, written over the start of `out` face by face, and where
    // each face ends among the corners, written over the start of `face_ends`.
    pub fn copy(&self, out: &mut [f64], face_ends: &mut [usize]) -> Kept
        requires { (3 * self.now.corners ≤ length out.old)
            × (face_count (space_cell (cell_of self.now.cell)) ≤ length face_ends.old) }
        ensures { Copied (polygons_of (space_cell (cell_of self.now.cell))) result
            out.old out.new face_ends.old face_ends.new }
    {
        self.cell.copy_faces(self.kind.shape(), out, face_ends)
    }
}

impl PlaneCell<'_> {
    // The corners' coordinates of the cell, written over the start of `out`.
    pub fn copy(&self, out: &mut [f64])
        requires { (2 * self.now.corners ≤ length out.old) }
        ensures { CopiedPolygon (polygons_of (plane_cell (cell_of self.now.cell))) out.old out.new }
    {
        let n = self.kind.corners(self.cell.conn.len());
        self.cell.copy_rows::<2>(&POSITIONS[..n], out)
    }
}

// Faces in a row: their corners, as positions in the connectivity, and where each ends among them.
#[derive(Clone, Copy)]
struct FaceList<'a> {
    corners: &'a [u8],
    ends: &'a [usize],
}

const TET: FaceList = FaceList {
    corners: &[0, 1, 3, 1, 2, 3, 2, 0, 3, 0, 2, 1],
    ends: &[3, 6, 9, 12],
};

const WEDGE: FaceList = FaceList {
    corners: &[0, 2, 1, 3, 4, 5, 0, 1, 4, 3, 1, 2, 5, 4, 2, 0, 3, 5],
    ends: &[3, 6, 10, 14, 18],
};

const HEX: FaceList = FaceList {
    corners: &[
        0, 3, 2, 1, 4, 5, 6, 7, 0, 1, 5, 4, 2, 3, 7, 6, 1, 2, 6, 5, 3, 0, 4, 7,
    ],
    ends: &[4, 8, 12, 16, 20, 24],
};

// The positions in a connectivity; the first n are the corners of a polygon.
const POSITIONS: [u8; 256] = [
    0, 1, 2, 3, 4, 5, 6, 7, 8, 9, 10, 11, 12, 13, 14, 15, 16, 17, 18, 19, 20, 21, 22, 23, 24, 25,
    26, 27, 28, 29, 30, 31, 32, 33, 34, 35, 36, 37, 38, 39, 40, 41, 42, 43, 44, 45, 46, 47, 48, 49,
    50, 51, 52, 53, 54, 55, 56, 57, 58, 59, 60, 61, 62, 63, 64, 65, 66, 67, 68, 69, 70, 71, 72, 73,
    74, 75, 76, 77, 78, 79, 80, 81, 82, 83, 84, 85, 86, 87, 88, 89, 90, 91, 92, 93, 94, 95, 96, 97,
    98, 99, 100, 101, 102, 103, 104, 105, 106, 107, 108, 109, 110, 111, 112, 113, 114, 115, 116,
    117, 118, 119, 120, 121, 122, 123, 124, 125, 126, 127, 128, 129, 130, 131, 132, 133, 134, 135,
    136, 137, 138, 139, 140, 141, 142, 143, 144, 145, 146, 147, 148, 149, 150, 151, 152, 153, 154,
    155, 156, 157, 158, 159, 160, 161, 162, 163, 164, 165, 166, 167, 168, 169, 170, 171, 172, 173,
    174, 175, 176, 177, 178, 179, 180, 181, 182, 183, 184, 185, 186, 187, 188, 189, 190, 191, 192,
    193, 194, 195, 196, 197, 198, 199, 200, 201, 202, 203, 204, 205, 206, 207, 208, 209, 210, 211,
    212, 213, 214, 215, 216, 217, 218, 219, 220, 221, 222, 223, 224, 225, 226, 227, 228, 229, 230,
    231, 232, 233, 234, 235, 236, 237, 238, 239, 240, 241, 242, 243, 244, 245, 246, 247, 248, 249,
    250, 251, 252, 253, 254, 255,
];

// The entry of a polyhedron that ends a face.
const SEPARATOR: u64 = 0xffff_ffff_ffff_ffff;

// The kept faces of a polyhedron: the positions between separators, without faces of under three. To two arrays: a struct of both was
// measured at 120 to 128 ns, and these at 107.
fn list_phed(conn: &[u64], corners: &mut [u8; 256], ends: &mut [usize; 85]) -> Kept
    requires { (length conn.now ≤ 256) × (length corners.old ≡ 256) × (length ends.old ≡ 85) }
    ensures { Listed (kept (stretches 0 conn.now)) result corners.new ends.new }
{
    let mut n = 0;
    let mut start = 0;
    let mut f = 0;
    for (i, node) in conn.iter().enumerate() {
        if *node != SEPARATOR {
            corners[n] = i as u8;
            n += 1;
        } else if n - start < 3 {
            n = start;
        } else {
            ends[f] = n;
            f += 1;
            start = n;
        }
    }
    if n - start < 3 {
        n = start;
    } else {
        ends[f] = n;
        f += 1;
    }
    Kept {
        corners: n,
        faces: f,
    }
}

// Row i of `from` written over row j of `out`, number by number, as `vector::coord` does and why.
fn copy_row<const W: usize>(from: &[f64], i: usize, out: &mut [f64], j: usize)
    requires from { W * i + W ≤ length from.now }
    requires out { W * j + W ≤ length out.old }
    ensures { out.new ≡ paste out.old (W * j) (row W from.now i) W }
{
    for k in 0..W {
        out[W * j + k] = from[W * i + k];
    }
}
