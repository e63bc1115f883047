// The types of cells: their numbers, node counts, corner counts and shapes.
ghost use Rattle.std.specs.Prelude.{◌≡◌, ok_or};
ghost use Rattle.rows.specs.declared.Refusal.TheVariants.{CellType};
ghost use Rattle.cell.specs.Types.{allow, shape_numbered, shape_of, space_nodes, space_type};
ghost use Rattle.cell.specs.Types.{corners_numbered, plane_corners, plane_nodes, plane_type};

use rows::Refusal;

// How many nodes a type has.
#[derive(Clone, Copy)]
pub enum Nodes {
    Exactly(usize),
    AtMost(usize),
}

impl Nodes {
    // Whether n nodes are as many.
    pub fn allow(self, n: usize) -> bool
        ensures { result ≡ allow self n }
    {
        match self {
            Nodes::Exactly(k) => n == k,
            Nodes::AtMost(k) => n <= k,
        }
    }
}

// The types of a cell in space.
#[derive(Clone, Copy)]
pub enum SpaceType {
    Tet4,
    Tet10,
    Hex8,
    Hex21,
    Wedge6,
    Wedge15,
    Phed,
}

// The types by their faces.
#[derive(Clone, Copy)]
pub enum Shape {
    Tet,
    Wedge,
    Hex,
    Phed,
}

// The type with a number.
impl TryFrom<u8> for SpaceType {
    type Error = Refusal;

    ghost try_from_gives = { λ n r. r ≡ ok_or (space_type n) CellType };

    #[tactic(auto, unfolding(crate::specs::Types::space_type))]
    fn try_from(cell_type: u8) -> Result<SpaceType, Refusal> {
        match cell_type {
            SpaceType::TET4 => Ok(SpaceType::Tet4),
            SpaceType::TET10 => Ok(SpaceType::Tet10),
            SpaceType::HEX8 => Ok(SpaceType::Hex8),
            SpaceType::HEX21 => Ok(SpaceType::Hex21),
            SpaceType::WEDGE6 => Ok(SpaceType::Wedge6),
            SpaceType::WEDGE15 => Ok(SpaceType::Wedge15),
            SpaceType::PHED => Ok(SpaceType::Phed),
            _ => Err(Refusal::CellType),
        }
    }
}

impl SpaceType {
    // The type numbers.
    pub const TET4: u8 = 12;

    pub const TET10: u8 = 13;

    pub const HEX8: u8 = 14;

    pub const HEX21: u8 = 15;

    pub const WEDGE6: u8 = 16;

    pub const WEDGE15: u8 = 17;

    pub const PHED: u8 = 18;

    // Its node count; of a PHED the most entries, separators counted.
    pub fn nodes(self) -> Nodes
        ensures { result ≡ space_nodes self }
    {
        match self {
            SpaceType::Tet4 => Nodes::Exactly(4),
            SpaceType::Tet10 => Nodes::Exactly(10),
            SpaceType::Hex8 => Nodes::Exactly(8),
            SpaceType::Hex21 => Nodes::Exactly(21),
            SpaceType::Wedge6 => Nodes::Exactly(6),
            SpaceType::Wedge15 => Nodes::Exactly(15),
            SpaceType::Phed => Nodes::AtMost(256),
        }
    }

    // The shape of the type with a number; of a number that has none a polyhedron, whose faces any connectivity has.
    pub fn shape_of(cell_type: u8) -> Shape
        ensures { result ≡ shape_numbered cell_type }
    {
        match SpaceType::try_from(cell_type) {
            Ok(kind) => kind.shape(),
            Err(_) => Shape::Phed,
        }
    }

    // The shape whose faces it has.
    pub fn shape(self) -> Shape
        ensures { result ≡ shape_of self }
    {
        match self {
            SpaceType::Tet4 | SpaceType::Tet10 => Shape::Tet,
            SpaceType::Hex8 | SpaceType::Hex21 => Shape::Hex,
            SpaceType::Wedge6 | SpaceType::Wedge15 => Shape::Wedge,
            SpaceType::Phed => Shape::Phed,
        }
    }
}

// The types of a cell in the plane, with `try_from` and `nodes` of their own. They share no case with those in space, so one enum for both
// would need two more to part them.
#[derive(Clone, Copy)]
pub enum PlaneType {
    Tri3,
    Tri6,
    Tri7,
    Quad4,
    Quad8,
    Quad9,
    Pgon,
}

// The type with a number.
impl TryFrom<u8> for PlaneType {
    type Error = Refusal;

    ghost try_from_gives = { λ n r. r ≡ ok_or (plane_type n) CellType };

    #[tactic(auto, unfolding(crate::specs::Types::plane_type))]
    fn try_from(cell_type: u8) -> Result<PlaneType, Refusal> {
        match cell_type {
            PlaneType::TRI3 => Ok(PlaneType::Tri3),
            PlaneType::TRI6 => Ok(PlaneType::Tri6),
            PlaneType::TRI7 => Ok(PlaneType::Tri7),
            PlaneType::QUAD4 => Ok(PlaneType::Quad4),
            PlaneType::QUAD8 => Ok(PlaneType::Quad8),
            PlaneType::QUAD9 => Ok(PlaneType::Quad9),
            PlaneType::PGON => Ok(PlaneType::Pgon),
            _ => Err(Refusal::CellType),
        }
    }
}

impl PlaneType {
    // The type numbers.
    pub const TRI3: u8 = 5;

    pub const TRI6: u8 = 6;

    pub const TRI7: u8 = 7;

    pub const QUAD4: u8 = 8;

    pub const QUAD8: u8 = 9;

    pub const QUAD9: u8 = 10;

    pub const PGON: u8 = 11;

    // Its node count; of a PGON the most.
    pub fn nodes(self) -> Nodes
        ensures { result ≡ plane_nodes self }
    {
        match self {
            PlaneType::Tri3 => Nodes::Exactly(3),
            PlaneType::Tri6 => Nodes::Exactly(6),
            PlaneType::Tri7 => Nodes::Exactly(7),
            PlaneType::Quad4 => Nodes::Exactly(4),
            PlaneType::Quad8 => Nodes::Exactly(8),
            PlaneType::Quad9 => Nodes::Exactly(9),
            PlaneType::Pgon => Nodes::AtMost(256),
        }
    }

    // The corner count of the type with a number; of a number that has none all n nodes.
    pub fn corners_of(cell_type: u8, n: usize) -> usize
        ensures { result ≡ corners_numbered cell_type n }
    {
        match PlaneType::try_from(cell_type) {
            Ok(kind) => kind.corners(n),
            Err(_) => n,
        }
    }

    // Its corner count: of n nodes the first so many are the corners.
    pub fn corners(self, n: usize) -> usize
        ensures { result ≡ plane_corners self n }
    {
        match self {
            PlaneType::Tri3 | PlaneType::Tri6 | PlaneType::Tri7 => 3,
            PlaneType::Quad4 | PlaneType::Quad8 | PlaneType::Quad9 => 4,
            PlaneType::Pgon => n,
        }
    }
}
