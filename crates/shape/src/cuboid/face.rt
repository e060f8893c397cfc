// A face of a cuboid: its four corners, and the ids of its vertices, of its edges and of itself.
ghost use Rattle.std.specs.Prelude.{◌≡◌, ℕ, ◌+◌, ◌*◌, if◌then◌else◌, map, bit_or};
ghost use Rattle.std.specs.Float.Ieee as Ieee;
ghost use Rattle.math.specs.Floats.{◌⊗◌, zero, one};
ghost use Rattle.math.specs.Vectors.{coordinate};
ghost use Rattle.shape.specs.Cuboids.{axis_number, side_number, main_axis_of, on_side, Across, face_vertices_of, vertex_codes_of, edge_codes_of};
ghost use Rattle.shape.specs.Ids.{vertex_header, edge_header, face_header, header, packed, four_codes};

use crate::feature_id::{FeatureKind, PackedFeatureId};
use math::vector::Vector;

#[derive(Clone, Copy)]
pub(super) enum Axis {
    X,
    Y,
    Z,
}

#[derive(Clone, Copy)]
pub(super) enum Side {
    Negative,
    Positive,
}

// The axis that the face lies across, and the side along it.
#[derive(Clone, Copy)]
pub(super) struct Face {
    pub(super) axis: Axis,
    pub(super) side: Side,
}

impl Axis {
    #[tactic(auto, using(crate::proofs::Cuboids::axis_below))]
    pub(super) fn main(dir: Vector) -> Axis
        ensures { axis_number result ≡ main_axis_of dir }
    {
        match dir.abs().max_position() {
            0 => Axis::X,
            1 => Axis::Y,
            _ => Axis::Z,
        }
    }

    pub(super) fn component(self, v: Vector) -> f64
        ensures { result ≡ coordinate v (axis_number self) }
    {
        match self {
            Axis::X => v.x,
            Axis::Y => v.y,
            Axis::Z => v.z,
        }
    }
}

impl Side {
    // The Rust casts the sign, which is 1 or -1, to a whole number; here a test tells the two apart.
    pub(super) fn of(sign: f64) -> Side
        ensures { side_number result ≡ (if Ieee.lt zero sign then 1 else 0) }
    {
        if sign > 0.0 {
            Side::Positive
        } else {
            Side::Negative
        }
    }
}

// The coordinate across the face. A product by 1 or -1 is exact.
fn across(half_extent: f64, sign: f64) -> f64
    ensures value { result ≡ half_extent ⊗ sign }
    ensures exact { (side : ℕ) → sign ≡ on_side side one → result ≡ on_side side half_extent }
{
    half_extent * sign
}

// The ids of these codes with these bits set. Codes handed on as an array to be packed took a fifth more time.
fn ids_with_bits(kind: FeatureKind, codes: [u8; 4], bits: u8) -> [PackedFeatureId; 4]
    ensures { result ≡ map (λ code. packed (header kind) (bit_or code bits)) codes }
{
    codes.map(|code| PackedFeatureId::small(kind, code | bits))
}

impl Face {
    // Corner by corner, as the Rust crate that is ported has them.
    #[tactic(auto, unfolding(crate::specs::Cuboids::face_vertices_of))]
    pub(super) fn vertices(self, he: Vector, sign: f64) -> [Vector; 4]
        ensures value { result ≡ face_vertices_of he (axis_number self.axis) sign }
        ensures exact { (side : ℕ) → sign ≡ on_side side one → Across he (axis_number self.axis) side result }
    {
        match self.axis {
            Axis::X => {
                let x = across(he.x, sign);
                [
                    Vector::new(x, he.y, he.z),
                    Vector::new(x, -he.y, he.z),
                    Vector::new(x, -he.y, -he.z),
                    Vector::new(x, he.y, -he.z),
                ]
            }
            Axis::Y => {
                let y = across(he.y, sign);
                [
                    Vector::new(he.x, y, he.z),
                    Vector::new(-he.x, y, he.z),
                    Vector::new(-he.x, y, -he.z),
                    Vector::new(he.x, y, -he.z),
                ]
            }
            Axis::Z => {
                let z = across(he.z, sign);
                [
                    Vector::new(he.x, he.y, z),
                    Vector::new(he.x, -he.y, z),
                    Vector::new(-he.x, -he.y, z),
                    Vector::new(-he.x, he.y, z),
                ]
            }
        }
    }

    // Each vertex has an even code, twice its corner's number.
    pub(super) fn vertex_ids(self) -> [PackedFeatureId; 4]
        ensures { result ≡ four_codes vertex_header (vertex_codes_of (axis_number self.axis) (side_number self.side)) }
    {
        let sign_index = self.side as u8;
        match self.axis {
            Axis::X => ids_with_bits(
                FeatureKind::Vertex,
                [0b000 << 1, 0b010 << 1, 0b011 << 1, 0b001 << 1],
                sign_index << 3,
            ),
            Axis::Y => ids_with_bits(
                FeatureKind::Vertex,
                [0b000 << 1, 0b100 << 1, 0b101 << 1, 0b001 << 1],
                sign_index << 2,
            ),
            Axis::Z => ids_with_bits(
                FeatureKind::Vertex,
                [0b000 << 1, 0b010 << 1, 0b110 << 1, 0b100 << 1],
                sign_index << 1,
            ),
        }
    }

    pub(super) fn edge_ids(self) -> [PackedFeatureId; 4]
        ensures { result ≡ four_codes edge_header (edge_codes_of (axis_number self.axis) (side_number self.side)) }
    {
        let sign_index = self.side as u8;
        match self.axis {
            Axis::X => ids_with_bits(
                FeatureKind::Edge,
                [0b11_010_000, 0b11_011_010, 0b11_011_001, 0b11_001_000],
                (sign_index << 2) | (sign_index << 5),
            ),
            Axis::Y => ids_with_bits(
                FeatureKind::Edge,
                [0b11_100_000, 0b11_101_100, 0b11_101_001, 0b11_001_000],
                (sign_index << 1) | (sign_index << 4),
            ),
            Axis::Z => ids_with_bits(
                FeatureKind::Edge,
                [0b11_010_000, 0b11_110_010, 0b11_110_100, 0b11_100_000],
                sign_index | (sign_index << 3),
            ),
        }
    }

    pub(super) fn id(self) -> PackedFeatureId
        ensures { result ≡ packed face_header (axis_number self.axis + side_number self.side * 3 + 10) }
    {
        PackedFeatureId::small(
            FeatureKind::Face,
            self.axis as u8 + self.side as u8 * 3 + 10,
        )
    }
}
