// A cuboid along the axes, centred at the origin, and its face that supports a direction. None exists with a half extent that is not above 0 or is above 2^20.
ghost use Rattle.std.specs.Prelude.{◌≡◌, true, if◌then◌else◌, None};
ghost use Rattle.shape.specs.Sizes.{are_sizes};

use crate::cuboid::face::{Axis, Face, Side};
use crate::polygonal_feature3d::PolygonalFeature;
use math::limits::Given;
use math::refusal::Refusal;
use math::vector::Vector;
use math::wops;

mod face;

#[derive(Clone, Copy, Debug, PartialEq)]
pub struct Cuboid {
    pub half_extents: Vector,
    ghost sized: { are_sizes half_extents ≡ true },
}

impl Cuboid {
    ghost use Rattle.math.specs.Refusals.{told, told_as};
    ghost use Rattle.math.specs.Vectors.{sizes, FirstLargest};
    ghost use Rattle.shape.specs.Features.{fields};
    ghost use Rattle.shape.specs.Supports.{direction_given, supporting};
    ghost use Rattle.shape.specs.Cuboids.{extents_of, making, main_axis_of, AroundFace, ExactlyAround, Supporting, cuboid_fields};

    #[tactic(auto, using(crate::proofs::Cuboids::sized))]
    pub fn new(half_extents: Vector) -> Result<Cuboid, Refusal>
        ensures { told_as extents_of result ≡ making half_extents }
    {
        if !half_extents.is_given() {
            return Err(Refusal::NumberOutOfRange);
        }
        let he = half_extents;
        if !((he.x > 0.0) & (he.y > 0.0) & (he.z > 0.0)) {
            return Err(Refusal::SizeNotPositive);
        }
        Ok(Cuboid { half_extents })
    }

    fn face_towards(&self, local_dir: Vector, out_feature: &mut PolygonalFeature)
        ensures value { fields out_feature.new ≡ cuboid_fields self.now.half_extents local_dir }
        ensures exact { ExactlyAround self.now.half_extents local_dir out_feature.new.vertices }
    {
        let axis = Axis::main(local_dir);
        let sign = wops::copy_sign_to(axis.component(local_dir), 1.0);
        let face = Face {
            axis,
            side: Side::of(sign),
        };
        *out_feature = PolygonalFeature {
            vertices: face.vertices(self.half_extents, sign),
            vids: face.vertex_ids(),
            eids: face.edge_ids(),
            fid: face.id(),
            num_vertices: 4,
        };
    }

    // The face across the axis along which the direction is largest in size, on the side of its sign there.
    #[tactic(auto, using(crate::proofs::Cuboids::supports, crate::proofs::Cuboids::first_largest, crate::proofs::Cuboids::sizes_number))]
    pub fn support_face(
        &self,
        local_dir: Vector,
        out_feature: &mut PolygonalFeature,
    ) -> Result<(), Refusal>
        ensures answer { told result ≡ supporting local_dir None }
        ensures after { fields out_feature.new ≡ (if direction_given local_dir None then cuboid_fields self.now.half_extents local_dir else fields out_feature.old) }
        ensures axis { direction_given local_dir None ≡ true → FirstLargest (sizes local_dir) (main_axis_of local_dir) }
        ensures corners { direction_given local_dir None ≡ true → AroundFace self.now.half_extents local_dir out_feature.new.vertices }
        ensures exact { direction_given local_dir None ≡ true → ExactlyAround self.now.half_extents local_dir out_feature.new.vertices }
        ensures numbers { direction_given local_dir None ≡ true → Supporting local_dir (fields out_feature.new) }
    {
        if !local_dir.is_given() {
            return Err(Refusal::NumberOutOfRange);
        }
        self.face_towards(local_dir, out_feature);
        Ok(())
    }
}
