// What every shape answers: one polygonal feature for a direction and an optional hint. The answers of the cuboid and the cylinder stand here too.
ghost use Rattle.std.specs.Prelude.{◌≡◌, true, if◌then◌else◌};
ghost use Rattle.math.specs.Floats.{two};
ghost use Rattle.math.specs.Magnitude.{vector2_within};
ghost use Rattle.math.specs.Refusals.{told};
ghost use Rattle.shape.specs.Features.{fields};
ghost use Rattle.shape.specs.Supports.{Meaning, direction_given, supporting};
ghost use Rattle.shape.specs.Cuboids.{cuboid_meaning};
ghost use Rattle.shape.specs.Cylinders.{azimuth, side, cap, cylinder_fields, cylinder_meaning, AzimuthFrom, StandsAt};

use crate::cuboid::Cuboid;
use crate::cylinder::Cylinder;
use crate::feature_id::{FeatureKind, PackedFeatureId};
use crate::polygonal_feature3d::PolygonalFeature;
use math::limits::Given;
use math::refusal::Refusal;
use math::vector::Vector;
use math::vector2::Vector2;
use math::wops;

pub trait PolygonalFeatureMap {
    // The fields of the feature, for a shape, a direction and a hint.
    ghost meaning: { Meaning Self };

    // Numbers that may not be given are turned down with 2, and `out_feature` is as before. Direction, hint and place apart, the form of the Rust crate that is ported.
    fn local_support_feature(
        &self,
        dir: Vector,
        hint: Option<Vector>,
        out_feature: &mut PolygonalFeature,
    ) -> Result<(), Refusal>
        ensures answer { told result ≡ supporting dir hint }
        ensures after { fields out_feature.new ≡ (if direction_given dir hint then meaning self.now dir hint else fields out_feature.old) };
}

// The direction that orients the feature of a round shape around its axis, of coordinates that are at most 2 in size.
#[derive(Clone, Copy)]
struct Azimuth {
    along: Vector2,
    ghost short: { vector2_within two along ≡ true },
}

// From the hint where it lies off the axis, else from the direction, else along x.
#[tactic(auto, unfolding(crate::specs::Cylinders::azimuth))]
fn feature_azimuth(dir: Vector, hint: Option<Vector>) -> Azimuth
    requires { direction_given dir hint ≡ true }
    ensures { result.along ≡ azimuth dir hint }
{
    let along = hint
        .and_then(|h| Vector2::new(h.x, h.z).try_normalize())
        .or_else(|| Vector2::new(dir.x, dir.z).try_normalize())
        .unwrap_or(Vector2::new(1.0, 0.0));
    Azimuth { along }
}

impl Cylinder {
    #[tactic(auto, using(crate::proofs::Turns::azimuth_from, crate::proofs::Turns::stands), unfolding(crate::specs::Cylinders::cylinder_meaning))]
    pub fn support_feature(
        &self,
        dir: Vector,
        hint: Option<Vector>,
        out_feature: &mut PolygonalFeature,
    ) -> Result<(), Refusal>
        ensures answer { told result ≡ supporting dir hint }
        ensures after { fields out_feature.new ≡ (if direction_given dir hint then cylinder_meaning self.now dir hint else fields out_feature.old) }
        ensures source { AzimuthFrom dir hint (azimuth dir hint) }
        ensures vertices { direction_given dir hint ≡ true → StandsAt self.now.half_height self.now.radius dir (azimuth dir hint) (fields out_feature.new) }
    {
        if !(dir, hint).is_given() {
            return Err(Refusal::NumberOutOfRange);
        }
        self.support_feature_with_azimuth(dir, feature_azimuth(dir, hint), out_feature);
        Ok(())
    }

    // The curved side is one segment, each cap a square on its rim.
    #[tactic(auto, unfolding(crate::specs::Cylinders::cylinder_fields))]
    fn support_feature_with_azimuth(
        &self,
        dir: Vector,
        azimuth: Azimuth,
        out_features: &mut PolygonalFeature,
    )
        ensures { fields out_features.new ≡ cylinder_fields self.now.half_height self.now.radius dir azimuth.along }
    {
        if dir.y.abs() < 0.5 {
            self.side_segment(azimuth, out_features);
        } else {
            self.cap_square(dir, azimuth, out_features);
        }
    }

    #[tactic(auto, using(crate::proofs::Near::side_near), unfolding(crate::specs::Cylinders::side))]
    fn side_segment(&self, azimuth: Azimuth, out_features: &mut PolygonalFeature)
        ensures { fields out_features.new ≡ side self.now.half_height self.now.radius azimuth.along }
    {
        let dir2 = azimuth.along;
        let lower = Vector::new(
            dir2.x * self.radius,
            -self.half_height,
            dir2.y * self.radius,
        );
        let upper = Vector::new(dir2.x * self.radius, self.half_height, dir2.y * self.radius);
        *out_features = PolygonalFeature {
            vertices: [lower, upper, Vector::ZERO, Vector::ZERO],
            vids: PackedFeatureId::small_ids(FeatureKind::Vertex, [1, 11, 11, 11]),
            eids: PackedFeatureId::small_ids(FeatureKind::Edge, [0; 4]),
            fid: PackedFeatureId::small(FeatureKind::Face, 0),
            num_vertices: 2,
        };
    }

    #[tactic(auto, using(crate::proofs::Near::rim_near), unfolding(crate::specs::Cylinders::cap, crate::specs::Cylinders::bottom, crate::specs::Cylinders::top))]
    fn cap_square(&self, dir: Vector, azimuth: Azimuth, out_features: &mut PolygonalFeature)
        ensures { fields out_features.new ≡ cap self.now.half_height self.now.radius dir azimuth.along }
    {
        let dir2 = azimuth.along;
        let y = wops::copy_sign_to(dir.y, self.half_height);
        // Each product is taken as the Rust crate that is ported takes it.
        let vertices = [
            Vector::new(dir2.x * self.radius, y, dir2.y * self.radius),
            Vector::new(-dir2.y * self.radius, y, dir2.x * self.radius),
            Vector::new(-dir2.x * self.radius, y, -dir2.y * self.radius),
            Vector::new(dir2.y * self.radius, y, -dir2.x * self.radius),
        ];
        let (vids, eids, fid) = if dir.y < 0.0 {
            ([1, 3, 5, 7], [2, 4, 6, 8], 9)
        } else {
            ([11, 13, 15, 17], [12, 14, 16, 18], 19)
        };
        *out_features = PolygonalFeature {
            vertices,
            vids: PackedFeatureId::small_ids(FeatureKind::Vertex, vids),
            eids: PackedFeatureId::small_ids(FeatureKind::Edge, eids),
            fid: PackedFeatureId::small(FeatureKind::Face, fid),
            num_vertices: 4,
        };
    }
}

impl PolygonalFeatureMap for Cylinder {
    ghost meaning = { cylinder_meaning };

    fn local_support_feature(
        &self,
        dir: Vector,
        hint: Option<Vector>,
        out_feature: &mut PolygonalFeature,
    ) -> Result<(), Refusal> {
        self.support_feature(dir, hint, out_feature)
    }
}

#[tactic(auto, unfolding(crate::specs::Cuboids::cuboid_meaning))]
impl PolygonalFeatureMap for Cuboid {
    ghost meaning = { cuboid_meaning };

    // The hint is a number given, though it is not read.
    fn local_support_feature(
        &self,
        dir: Vector,
        hint: Option<Vector>,
        out_feature: &mut PolygonalFeature,
    ) -> Result<(), Refusal> {
        if !hint.is_given() {
            return Err(Refusal::NumberOutOfRange);
        }
        self.support_face(dir, out_feature)
    }
}
