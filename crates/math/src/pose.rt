// Rotations and poses: a point or a direction of one frame as the other frame has it.
ghost use Rattle.std.specs.Prelude.{◌≡◌};
ghost use Rattle.math.specs.Limits.{pose_given};
ghost use Rattle.math.specs.Poses.{inverted, rotated, transformed, untransformed, rotation_squared};

use crate::limits::{Given, SquaredLength};
use crate::vector::Vector;

// The quaternion with vector part `b` and scalar part `w`.
#[derive(Clone, Copy, Debug, PartialEq)]
pub struct Rotation {
    pub b: Vector,
    pub w: f64,
}

#[tactic(auto, unfolding(crate::specs::Poses::inverted, crate::specs::Poses::rotated))]
impl Rotation {
    pub fn new(b: Vector, w: f64) -> Rotation
        ensures { result ≡ record { b = b; w = w } }
    {
        Rotation { b, w }
    }

    pub fn inverse(self) -> Rotation
        ensures { result ≡ inverted self }
    {
        Rotation {
            b: self.b.neg(),
            w: self.w,
        }
    }

    pub fn rotate(self, v: Vector) -> Vector
        ensures { result ≡ rotated self v }
    {
        let Rotation { b, w } = self;
        let along = v.scale(w * w - b.length_squared());
        let axial = b.scale(v.dot(b) * 2.0);
        let turned = b.cross(v).scale(w * 2.0);
        along.add(axial).add(turned)
    }
}

#[tactic(auto, unfolding(crate::specs::Poses::rotation_squared))]
impl SquaredLength for Rotation {
    ghost squared = { rotation_squared };

    fn length_squared(self) -> f64 {
        let Rotation { b, w } = self;
        b.x * b.x + b.y * b.y + b.z * b.z + w * w
    }
}

#[derive(Clone, Copy, Debug, PartialEq)]
pub struct Pose {
    pub rotation: Rotation,
    pub translation: Vector,
}

#[tactic(auto, unfolding(crate::specs::Poses::transformed, crate::specs::Poses::untransformed))]
impl Pose {
    pub fn new(rotation: Rotation, translation: Vector) -> Pose
        ensures { result ≡ record { rotation = rotation; translation = translation } }
    {
        Pose {
            rotation,
            translation,
        }
    }

    pub fn transform_point(self, p: Vector) -> Vector
        ensures { result ≡ transformed self p }
    {
        self.rotation.rotate(p).add(self.translation)
    }

    pub fn inverse_transform_point(self, p: Vector) -> Vector
        ensures { result ≡ untransformed self p }
    {
        self.rotation.inverse().rotate(p.sub(self.translation))
    }
}

#[tactic(auto, unfolding(crate::specs::Limits::pose_given))]
impl Given for Pose {
    ghost given = { pose_given };

    fn is_given(self) -> bool {
        self.translation.is_given() & self.rotation.b.is_given() & self.rotation.w.is_given()
    }
}
