// The commands of a script, as they are read from its lines.
use math::pose::Pose;
use math::vector::Vector;
use math::vector2::Vector2;
use shape::feature_id::FeatureKind;
use shape::polygonal_feature3d::FeatureRow;

// The shape and the feature that a command means.
#[derive(Clone, Copy, Debug, PartialEq, Eq)]
pub enum Which {
    First = 0,
    Second = 1,
}

impl From<Which> for usize {
    ghost use Rattle.std.specs.Prelude.{◌≡◌, ◌<◌};
    ghost use Rattle.script.specs.Grammar.{ordinal_index};

    ghost from_gives = { λ which n. (n ≡ ordinal_index which) × (n < 2) };

    fn from(which: Which) -> Self {
        which as usize
    }
}

// A shape's kind and sizes as given.
#[derive(Clone, Copy, Debug, PartialEq)]
pub enum Form {
    // Half height, then radius.
    Cylinder(f64, f64),
    // Half extents.
    Cuboid(Vector),
}

#[derive(Clone, Copy, Debug, PartialEq)]
pub enum Command {
    // A line with no word, or whose first word begins with `#`.
    Remark,
    Shape(Which, Form),
    Support(Which, Vector, Option<Vector>),
    Make(Which, FeatureRow),
    Transform(Which, Pose),
    Show(Which),
    Pack(FeatureKind, u32),
    Clip((Vector, Vector), (Vector, Vector)),
    Lines([Vector2; 2], [Vector2; 2]),
    Sqrt(f64),
}
