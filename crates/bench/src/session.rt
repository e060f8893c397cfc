// What a script has put in place so far, and its commands performed there, each by the call that it names.
ghost use Rattle.std.specs.Prelude.{◌≡◌};

use crate::answer::{Failure, Reply};
use math::pose::Pose;
use math::refusal::Refusal;
use math::root;
use math::vector::Vector;
use query::{clip_segment_segment, closest_points_line2d};
use script::command::{Command, Form, Which};
use script::fault::Fault;
use script::reading;
use shape::cuboid::Cuboid;
use shape::cylinder::Cylinder;
use shape::feature_id::PackedFeatureId;
use shape::polygonal_feature_map::PolygonalFeatureMap;
use shape::polygonal_feature3d::{FeatureRow, PolygonalFeature};

#[derive(Clone, Copy)]
pub enum Solid {
    Cylinder(Cylinder),
    Cuboid(Cuboid),
}

// What a script calls 1 or 2: a shape, or none yet, and a feature.
#[derive(Clone, Copy)]
pub struct Slot {
    pub shape: Option<Solid>,
    pub feature: PolygonalFeature,
}

#[derive(Drop)]
pub struct Session {
    pub slots: [Slot; 2],
}

impl Session {
    ghost use Rattle.std.specs.Prelude.{true, Some};
    ghost use Rattle.shape.specs.Features.{making, made};
    ghost use Rattle.shape.specs.Moves.{moving, moved_or_kept};
    ghost use Rattle.script.specs.Lines.{silent};
    ghost use Rattle.bench.specs.Answers.{told_answer, replied, Done, Nothing};
    ghost use Rattle.bench.specs.Solids.{forming};
    ghost use Rattle.bench.specs.Sessions.{state, start, shape_at, feature_at, with_shape, with_feature, if_done, support_answer, support_left, answered, performed, Ran, RanAsMeant};

    pub fn new() -> Session
        ensures { state result ≡ start }
    {
        Session {
            slots: [Slot {
                shape: None,
                feature: PolygonalFeature::new(),
            }; 2],
        }
    }

    // A line as it stands in a script, without its newline.
    pub fn run_line(&mut self, line: &[u8]) -> Result<Reply, Failure>
        ensures ran { Ran (state self.old) (told_answer result) (state self.new) }
        ensures silent { silent line.now ≡ true → told_answer result ≡ Nothing }
        ensures meant { RanAsMeant line.now (state self.old) (told_answer result) (state self.new) }
    {
        let command = reading::read_command(line)?;
        self.perform(command)
    }

    pub fn perform(&mut self, command: Command) -> Result<Reply, Failure>
        ensures answer { told_answer result ≡ answered command (state self.old) }
        ensures after { state self.new ≡ performed command (state self.old) }
    {
        match command {
            Command::Remark => Ok(Reply::Nothing),
            Command::Shape(which, sizes) => self.set_shape(which, sizes),
            Command::Support(which, dir, hint) => self.support(which, dir, hint),
            Command::Make(which, row) => self.make(which, row),
            Command::Transform(which, pose) => self.transform(which, pose),
            Command::Show(which) => Ok(Reply::Feature(
                self.slots[usize::from(which)].feature.into(),
            )),
            Command::Pack(kind, code) => Ok(Reply::Packed(PackedFeatureId::pack(kind, code)?)),
            Command::Clip(first, second) => {
                Ok(Reply::Clipped(clip_segment_segment::clip_segment_segment(first, second)?))
            }
            Command::Lines(first, second) => {
                Ok(Reply::Meeting(closest_points_line2d::closest_points_line2d(first, second)?))
            }
            Command::Sqrt(v) => Ok(Reply::Root(root::sqrt(v))),
        }
    }

    #[tactic(auto, using(crate::proofs::Slots::shape_put))]
    fn set_shape(&mut self, which: Which, sizes: Form) -> Result<Reply, Failure>
        ensures answer { told_answer result ≡ replied (λ _. Done) (forming sizes) }
        ensures after { state self.new ≡ if_done (forming sizes) (with_shape which (Some sizes) (state self.old)) (state self.old) }
    {
        self.slots[usize::from(which)].shape = Some(Solid::try_from(sizes)?);
        Ok(Reply::Done)
    }

    fn support(&mut self, which: Which, dir: Vector, hint: Option<Vector>) -> Result<Reply, Failure>
        ensures answer { told_answer result ≡ support_answer (shape_at which (state self.old)) dir hint }
        ensures after { state self.new ≡ with_feature which (support_left (shape_at which (state self.old)) dir hint (feature_at which (state self.old))) (state self.old) }
    {
        let slot = &mut self.slots[usize::from(which)];
        let shape = slot.shape.ok_or(Fault::NoShape)?;
        shape.local_support_feature(dir, hint, &mut slot.feature)?;
        Ok(Reply::Done)
    }

    fn transform(&mut self, which: Which, pose: Pose) -> Result<Reply, Failure>
        ensures answer { told_answer result ≡ replied (λ _. Done) (moving pose (feature_at which (state self.old))) }
        ensures after { state self.new ≡ with_feature which (moved_or_kept pose (feature_at which (state self.old))) (state self.old) }
    {
        self.slots[usize::from(which)].feature.transform_by(&pose)?;
        Ok(Reply::Done)
    }

    fn make(&mut self, which: Which, row: FeatureRow) -> Result<Reply, Failure>
        ensures answer { told_answer result ≡ replied (λ _. Done) (making row) }
        ensures after { state self.new ≡ with_feature which (made row (feature_at which (state self.old))) (state self.old) }
    {
        PolygonalFeature::make(row, &mut self.slots[usize::from(which)].feature)?;
        Ok(Reply::Done)
    }
}

// By `new`, whose contract says what is there.
impl Default for Session {
    ghost use Rattle.bench.specs.Sessions.{state, start};

    ghost is_default = { λ s. state s ≡ start };

    fn default() -> Session {
        Session::new()
    }
}

impl TryFrom<Form> for Solid {
    ghost use Rattle.std.specs.Prelude.{Some};
    ghost use Rattle.math.specs.Refusals.{told_as};
    ghost use Rattle.bench.specs.Solids.{form, forming};

    type Error = Refusal;

    ghost try_from_gives = { λ sizes result. told_as (λ s. form (Some s)) result ≡ forming sizes };

    fn try_from(sizes: Form) -> Result<Self, Refusal> {
        match sizes {
            Form::Cylinder(half_height, radius) => {
                Cylinder::new(half_height, radius).map(Solid::Cylinder)
            }
            Form::Cuboid(half_extents) => Cuboid::new(half_extents).map(Solid::Cuboid),
        }
    }
}

#[tactic(auto, unfolding(shape::specs::Cylinders::cylinder_meaning, shape::specs::Cuboids::cuboid_meaning))]
impl PolygonalFeatureMap for Solid {
    ghost use Rattle.bench.specs.Solids.{solid_meaning};

    ghost meaning = { solid_meaning };

    fn local_support_feature(
        &self,
        dir: Vector,
        hint: Option<Vector>,
        out_feature: &mut PolygonalFeature,
    ) -> Result<(), Refusal> {
        match self {
            Solid::Cylinder(cylinder) => cylinder.local_support_feature(dir, hint, out_feature),
            Solid::Cuboid(cuboid) => cuboid.local_support_feature(dir, hint, out_feature),
        }
    }
}
