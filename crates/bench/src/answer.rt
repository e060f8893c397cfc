// What a command answers: a reply, or why there is none.
ghost use Rattle.std.specs.Prelude.{◌≡◌};
ghost use Rattle.math.specs.Refusals.{numbered};
ghost use Rattle.bench.specs.declared.answer.Failure.TheVariants.{TurnedDown, Unreadable};

use math::refusal::Refusal;
use query::clip_segment_segment::ClippingPoints;
use script::fault::Fault;
use shape::feature_id::PackedFeatureId;
use shape::polygonal_feature3d::FeatureRow;

#[derive(Clone, Copy, Debug, PartialEq)]
pub enum Reply {
    Nothing,
    Done,
    Feature(FeatureRow),
    Packed(PackedFeatureId),
    Clipped(Option<(ClippingPoints, ClippingPoints)>),
    // How far along each line.
    Meeting(Option<(f64, f64)>),
    Root(f64),
}

#[derive(Clone, Copy, Debug, PartialEq, Eq)]
pub enum Failure {
    // The number of the refusal, whatever it is: an answer with any number can be written.
    TurnedDown(u8),
    Unreadable(Fault),
}

impl From<Refusal> for Failure {
    ghost from_gives = { λ r f. f ≡ TurnedDown (numbered r) };

    fn from(refusal: Refusal) -> Failure {
        Failure::TurnedDown(refusal.into())
    }
}

impl From<Fault> for Failure {
    ghost from_gives = { λ r f. f ≡ Unreadable r };

    fn from(fault: Fault) -> Failure {
        Failure::Unreadable(fault)
    }
}
