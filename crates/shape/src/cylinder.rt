// A cylinder around the y axis, centred at the origin. None exists with a half height or a radius that is not above 0 or is above 2^20.
ghost use Rattle.std.specs.Prelude.{◌≡◌, true};
ghost use Rattle.shape.specs.Sizes.{is_size};

use math::limits::Given;
use math::refusal::Refusal;

#[derive(Clone, Copy, Debug, PartialEq)]
pub struct Cylinder {
    pub half_height: f64,
    pub radius: f64,
    ghost tall: { is_size half_height ≡ true },
    ghost round: { is_size radius ≡ true },
}

impl Cylinder {
    ghost use Rattle.math.specs.Refusals.{told_as};
    ghost use Rattle.shape.specs.Cylinders.{sizes, making};

    #[tactic(auto, unfolding(crate::specs::Sizes::is_size))]
    pub fn new(half_height: f64, radius: f64) -> Result<Cylinder, Refusal>
        ensures { told_as sizes result ≡ making half_height radius }
    {
        if !(half_height, radius).is_given() {
            return Err(Refusal::NumberOutOfRange);
        }
        if !((half_height > 0.0) & (radius > 0.0)) {
            return Err(Refusal::SizeNotPositive);
        }
        Ok(Cylinder {
            half_height,
            radius,
        })
    }
}
