// The vector in the plane, and its normalisation.
ghost use Rattle.std.specs.Prelude.{◌≡◌};
ghost use Rattle.math.specs.Limits.{limit};
ghost use Rattle.math.specs.Magnitude.{vector2_within};
ghost use Rattle.math.specs.Vectors2.{subtracted, scaled, dotted, perp_dotted, normalized};

use crate::limits::{Given, SquaredLength};
use crate::root;

#[derive(Clone, Copy, Debug, PartialEq)]
pub struct Vector2 {
    pub x: f64,
    pub y: f64,
}

// Both coordinates by name and in the order of the Rust crate that is ported, as those of `Vector`.
#[tactic(auto, unfolding(crate::specs::Vectors2::subtracted, crate::specs::Vectors2::scaled, crate::specs::Vectors2::dotted, crate::specs::Vectors2::perp_dotted, crate::specs::Vectors2::reciprocal, crate::specs::Vectors2::usable, crate::specs::Vectors2::normalized))]
impl Vector2 {
    pub fn new(x: f64, y: f64) -> Vector2
        ensures { result ≡ record { x = x; y = y } }
    {
        Vector2 { x, y }
    }

    pub fn sub(self, other: Vector2) -> Vector2
        ensures { result ≡ subtracted self other }
    {
        Vector2 {
            x: self.x - other.x,
            y: self.y - other.y,
        }
    }

    pub fn scale(self, factor: f64) -> Vector2
        ensures { result ≡ scaled self factor }
    {
        Vector2 {
            x: self.x * factor,
            y: self.y * factor,
        }
    }

    pub fn dot(self, other: Vector2) -> f64
        ensures { result ≡ dotted self other }
    {
        self.x * other.x + self.y * other.y
    }

    pub fn perp_dot(self, other: Vector2) -> f64
        ensures { result ≡ perp_dotted self other }
    {
        self.x * other.y - self.y * other.x
    }

    // None where the reciprocal of the length is not finite or not above 0.
    pub fn try_normalize(self) -> Option<Vector2>
        ensures { result ≡ normalized self }
    {
        let rcp = 1.0 / root::sqrt(self.length_squared());
        if rcp.is_finite() & (rcp > 0.0) {
            Some(self.scale(rcp))
        } else {
            None
        }
    }
}

impl SquaredLength for Vector2 {
    ghost squared = { λ v. dotted v v };

    fn length_squared(self) -> f64 {
        self.dot(self)
    }
}

#[tactic(auto, unfolding(crate::specs::Magnitude::vector2_within))]
impl Given for Vector2 {
    ghost given = { vector2_within limit };

    fn is_given(self) -> bool {
        self.x.is_given() & self.y.is_given()
    }
}
