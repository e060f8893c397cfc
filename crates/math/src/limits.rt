// The tests behind the refusals of numbers: what may be given, and what counts as unit length.
ghost use Rattle.std.specs.Prelude.{◌≡◌, Bool, true, ◌&&◌, Float};
ghost use Rattle.std.specs.List.{list_all};
ghost use Rattle.std.specs.Option.{option_map_or};
ghost use Rattle.math.specs.Limits.{may_be_given, near_one};

// 2^20
pub(crate) const LIMIT: f64 = 1048576.0;

// 1 - 2^-20
const UNIT_LOW: f64 = 0.99999904632568359375;

// 1 + 2^-20
const UNIT_HIGH: f64 = 1.00000095367431640625;

// What is made of numbers, each of which may be given or not.
pub trait Given: Copy {
    ghost given: { Self → Bool };

    // No number is NaN, infinite or above 2^20 in size.
    fn is_given(self) -> bool
        ensures { result ≡ given self };
}

#[tactic(auto, unfolding(crate::specs::Magnitude::within))]
impl Given for f64 {
    ghost given = { may_be_given };

    fn is_given(self) -> bool {
        self.abs() <= LIMIT
    }
}

// What is absent has no number that may not be given.
impl<T: Given> Given for Option<T> {
    ghost given = { λ o. option_map_or T.given o true };

    fn is_given(self) -> bool {
        self.is_none_or(T::is_given)
    }
}

impl<T: Given, U: Given> Given for (T, U) {
    ghost given = { λ p. T.given p.0 && U.given p.1 };

    fn is_given(self) -> bool {
        self.0.is_given() & self.1.is_given()
    }
}

impl<T: Given, const N: usize> Given for [T; N] {
    ghost given = { list_all T.given };

    fn is_given(self) -> bool {
        self.iter().all(|x| x.is_given())
    }
}

// A vector, or a rotation as a quaternion, by the square of its length.
pub trait SquaredLength: Copy {
    ghost squared: { Self → Float };

    fn length_squared(self) -> f64
        ensures { result ≡ squared self };

    fn is_unit(self) -> bool
        ensures { result ≡ near_one (squared self) }
    {
        is_near_one(self.length_squared())
    }
}

#[tactic(auto, unfolding(crate::specs::Limits::near_one))]
fn is_near_one(square: f64) -> bool
    ensures { result ≡ near_one square }
{
    (UNIT_LOW <= square) & (square <= UNIT_HIGH)
}
