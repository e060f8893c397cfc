// When two numbers count as equal: by their difference from zero, and by their bits.
ghost use Rattle.std.specs.Prelude.{◌≡◌};
ghost use Rattle.math.specs.Nearly.{near_zero, bits_close};

// 2^-52
pub const EPSILON: f64 = f64::EPSILON;

// The f64 nearest 0.99984769515, a cosine of 1 degree.
pub const COS_1_DEGREES: f64 = 0.99984769515;

// The f64 nearest 0.92387953251, a cosine of an eighth of a half turn.
pub const COS_FRAC_PI_8: f64 = 0.92387953251;

const MAX_ULPS: u64 = 4;

// At most 2^-52 in size.
#[tactic(auto, unfolding(crate::specs::Magnitude::within))]
pub fn is_near_zero(d: f64) -> bool
    ensures { result ≡ near_zero d }
{
    d.abs() <= EPSILON
}

// The bits of both are at most 4 apart; a NaN is close to nothing.
#[tactic(auto, unfolding(crate::specs::Nearly::bits_close))]
pub fn are_bits_close(a: f64, b: f64) -> bool
    ensures { result ≡ bits_close a b }
{
    !a.is_nan() && !b.is_nan() && a.to_bits().abs_diff(b.to_bits()) <= MAX_ULPS
}
