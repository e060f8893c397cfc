// Where two lines of the plane meet, as fractions of the way along each, after Ericson, Real-Time Collision Detection.
ghost use Rattle.std.specs.Prelude.{◌≡◌};
ghost use Rattle.math.specs.Refusals.{told};
ghost use Rattle.query.specs.Meeting.{Lines, Ericson, products, meeting, meeting_answer};

use math::approx;
use math::approx::EPSILON;
use math::limits::{Given, SquaredLength};
use math::refusal::Refusal;
use math::vector2::Vector2;

// The places s and t of the meeting on the lines through `edge1` and `edge2`; none where they are parallel. Turned down with 2 where a coordinate may not be given.
pub fn closest_points_line2d(
    edge1: [Vector2; 2],
    edge2: [Vector2; 2],
) -> Result<Option<(f64, f64)>, Refusal>
    ensures answer { told result ≡ meeting_answer edge1 edge2 }
    ensures exact { (l : Lines) → Ericson l }
{
    if !(edge1.is_given() & edge2.is_given()) {
        return Err(Refusal::NumberOutOfRange);
    }
    Ok(meet(edge1, edge2))
}

// The same for coordinates that are known to be fit.
#[tactic(auto, unfolding(crate::specs::Meeting::products, crate::specs::Meeting::parallel, crate::specs::Meeting::meeting))]
pub(crate) fn meet(edge1: [Vector2; 2], edge2: [Vector2; 2]) -> Option<(f64, f64)>
    ensures { result ≡ meeting (products edge1 edge2) }
{
    let [start1, end1] = edge1;
    let [start2, end2] = edge2;
    let dir1 = end1.sub(start1);
    let dir2 = end2.sub(start2);
    let r = start1.sub(start2);
    let a = dir1.length_squared();
    let e = dir2.length_squared();
    let f = dir2.dot(r);
    if a <= EPSILON && e <= EPSILON {
        return Some((0.0, 0.0));
    }
    if a <= EPSILON {
        return Some((0.0, f / e));
    }
    let c = dir1.dot(r);
    if e <= EPSILON {
        return Some((-c / a, 0.0));
    }
    let b = dir1.dot(dir2);
    let ae = a * e;
    let bb = b * b;
    let denom = ae - bb;
    // Use absolute and ulps error to test collinearity.
    if denom <= EPSILON || approx::are_bits_close(ae, bb) {
        return None;
    }
    let s = (b * f - c * e) / denom;
    Some((s, (b * s + f) / e))
}
