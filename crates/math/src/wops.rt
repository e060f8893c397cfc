// The sign of one number put on another, and the two vectors that form an orthonormal basis with a third.
ghost use Rattle.std.specs.Prelude.{◌≡◌};
ghost use Rattle.math.specs.Basis.{signed, basis0, basis1};

use crate::vector::Vector;

// The size of `to` with the sign of `sign`. A NaN counts as positive.
#[tactic(auto, using(crate::proofs::Signs::nan_positive))]
pub fn copy_sign_to(sign: f64, to: f64) -> f64
    ensures { result ≡ signed sign to }
{
    if sign.is_nan() {
        to.abs()
    } else {
        to.copysign(sign)
    }
}

// Duff et al., Building an Orthonormal Basis, Revisited: no branch, and no division by a small number for a unit vector.
#[tactic(auto, unfolding(crate::specs::Basis::basis_sign, crate::specs::Basis::basis_a, crate::specs::Basis::basis_b, crate::specs::Basis::basis0, crate::specs::Basis::basis1))]
pub fn orthonormal_basis(v: Vector) -> (Vector, Vector)
    ensures { result ≡ (basis0 v, basis1 v) }
{
    let sign = copy_sign_to(v.z, 1.0);
    let a = -1.0 / (sign + v.z);
    let b = v.x * v.y * a;
    (
        Vector::new(1.0 + sign * v.x * v.x * a, sign * b, -sign * v.x),
        Vector::new(b, sign + v.y * v.y * a, -v.y),
    )
}
