// The square root, rounded once.
ghost use Rattle.std.specs.Prelude.{◌≡◌};
ghost use Rattle.math.specs.Floats.{root};
ghost use Rattle.math.specs.Roots.{RootIs};

// The f64 nearest to the exact root; a NaN below zero, and a zero or the upper infinity as it is.
pub fn sqrt(v: f64) -> f64
    ensures value { result ≡ root v }
    ensures nearest { RootIs v result }
{
    v.sqrt()
}
