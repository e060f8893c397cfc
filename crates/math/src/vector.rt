// The vector in three dimensions, with the operations that the contact code takes from it.
ghost use Rattle.std.specs.Prelude.{◌≡◌, true};
ghost use Rattle.math.specs.Limits.{vector_given};
ghost use Rattle.math.specs.Magnitude.{vector_within};
ghost use Rattle.math.specs.Vectors.{added, subtracted, negated, scaled, dotted, crossed, sizes, vector_number, largest_place, FirstLargest};

use crate::limits::{Given, LIMIT, SquaredLength};

#[derive(Clone, Copy, Debug, PartialEq)]
pub struct Vector {
    pub x: f64,
    pub y: f64,
    pub z: f64,
}

// The coordinates are named, and each operation takes them in the order of the Rust crate that is ported: no loop over an array, no code shared with the plane.
#[tactic(auto, unfolding(crate::specs::Vectors::added, crate::specs::Vectors::subtracted, crate::specs::Vectors::negated, crate::specs::Vectors::scaled, crate::specs::Vectors::dotted, crate::specs::Vectors::crossed, crate::specs::Vectors::sizes))]
impl Vector {
    pub const ZERO: Vector = Vector {
        x: 0.0,
        y: 0.0,
        z: 0.0,
    };

    pub fn new(x: f64, y: f64, z: f64) -> Vector
        ensures { result ≡ record { x = x; y = y; z = z } }
    {
        Vector { x, y, z }
    }

    pub fn add(self, other: Vector) -> Vector
        ensures { result ≡ added self other }
    {
        Vector {
            x: self.x + other.x,
            y: self.y + other.y,
            z: self.z + other.z,
        }
    }

    pub fn sub(self, other: Vector) -> Vector
        ensures { result ≡ subtracted self other }
    {
        Vector {
            x: self.x - other.x,
            y: self.y - other.y,
            z: self.z - other.z,
        }
    }

    pub fn neg(self) -> Vector
        ensures { result ≡ negated self }
    {
        Vector {
            x: -self.x,
            y: -self.y,
            z: -self.z,
        }
    }

    pub fn scale(self, factor: f64) -> Vector
        ensures { result ≡ scaled self factor }
    {
        Vector {
            x: self.x * factor,
            y: self.y * factor,
            z: self.z * factor,
        }
    }

    pub fn dot(self, other: Vector) -> f64
        ensures { result ≡ dotted self other }
    {
        self.x * other.x + self.y * other.y + self.z * other.z
    }

    pub fn distance_squared(self, other: Vector) -> f64
        ensures { result ≡ dotted (subtracted self other) (subtracted self other) }
    {
        self.sub(other).length_squared()
    }

    pub fn cross(self, other: Vector) -> Vector
        ensures { result ≡ crossed self other }
    {
        Vector {
            x: self.y * other.z - other.y * self.z,
            y: self.z * other.x - other.z * self.x,
            z: self.x * other.y - other.x * self.y,
        }
    }

    pub fn abs(self) -> Vector
        ensures { result ≡ sizes self }
    {
        Vector {
            x: self.x.abs(),
            y: self.y.abs(),
            z: self.z.abs(),
        }
    }

    // Every coordinate is at most `bound` in size.
    #[tactic(auto, unfolding(crate::specs::Magnitude::within, crate::specs::Magnitude::vector_within))]
    pub fn is_within(self, bound: f64) -> bool
        ensures { result ≡ vector_within bound self }
    {
        (self.x.abs() <= bound) & (self.y.abs() <= bound) & (self.z.abs() <= bound)
    }

    // The first place of the largest coordinate, a number as in the Rust crate that is ported.
    #[tactic(auto, using(crate::proofs::Largest::at_x, crate::proofs::Largest::at_y, crate::proofs::Largest::at_z_by_y, crate::proofs::Largest::at_z_by_x), unfolding(crate::specs::Vectors::largest_place))]
    pub fn max_position(self) -> usize
        ensures value { result ≡ largest_place self }
        ensures first { vector_number self ≡ true → FirstLargest self result }
    {
        let Vector { x, y, z } = self;
        if y > x {
            if z > y { 2 } else { 1 }
        } else if z > x {
            2
        } else {
            0
        }
    }
}

impl SquaredLength for Vector {
    ghost squared = { λ v. dotted v v };

    fn length_squared(self) -> f64 {
        self.dot(self)
    }
}

impl Given for Vector {
    ghost given = { vector_given };

    fn is_given(self) -> bool {
        self.is_within(LIMIT)
    }
}
