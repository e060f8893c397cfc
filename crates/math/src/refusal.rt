// Why a call is turned down: one case for each reason, its number as its discriminant.
ghost use Rattle.std.specs.Prelude.{◌≡◌, Some};
ghost use Rattle.math.specs.Refusals.{numbered, worded};

use std::error::Error;
use std::fmt;

#[derive(Clone, Copy, Debug, PartialEq, Eq)]
pub enum Refusal {
    // A table handed in has fewer than 24 or more than 4,096 slots.
    TableSize = 1,
    // A number given is NaN, infinite or above 2^20 in size.
    NumberOutOfRange = 2,
    // A half extent, half height or radius is not above 0.
    SizeNotPositive = 3,
    // A rotation's squared length lies outside 1 - 2^-20 to 1 + 2^-20.
    RotationNotUnit = 4,
    // The squared length of an axis or a normal lies outside the same range.
    AxisNotUnit = 5,
    // A feature is to be made with more than four vertices.
    TooManyVertices = 6,
    // A feature code is 2^30 or more.
    CodeTooLarge = 7,
    // A transformed vertex would lie beyond 2^21 in size.
    VertexOutOfRange = 8,
    // The slot named is not filled.
    SlotNotFilled = 9,
    // Fewer than 24 slots are free.
    TableFull = 10,
    // The spare table has fewer slots than there are standing contacts.
    SpareTooSmall = 11,
    // Two edges both have a projected tangent and are not parallel.
    EdgesNotParallel = 12,
    // The clip of two edges would divide zero by zero.
    ZeroByZero = 13,
    // The buffer for a contact line is shorter than 137 bytes.
    BufferTooShort = 14,
}

impl Refusal {
    // The reason in words, for a person: a table of this enum's own.
    pub fn reason(self) -> &'static str
        ensures { result.now ≡ worded self }
    {
        match self {
            Refusal::TableSize => "refused 1: a table has fewer than 24 or more than 4096 slots",
            Refusal::NumberOutOfRange =>
                "refused 2: a number is NaN, infinite or above 2^20 in size",
            Refusal::SizeNotPositive =>
                "refused 3: a half extent, half height or radius is not above 0",
            Refusal::RotationNotUnit => "refused 4: the rotation is not of unit length",
            Refusal::AxisNotUnit => "refused 5: an axis or normal is not of unit length",
            Refusal::TooManyVertices => "refused 6: a feature has more than four vertices",
            Refusal::CodeTooLarge => "refused 7: a feature code is 2^30 or more",
            Refusal::VertexOutOfRange => "refused 8: a vertex would move beyond 2^21 in size",
            Refusal::SlotNotFilled => "refused 9: the slot is not filled",
            Refusal::TableFull => "refused 10: fewer than 24 slots are free",
            Refusal::SpareTooSmall => "refused 11: the spare table has too few slots",
            Refusal::EdgesNotParallel => "refused 12: the two edges are not parallel",
            Refusal::ZeroByZero => "refused 13: the clip would divide zero by zero",
            Refusal::BufferTooShort => "refused 14: the buffer is shorter than 137 bytes",
        }
    }
}

impl From<Refusal> for u8 {
    ghost from_gives = { λ r n. n ≡ numbered r };

    fn from(refusal: Refusal) -> u8 {
        refusal as u8
    }
}

impl fmt::Display for Refusal {
    ghost output = { λ r. Some (worded r) };

    fn fmt<W: fmt::Write>(&self, f: &mut fmt::Formatter<W>) -> fmt::Result {
        f.write_str(self.reason())
    }
}

impl Error for Refusal {}
