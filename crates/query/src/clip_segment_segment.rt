// Two segments projected on one another, clipped to the part that they share.
#![tactic(auto, unfolding(crate::specs::Clips::product, crate::specs::Clips::ordered, crate::specs::Clips::undefined, crate::specs::Clips::apart, crate::specs::Clips::along_range, crate::specs::Clips::at_first, crate::specs::Clips::at_second, crate::specs::Clips::end_clip, crate::specs::Clips::low_end, crate::specs::Clips::high_end, crate::specs::Clips::clipped, crate::specs::Clips::clipping))]

ghost use Rattle.std.specs.Prelude.{◌≡◌};
ghost use Rattle.math.specs.Refusals.{told};
ghost use Rattle.query.specs.Clips.{forward, in_order, along_range, ranges, undefined, apart, at_first, at_second, low_end, high_end, clipped, clipping};

use math::limits::{Given, SquaredLength};
use math::refusal::Refusal;
use math::vector::Vector;

// A point of each segment, and where it lies: 0 is the first vertex, 1 between, 2 the second vertex. A tuple with numbers, as in the Rust crate that is ported.
pub type ClippingPoints = (Vector, Vector, usize, usize);

// A vertex of a segment: how far it lies along the first segment, and the number that stands for it in `ClippingPoints`.
#[derive(Clone, Copy)]
struct End {
    product: f64,
    point: Vector,
    feature: usize,
}

// The ends of a segment.
#[derive(Clone, Copy)]
struct Range {
    first: End,
    last: End,
}

impl Range {
    fn new(seg: (Vector, Vector), start: f64, end: f64) -> Self
        ensures { result ≡ forward seg start end }
    {
        Range {
            first: End {
                product: start,
                point: seg.0,
                feature: 0,
            },
            last: End {
                product: end,
                point: seg.1,
                feature: 2,
            },
        }
    }

    // The end with the lower product first.
    fn ordered(self) -> Self
        ensures { result ≡ in_order self }
    {
        if self.last.product < self.first.product {
            Range {
                first: self.last,
                last: self.first,
            }
        } else {
            self
        }
    }

    // The point that has this product, on the line from the first end in a direction.
    fn at(&self, direction: Vector, product: f64) -> Vector
        ensures { result ≡ along_range self.now direction product }
    {
        let length = self.last.product - self.first.product;
        let bcoord = (product - self.first.product) / length;
        self.first.point.add(direction.scale(bcoord))
    }
}

// Both segments along the first, whose own range is from 0 to its squared length.
#[derive(Clone, Copy)]
struct Ranges {
    tangent1: Vector,
    range1: Range,
    range2: Range,
}

impl Ranges {
    fn new(seg1: (Vector, Vector), seg2: (Vector, Vector)) -> Self
        ensures { result ≡ ranges seg1 seg2 }
    {
        // NOTE: no need to normalize the tangent.
        let tangent1 = seg1.1.sub(seg1.0);
        let product = |point: Vector| point.sub(seg1.0).dot(tangent1);
        Ranges {
            tangent1,
            range1: Range::new(seg1, 0.0, tangent1.length_squared()),
            range2: Range::new(seg2, product(seg2.0), product(seg2.1)).ordered(),
        }
    }

    // Both ends of the second segment lie at the same product, at an end of the first.
    fn are_undefined(&self) -> bool
        ensures { result ≡ undefined self.now }
    {
        let Ranges { range1, range2, .. } = self;
        range2.first.product == range2.last.product
            && (range2.first.product == range1.first.product
                || range2.first.product == range1.last.product)
    }

    fn are_apart(&self) -> bool
        ensures { result ≡ apart self.now }
    {
        let Ranges { range1, range2, .. } = self;
        range2.first.product > range1.last.product || range1.first.product > range2.last.product
    }

    // Where the shared part begins.
    fn low_end(&self) -> ClippingPoints
        ensures { result ≡ low_end self.now }
    {
        let (end1, end2) = (self.range1.first, self.range2.first);
        if end2.product > end1.product {
            self.at_second(end2)
        } else {
            self.at_first(end1)
        }
    }

    // Where it ends.
    fn high_end(&self) -> ClippingPoints
        ensures { result ≡ high_end self.now }
    {
        let (end1, end2) = (self.range1.last, self.range2.last);
        if end2.product < end1.product {
            self.at_second(end2)
        } else {
            self.at_first(end1)
        }
    }

    // At an end of the first segment.
    fn at_first(&self, end1: End) -> ClippingPoints
        ensures { result ≡ at_first self.now end1 }
    {
        let tangent2 = self.range2.last.point.sub(self.range2.first.point);
        let p2 = self.range2.at(tangent2, end1.product);
        (end1.point, p2, end1.feature, 1)
    }

    // At an end of the second segment, which lies inside the first.
    fn at_second(&self, end2: End) -> ClippingPoints
        ensures { result ≡ at_second self.now end2 }
    {
        let p1 = self.range1.at(self.tangent1, end2.product);
        (p1, end2.point, 1, end2.feature)
    }
}

// Two parameters, as in the Rust crate that is ported. Turned down with 2 where a coordinate may not be given, with 13 where the clip would divide zero by zero.
pub fn clip_segment_segment(
    seg1: (Vector, Vector),
    seg2: (Vector, Vector),
) -> Result<Option<(ClippingPoints, ClippingPoints)>, Refusal>
    ensures { told result ≡ clipping seg1 seg2 }
{
    if !(seg1.is_given() & seg2.is_given()) {
        return Err(Refusal::NumberOutOfRange);
    }
    clip(seg1, seg2)
}

// The same for segments whose coordinates are known to be fit.
pub(crate) fn clip(
    seg1: (Vector, Vector),
    seg2: (Vector, Vector),
) -> Result<Option<(ClippingPoints, ClippingPoints)>, Refusal>
    ensures { told result ≡ clipped seg1 seg2 }
{
    let ranges = Ranges::new(seg1, seg2);
    if ranges.are_undefined() {
        return Err(Refusal::ZeroByZero);
    }
    if ranges.are_apart() {
        return Ok(None);
    }
    Ok(Some((ranges.low_end(), ranges.high_end())))
}
