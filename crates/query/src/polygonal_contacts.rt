// The contacts between two polygonal features, in the frame of the first.
ghost use Rattle.std.specs.Prelude.{◌≡◌, true};
ghost use Rattle.query.specs.Clips.{clip_near};
ghost use Rattle.math.specs.Refusals.{told_as};
ghost use Rattle.shape.specs.Features.{fields};
ghost use Rattle.query.specs.Contacts.{seen, seen_both};
ghost use Rattle.query.specs.Edges.{framed, projected, edge_tangent, crossing, clip_contact, edge_rule, edging};

use crate::clip_segment_segment;
use crate::clip_segment_segment::ClippingPoints;
use crate::contact_data::ContactData;
use crate::contact_manifold::TrackedContact;
use math::approx::COS_FRAC_PI_8;
use math::limits::{Given, SquaredLength};
use math::pose::Pose;
use math::refusal::Refusal;
use math::vector::Vector;
use math::vector2::Vector2;
use math::wops;
use shape::polygonal_feature3d::PolygonalFeature;

// The contacts of two edges: none, or one at each end of the part that they share. Points, axis and pose are in the frame of `face1`. The parameters, the flag among them, are those of the Rust crate that is ported.
#[tactic(auto, unfolding(crate::specs::Edges::framed, crate::specs::Edges::edging))]
pub fn contacts_edge_edge<D: ContactData>(
    pos12: &Pose,
    face1: &PolygonalFeature,
    sep_axis1: Vector,
    face2: &PolygonalFeature,
    flipped: bool,
) -> Result<Option<(TrackedContact<D>, TrackedContact<D>)>, Refusal>
    ensures { told_as seen_both result ≡ edging flipped D.ContactData.initial pos12.now (fields face1.now) sep_axis1 (fields face2.now) }
{
    if !(pos12.is_given() & sep_axis1.is_given()) {
        return Err(Refusal::NumberOutOfRange);
    }
    if !pos12.rotation.is_unit() {
        return Err(Refusal::RotationNotUnit);
    }
    if !sep_axis1.is_unit() {
        return Err(Refusal::AxisNotUnit);
    }
    EdgePair {
        pos12,
        face1,
        sep_axis1,
        face2,
        flipped,
    }
    .contacts()
}

// Two edges to be met, with a pose and an axis that are known to be fit; `flipped` is the flag of the call.
#[derive(Drop)]
struct EdgePair<'a> {
    pos12: &'a Pose,
    face1: &'a PolygonalFeature,
    sep_axis1: Vector,
    face2: &'a PolygonalFeature,
    flipped: bool,
    ghost fit: { framed pos12.now sep_axis1 ≡ true },
}

impl EdgePair<'_> {
    #[tactic(auto, unfolding(crate::specs::Edges::edge_rule))]
    fn contacts<D: ContactData>(
        &self,
    ) -> Result<Option<(TrackedContact<D>, TrackedContact<D>)>, Refusal>
        ensures { told_as seen_both result ≡ edge_rule self.now.flipped D.ContactData.initial self.now.pos12.now (fields self.now.face1.now) self.now.sep_axis1 (fields self.now.face2.now) }
    {
        let [start1, end1, ..] = self.face1.vertices;
        let [start2, end2, ..] = self.face2.vertices;
        let edge1 = (start1, end1);
        let edge2 = (
            self.pos12.transform_point(start2),
            self.pos12.transform_point(end2),
        );
        // The tangents are taken in the plane through the origin that has `sep_axis1` as its normal.
        let basis = wops::orthonormal_basis(self.sep_axis1);
        if are_crossing(
            projected_tangent(basis, edge1),
            projected_tangent(basis, edge2),
        ) {
            return Err(Refusal::EdgesNotParallel);
        }
        let clips = clip_segment_segment::clip(edge1, edge2)?;
        Ok(clips.map(
            |(ca, cb)|
                requires first { clip_near ca ≡ true }
                requires last { clip_near cb ≡ true }
            { (self.contact_at(ca), self.contact_at(cb)) },
        ))
    }

    #[tactic(auto, using(crate::proofs::ContactMagnitude::clip_bounded), unfolding(crate::specs::Edges::clip_contact))]
    fn contact_at<D: ContactData>(&self, clip: ClippingPoints) -> TrackedContact<D>
        requires { clip_near clip ≡ true }
        ensures { seen result ≡ clip_contact self.now.flipped D.ContactData.initial self.now.pos12.now (fields self.now.face1.now) self.now.sep_axis1 (fields self.now.face2.now) clip }
    {
        // The id of an edge's first vertex, of the edge, or of its second vertex: by number, as in the Rust crate that is ported.
        let feature_at = |face: &PolygonalFeature, id: usize| match id {
            0 => face.vids[0],
            1 => face.eids[0],
            _ => face.vids[1],
        };
        TrackedContact::flipped(
            clip.0,
            self.pos12.inverse_transform_point(clip.1),
            feature_at(self.face1, clip.2),
            feature_at(self.face2, clip.3),
            clip.1.sub(clip.0).dot(self.sep_axis1),
            self.flipped,
        )
    }
}

#[tactic(auto, unfolding(crate::specs::Edges::projected))]
fn project(basis: (Vector, Vector), v: Vector) -> Vector2
    ensures { result ≡ projected basis v }
{
    Vector2::new(v.dot(basis.0), v.dot(basis.1))
}

#[tactic(auto, unfolding(crate::specs::Edges::edge_tangent))]
fn projected_tangent(basis: (Vector, Vector), edge: (Vector, Vector)) -> Option<Vector2>
    ensures { result ≡ edge_tangent basis edge }
{
    project(basis, edge.1)
        .sub(project(basis, edge.0))
        .try_normalize()
}

// Edges that point opposite ways are parallel too, and so is an edge with no tangent.
fn are_crossing(tangent1: Option<Vector2>, tangent2: Option<Vector2>) -> bool
    ensures { result ≡ crossing tangent1 tangent2 }
{
    tangent1
        .zip(tangent2)
        .is_some_and(|(t1, t2)| t1.dot(t2).abs() < COS_FRAC_PI_8)
}
