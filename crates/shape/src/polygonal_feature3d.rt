// A polygonal feature: the vertex, edge or face of a convex shape that a contact is made from. None exists with more than four vertices or a vertex beyond 2^21.
ghost use Rattle.std.specs.Prelude.{◌≡◌, ◌≤◌, true};
ghost use Rattle.shape.specs.Nearness.{near_all};

use crate::feature_id::PackedFeatureId;
use math::limits::{Given, SquaredLength};
use math::pose::Pose;
use math::refusal::Refusal;
use math::vector::Vector;

// 2^21
const VERTEX_LIMIT: f64 = 2097152.0;

// A feature's fields as given, with nothing known of them: arrays by value and a count, as in the Rust crate that is ported, and no heap.
#[derive(Clone, Copy, Debug, PartialEq)]
pub struct FeatureRow {
    pub vertices: [Vector; 4],
    pub vids: [PackedFeatureId; 4],
    pub eids: [PackedFeatureId; 4],
    pub fid: PackedFeatureId,
    pub num_vertices: usize,
}

// The same fields, each under its name in the Rust crate, and what is known of them.
#[derive(Clone, Copy, Debug, PartialEq)]
pub struct PolygonalFeature {
    pub vertices: [Vector; 4],
    pub vids: [PackedFeatureId; 4],
    pub eids: [PackedFeatureId; 4],
    pub fid: PackedFeatureId,
    pub num_vertices: usize,
    ghost near: { near_all vertices ≡ true },
    ghost few: { num_vertices ≤ 4 },
}

fn are_near(vertices: &[Vector; 4]) -> bool
    ensures { result ≡ near_all vertices.now }
{
    vertices.iter().all(|v| v.is_within(VERTEX_LIMIT))
}

impl PolygonalFeature {
    ghost use Rattle.math.specs.Refusals.{told};
    ghost use Rattle.shape.specs.Features.{fields, nothing, making, made};
    ghost use Rattle.shape.specs.Moves.{moving, moved_or_kept};

    // The feature with no vertices.
    #[tactic(auto, using(crate::proofs::Near::nothing_near))]
    pub fn new() -> PolygonalFeature
        ensures { fields result ≡ nothing }
    {
        PolygonalFeature {
            vertices: [Vector::ZERO; 4],
            vids: [PackedFeatureId::UNKNOWN; 4],
            eids: [PackedFeatureId::UNKNOWN; 4],
            fid: PackedFeatureId::UNKNOWN,
            num_vertices: 0,
        }
    }

    // The feature with these fields into `out`. Turned down with 2 where a coordinate may not be given, an unused vertex's too, with 6 where there are more than four vertices.
    #[tactic(auto, using(crate::proofs::Near::all_given, crate::proofs::Near::all_near))]
    pub fn make(row: FeatureRow, out: &mut PolygonalFeature) -> Result<(), Refusal>
        ensures answer { told result ≡ making row }
        ensures after { fields out.new ≡ made row (fields out.old) }
    {
        let FeatureRow {
            vertices,
            vids,
            eids,
            fid,
            num_vertices,
        } = row;
        if !vertices.is_given() {
            return Err(Refusal::NumberOutOfRange);
        }
        if num_vertices > 4 {
            return Err(Refusal::TooManyVertices);
        }
        *out = PolygonalFeature {
            vertices,
            vids,
            eids,
            fid,
            num_vertices,
        };
        Ok(())
    }

    // The used vertices where the pose takes them; unused vertices and all ids stay. Turned down with 2 where a number of the pose may not be given, with 4 where its rotation is off unit length, with 8 where a used vertex would go beyond 2^21.
    #[tactic(auto, using(std::proofs::lemmas::List::Edits::map_over_more))]
    pub fn transform_by(&mut self, pos: &Pose) -> Result<(), Refusal>
        ensures answer { told result ≡ moving pos.now (fields self.old) }
        ensures after { fields self.new ≡ moved_or_kept pos.now (fields self.old) }
    {
        if !pos.is_given() {
            return Err(Refusal::NumberOutOfRange);
        }
        if !pos.rotation.is_unit() {
            return Err(Refusal::RotationNotUnit);
        }
        let mut vertices = self.vertices;
        for v in &mut vertices[..self.num_vertices] {
            *v = pos.transform_point(*v);
        }
        if !are_near(&vertices) {
            return Err(Refusal::VertexOutOfRange);
        }
        self.vertices = vertices;
        Ok(())
    }
}

impl Default for PolygonalFeature {
    ghost use Rattle.shape.specs.Features.{fields, nothing};

    ghost is_default = { λ f. fields f ≡ nothing };

    fn default() -> PolygonalFeature {
        PolygonalFeature::new()
    }
}

impl From<PolygonalFeature> for FeatureRow {
    ghost use Rattle.shape.specs.Features.{fields};

    ghost from_gives = { λ f row. row ≡ fields f };

    fn from(feature: PolygonalFeature) -> FeatureRow {
        let PolygonalFeature {
            vertices,
            vids,
            eids,
            fid,
            num_vertices,
        } = feature;
        FeatureRow {
            vertices,
            vids,
            eids,
            fid,
            num_vertices,
        }
    }
}
