// Edges that meet, and edges that are refused.
use math::pose::{Pose, Rotation};
use math::refusal::Refusal;
use math::vector::Vector;
use query::clip_segment_segment::clip_segment_segment;
use query::contact_data::ServiceTally;
use query::contact_line::contact_line;
use query::contact_manifold::TrackedContact;
use query::polygonal_contacts::contacts_edge_edge;
use shape::feature_id::PackedFeatureId;
use shape::polygonal_feature3d::{FeatureRow, PolygonalFeature};
use std::test::Fail;

type Contacts = Option<(TrackedContact<ServiceTally>, TrackedContact<ServiceTally>)>;

// The edge from `a` to `b`, its vertices 1 and 2, its edge 3.
fn edge(a: Vector, b: Vector) -> Result<PolygonalFeature, Refusal> {
    let first = PackedFeatureId::vertex(1)?;
    let second = PackedFeatureId::vertex(2)?;
    let between = PackedFeatureId::edge(3)?;
    let mut feature = PolygonalFeature::new();
    PolygonalFeature::make(
        FeatureRow {
            vertices: [a, b, Vector::ZERO, Vector::ZERO],
            vids: [first, second, second, second],
            eids: [between; 4],
            fid: PackedFeatureId::UNKNOWN,
            num_vertices: 2,
        },
        &mut feature,
    )?;
    Ok(feature)
}

// Edge 1 lies along x from 0 to 4, and edge 2 is handed in a quarter above it.
fn meet(edge1: (Vector, Vector), edge2: (Vector, Vector)) -> Result<Contacts, Refusal> {
    let pos12 = Pose::new(
        Rotation::new(Vector::ZERO, 1.0),
        Vector::new(0.0, 0.25, 0.0),
    );
    let up = Vector::new(0.0, 1.0, 0.0);
    contacts_edge_edge(
        &pos12,
        &edge(edge1.0, edge1.1)?,
        up,
        &edge(edge2.0, edge2.1)?,
        false,
    )
}

fn along_x(x: f64) -> Vector {
    Vector::new(x, 0.0, 0.0)
}

// The part of the x axis between two places.
fn on_x(from: f64, to: f64) -> (Vector, Vector) {
    (along_x(from), along_x(to))
}

fn dists(found: Contacts) -> Option<(f64, f64)> {
    found.map(|(low, high)| (low.dist, high.dist))
}

fn refused(met: Result<Contacts, Refusal>) -> Option<u8> {
    met.err().map(u8::from)
}

#[test]
fn segments_that_touch_at_an_end(rt: HostRuntime) -> Result<(), Fail> {
    let at = along_x(1.0);
    let clips = clip_segment_segment(on_x(0.0, 1.0), on_x(1.0, 2.0))?;
    assert_eq!(rt; clips, Some(((at, at, 1, 0), (at, at, 2, 1))));
    Ok(())
}

#[test]
fn edges_either_way_give_two_contacts(rt: HostRuntime) -> Result<(), Fail> {
    for edge2 in [on_x(1.0, 2.0), on_x(2.0, 1.0), on_x(1.0, 1.0)] {
        assert_eq!(rt; dists(meet(on_x(0.0, 4.0), edge2)?), Some((0.25, 0.25)));
    }
    Ok(())
}

#[test]
fn edges_that_are_refused(rt: HostRuntime) {
    let across = (along_x(1.0), Vector::new(1.0, 0.0, 1.0));
    for (edge1, edge2, number) in [
        (on_x(0.0, 4.0), across, 12),
        (on_x(4.0, 4.0), on_x(1.0, 2.0), 13),
        (on_x(0.0, 4.0), on_x(4.0, 4.0), 13),
        (on_x(0.0, 4.0), on_x(0.0, 0.0), 13),
    ] {
        assert_eq!(rt; refused(meet(edge1, edge2)), Some(number));
    }
}

#[test]
fn a_line_needs_137_bytes(rt: HostRuntime) -> Result<(), Fail> {
    let (contact, _) = meet(on_x(0.0, 4.0), on_x(1.0, 2.0))?.ok_or("no contacts")?;
    let mut short = [46u8; 136];
    assert_eq!(rt;
        contact_line(&contact, &mut short),
        Err(Refusal::BufferTooShort)
    );
    assert_eq!(rt; short, [46u8; 136]);
    let mut long = [46u8; 140];
    assert_eq!(rt; contact_line(&contact, &mut long), Ok(()));
    assert_eq!(rt; (long[0], long[136]), (b'3', b'\n'));
    assert_eq!(rt; &long[137..], [46u8; 3].as_slice());
    Ok(())
}
