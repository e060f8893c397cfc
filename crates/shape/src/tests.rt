// Worked features of a cuboid and a cylinder, as a program asks for them.
use crate::cuboid::Cuboid;
use crate::cylinder::Cylinder;
use crate::feature_id::FeatureId;
use crate::polygonal_feature_map::PolygonalFeatureMap;
use crate::polygonal_feature3d::PolygonalFeature;
use math::refusal::Refusal;
use math::vector::Vector;
use std::test::Fail;

fn cuboid_face(x: f64, y: f64, z: f64) -> Result<PolygonalFeature, Refusal> {
    let mut face = PolygonalFeature::default();
    let cuboid = Cuboid::new(Vector::new(1.0, 1.0, 1.0))?;
    cuboid.local_support_feature(Vector::new(x, y, z), None, &mut face)?;
    Ok(face)
}

fn cylinder_feature(dir: Vector, hint: Option<Vector>) -> Result<PolygonalFeature, Refusal> {
    let mut feature = PolygonalFeature::default();
    let cylinder = Cylinder::new(2.0, 1.0)?;
    cylinder.local_support_feature(dir, hint, &mut feature)?;
    Ok(feature)
}

#[test]
fn cuboid_faces(rt: HostRuntime) -> Result<(), Fail> {
    let up = cuboid_face(0.0, 1.0, 0.0)?;
    assert_eq!(rt;
        up.vids.map(|id| id.unpack()),
        [4, 12, 14, 6].map(FeatureId::Vertex)
    );
    assert_eq!(rt;
        up.eids.map(|id| id.unpack()),
        [242, 254, 251, 218].map(FeatureId::Edge)
    );
    assert_eq!(rt; up.fid.unpack(), FeatureId::Face(14));
    assert_eq!(rt;
        cuboid_face(1.0, 1.0, 1.0)?.fid.unpack(),
        FeatureId::Face(13)
    );
    assert_eq!(rt;
        cuboid_face(-0.0, 0.0, 0.0)?.fid.unpack(),
        FeatureId::Face(10)
    );
    Ok(())
}

#[test]
fn cylinder_features(rt: HostRuntime) -> Result<(), Fail> {
    let side = cylinder_feature(Vector::new(1.0, 0.25, 0.0), None)?;
    let [lower, upper, _, _] = side.vertices;
    assert_eq!(rt; lower, Vector::new(1.0, -2.0, 0.0));
    assert_eq!(rt; upper, Vector::new(1.0, 2.0, 0.0));
    let just_cap = cylinder_feature(Vector::new(0.0, 0.5, 0.0), None)?;
    assert_eq!(rt; just_cap.fid.unpack(), FeatureId::Face(19));
    let cap = cylinder_feature(Vector::new(0.0, 1.0, 0.0), Some(Vector::new(0.0, 5.0, 0.0)))?;
    let [first, _, _, _] = cap.vertices;
    assert_eq!(rt; first, Vector::new(1.0, 2.0, 0.0));
    Ok(())
}
