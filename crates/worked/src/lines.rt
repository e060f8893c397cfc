// Where lines of the plane meet.
use math::refusal::Refusal;
use math::vector2::Vector2;
use query::closest_points_line2d::closest_points_line2d;

fn line(x0: f64, y0: f64, x1: f64, y1: f64) -> [Vector2; 2] {
    [Vector2::new(x0, y0), Vector2::new(x1, y1)]
}

#[test]
fn crossing_lines_meet(rt: HostRuntime) {
    for (edge1, edge2, places) in [
        (
            line(0.0, 0.0, 4.0, 0.0),
            line(1.0, -1.0, 1.0, 3.0),
            (0.25, 0.25),
        ),
        (
            line(0.0, 0.0, 1.0, 1.0),
            line(0.0, 2.0, 2.0, 0.0),
            (1.0, 0.5),
        ),
        (
            line(0.0, 0.0, 2.0, 0.0),
            line(3.0, 1.0, 3.0, 3.0),
            (1.5, -0.5),
        ),
    ] {
        assert_eq!(rt; closest_points_line2d(edge1, edge2), Ok(Some(places)));
    }
}

#[test]
fn parallel_lines_do_not_meet(rt: HostRuntime) {
    let across = line(0.0, 0.0, 1.0, 0.0);
    for edge2 in [
        line(0.0, 1.0, 5.0, 1.0),
        line(0.0, 1.0, -1.0, 1.0),
        // The difference of the products is exactly 2^-52.
        line(0.0, 0.0, 1.0, 1.4901161193847656e-8),
    ] {
        assert_eq!(rt; closest_points_line2d(across, edge2), Ok(None));
    }
    // Here it is 2^-50, and the bits are far apart.
    assert_eq!(rt;
        closest_points_line2d(across, line(0.0, 0.0, 0.5, 2.9802322387695312e-8)),
        Ok(Some((0.0, 0.0)))
    );
}

#[test]
fn lines_of_no_length(rt: HostRuntime) {
    let spot = line(1.0, 2.0, 1.0, 2.0);
    let across = line(0.0, 0.0, 4.0, 0.0);
    for (edge1, edge2, places) in [
        (spot, line(5.0, 5.0, 5.0, 5.0), (0.0, 0.0)),
        (spot, across, (0.0, 0.25)),
        (across, spot, (0.25, 0.0)),
    ] {
        assert_eq!(rt; closest_points_line2d(edge1, edge2), Ok(Some(places)));
    }
}

#[test]
fn unfit_coordinates_are_refused(rt: HostRuntime) {
    for (edge1, edge2) in [
        (line(f64::NAN, 0.0, 1.0, 0.0), line(0.0, 0.0, 1.0, 1.0)),
        (line(0.0, 0.0, 1.0, 0.0), line(0.0, 0.0, 1.0, 1048577.0)),
    ] {
        assert_eq!(rt;
            closest_points_line2d(edge1, edge2),
            Err(Refusal::NumberOutOfRange)
        );
    }
}
