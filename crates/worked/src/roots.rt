// Square roots, by their bits.
use math::root;

// Each root by exact arithmetic with whole numbers, to the nearest.
#[test]
fn roots_are_nearest(rt: HostRuntime) {
    for (v, bits) in [
        (2.0, 0x3ff6_a09e_667f_3bcd),
        (4.0, 0x4000_0000_0000_0000),
        (5e-324, 0x1e60_0000_0000_0000),
        (f64::MAX, 0x5fef_ffff_ffff_ffff),
        (1.0000000000000002, 0x3ff0_0000_0000_0000),
        (1.0000000000000004, 0x3ff0_0000_0000_0001),
        (0.9999999999999999, 0x3fef_ffff_ffff_ffff),
        (0.9999999999999998, 0x3fef_ffff_ffff_ffff),
        (0.0, 0),
        (-0.0, 0x8000_0000_0000_0000),
    ] {
        let root = root::sqrt(v);
        assert!(rt; !root.is_nan());
        assert_eq!(rt; root.to_bits(), bits);
    }
}

#[test]
fn no_root_below_zero(rt: HostRuntime) {
    for v in [-1.0, f64::NEG_INFINITY, f64::NAN] {
        assert!(rt; root::sqrt(v).is_nan());
    }
    assert_eq!(rt; root::sqrt(f64::INFINITY), f64::INFINITY);
}
