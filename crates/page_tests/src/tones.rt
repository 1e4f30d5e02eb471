// Tone curves and the ink limit of a pixel: worked values.
use page_tone::{Curve, limit_inks, limit_row, valid_points};
use std::process::Abort;

#[test]
fn points_of_a_curve(rt: HostRuntime) {
    assert_valid(&rt, &[(0, 0), (128, 110), (255, 255)], true);
    // Only one point, two points with the same input value, and a last input value other than 255.
    assert_valid(&rt, &[(0, 0)], false);
    assert_valid(&rt, &[(0, 0), (9, 1), (9, 2), (255, 255)], false);
    assert_valid(&rt, &[(0, 0), (254, 255)], false);
}

fn assert_valid(rt: &impl Abort, points: &[(u8, u8)], valid: bool) {
    assert!(rt; valid_points(points) == valid);
}

#[test]
fn curve_of_three_points(rt: HostRuntime) {
    let points = [(0, 0), (128, 110), (255, 255)];
    assert!(rt; valid_points(&points));
    let curve = Curve::from_points(&points);
    for (value, becomes) in [(64, 55), (128, 110), (200, 192)] {
        assert!(rt; curve.at(value) == becomes, "at {value}");
    }
}

#[test]
fn identity_changes_nothing(rt: HostRuntime) {
    let curve = Curve::identity();
    for v in 0..=255 {
        assert!(rt; curve.at(v) == v);
    }
}

#[test]
fn rows_under_a_limit(rt: HostRuntime) {
    for (inks, limit, limited) in [
        ([255, 255, 255, 255], 612, [119, 119, 119, 255]),
        ([0, 0, 0, 200], 100, [0, 0, 0, 100]),
        ([1, 2, 3, 4], 10, [1, 2, 3, 4]),
    ] {
        assert!(rt; limit <= 1020);
        assert!(rt; limit_inks(inks, limit) == limited, "at {limit}");
    }
}

#[test]
fn shares_are_quotients(rt: HostRuntime) {
    for colours in 0..=765u32 {
        let c = colours.min(255);
        let m = (colours - c).min(255);
        let inks = [c as u8, m as u8, (colours - c - m) as u8, 0];
        for limit in [0, 1, 100, 254, 255, 300, 511, 612, 764] {
            assert!(rt; limit <= 1020);
            assert!(rt; is_divided(inks, limit, limit_inks(inks, limit)));
        }
    }
}

/// Returns whether the inks of a pixel without black are those that three divisions give.
fn is_divided(inks: [u8; 4], limit: u16, limited: [u8; 4]) -> bool {
    let [c, m, y, _] = inks;
    let colours = c as u32 + m as u32 + y as u32;
    if colours <= limit as u32 {
        return limited == inks;
    }
    let [cyan, magenta, yellow, black] = limited;
    is_share(c, limit, colours, cyan)
        && is_share(m, limit, colours, magenta)
        && is_share(y, limit, colours, yellow)
        && black == 0
}

fn is_share(value: u8, rest: u16, colours: u32, part: u8) -> bool {
    colours > 0 && value as u32 * rest as u32 / colours == part as u32
}

/// One pixel over the limit, in the first block of a row or in its second, at either end.
#[test]
fn one_pixel_over_a_limit(rt: HostRuntime) {
    for column in [0, 63, 64, 69] {
        assert!(rt; is_limited_at(column));
    }
}

fn is_limited_at(column: usize) -> bool {
    let (mut cyan, mut magenta, mut yellow, mut black) = ([10; 70], [10; 70], [10; 70], [10; 70]);
    if column >= 70 {
        return false;
    }
    cyan[column] = 255;
    magenta[column] = 255;
    yellow[column] = 255;
    black[column] = 255;
    limit_row(612, &mut cyan, &mut magenta, &mut yellow, &mut black);
    for x in 0..70 {
        let (colour, key) = if x == column { (119, 255) } else { (10, 10) };
        if cyan[x] != colour || magenta[x] != colour || yellow[x] != colour || black[x] != key {
            return false;
        }
    }
    true
}
