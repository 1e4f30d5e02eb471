// Pages of small layers: on top of each other, at various positions, cropped, masked, scaled up, and drawn
// again.
use crate::layers::{Laid, Row, Shown, assert_page, whole};
use page_layers::Crop;

const NONE: [u8; 4] = [0; 4];

// Returns a row of the photograph whose cyan has these samples: each further ink has 40 more where it is
// painted.
fn photo<const W: usize>(cyan: [u8; W]) -> [[u8; W]; 5] {
    [
        cyan,
        more(cyan, 40),
        more(cyan, 80),
        more(cyan, 120),
        [0; W],
    ]
}

fn more<const W: usize>(cyan: [u8; W], by: u8) -> [u8; W] {
    let mut row = cyan;
    for sample in row.iter_mut() {
        if *sample != 0 {
            *sample = sample.wrapping_add(by);
        }
    }
    row
}

#[test]
fn overprint_keeps_inks_and_knockout_replaces_them(rt: HostRuntime) {
    let cyan = whole(Shown::Line([100, 0, 0, 0, 7]));
    let black = whole(Shown::Line([0, 0, 0, 255, 0]));
    let row = [NONE, NONE, NONE, [255, 0, 255, 0], NONE];
    assert_page(&rt, &[cyan, black], 1, &[&[(false, Some(row))]]);
    let over = Laid {
        overprint: true,
        ..black
    };
    let row = [[100, 0, 100, 0], NONE, NONE, [255, 0, 255, 0], [7, 0, 7, 0]];
    assert_page(&rt, &[cyan, over], 1, &[&[(false, Some(row))]]);
}

#[test]
fn edges_cut_layers(rt: HostRuntime) {
    let image = whole(Shown::Contone);
    // The last three are wholly outside the page.
    let places = [(2, 1), (4, 0), (0, 2), (4_000_000_000, 4_000_000_000)];
    let layers = places.map(|(x, y)| Laid { x, y, ..image });
    let rows = [(false, Some([NONE; 5])), (false, Some(photo([0, 0, 1, 2])))];
    assert_page(&rt, &layers, 2, &[&rows]);
}

#[test]
fn masks_go_with_the_image(rt: HostRuntime) {
    let layer = Laid {
        masked: true,
        crop: Crop {
            x: 1,
            y: 0,
            width: 3,
            height: 2,
        },
        ..whole(Shown::Contone)
    };
    let first = photo([0, 3, 0, 0]);
    let second = photo([12, 13, 14, 0]);
    let rows = [(false, Some(first)), (false, Some(second))];
    assert_page(&rt, &[layer], 2, &[&rows]);
}

#[test]
fn contone_takes_the_spot_ink_away(rt: HostRuntime) {
    let spot = whole(Shown::Line([0, 0, 0, 0, 9]));
    for (overprint, left) in [(false, [9, 0, 0, 0]), (true, [9, 0, 9, 0])] {
        let image = Laid {
            x: 2,
            overprint,
            ..whole(Shown::Contone)
        };
        let mut row = photo([0, 0, 1, 2]);
        row[4] = left;
        assert_page(&rt, &[spot, image], 1, &[&[(false, Some(row))]]);
    }
}

#[test]
fn no_layers_no_ink(rt: HostRuntime) {
    let row = Some([NONE; 5]);
    assert_page(&rt, &[], 2, &[&[(false, row), (true, row)]]);
}

#[test]
fn crop_shows_three_times_at_an_odd_place(rt: HostRuntime) {
    let layer = Laid {
        x: 1,
        y: 1,
        scale: 3,
        crop: Crop {
            x: 1,
            y: 1,
            width: 2,
            height: 1,
        },
        ..whole(Shown::Contone)
    };
    let none = Some([[0; 8]; 5]);
    let row = Some(photo([0, 12, 12, 12, 13, 13, 13, 0]));
    let rows = [
        (false, none),
        (false, row),
        (true, row),
        (true, row),
        (false, none),
    ];
    assert_page(&rt, &[layer], 5, &[&rows]);
}

#[test]
fn rows_at_scale_1_do_not_repeat(rt: HostRuntime) {
    let first = (false, Some(photo([1])));
    let rows = [first, (false, Some(photo([11])))];
    assert_page(&rt, &[whole(Shown::Contone)], 2, &[&[first], &rows, &rows]);
}

#[test]
fn rows_at_scale_4_repeat_and_are_passed(rt: HostRuntime) {
    let layer = Laid {
        scale: 4,
        ..whole(Shown::Contone)
    };
    let first = Some(photo([1]));
    let rows: [Row<1>; 6] = [
        (false, first),
        (true, None),
        (true, None),
        (true, first),
        (false, Some(photo([11]))),
        (true, None),
    ];
    assert_page(&rt, &[layer], 8, &[&rows, &[(false, first)]]);
}
