// Threshold tiles: worked thresholds and dots, and rows of packed pixels.
use scr_tile::{AnyTile, Tile, bayer, screen_row};
use std::process::Abort;

#[test]
fn thresholds_of_side_4(rt: HostRuntime) {
    let indexes = [
        [0u8, 8, 2, 10],
        [12, 4, 14, 6],
        [3, 11, 1, 9],
        [15, 7, 13, 5],
    ];
    let tile = bayer::<4>();
    for y in 0..4 {
        for x in 0..4 {
            let index = u32::from(indexes[y as usize][x as usize]);
            assert_threshold(&rt, &tile, x, y, index * 255 / 16);
        }
    }
    assert_threshold(&rt, &tile, 4, 5, 191);
    assert_threshold(&rt, &tile, 7, 5, 95);
}

fn assert_threshold<const W: usize, const H: usize>(
    rt: &impl Abort,
    tile: &Tile<W, H>,
    x: u32,
    y: u32,
    threshold: u32,
) {
    assert!(rt;
        u32::from(tile.threshold(x, y)) == threshold,
        "column {x} of row {y}"
    );
}

#[test]
fn thresholds_of_rows_and_columns(rt: HostRuntime) {
    let tile = Tile::of([[1, 2, 3], [4, 5, 6]]);
    assert_threshold(&rt, &tile, 1, 0, 2);
    assert_threshold(&rt, &tile, 4, 3, 5);
}

#[test]
fn sides_that_are_built(rt: HostRuntime) {
    for (side, built) in [(2, true), (3, false), (16, true)] {
        assert!(rt; AnyTile::bayer(side).is_some() == built, "side {side}");
    }
}

/// Returns `before` after these values of row `y` are screened into it from bit `from` on.
fn screened<const W: usize, const N: usize>(
    rt: &impl Abort,
    tile: &AnyTile,
    y: u32,
    values: [u8; W],
    before: [u8; N],
    from: u32,
) -> [u8; N] {
    assert!(rt; W <= 200 && N <= 100 && from <= 100);
    assert!(rt; from as usize + W <= 8 * N);
    let mut bits = before;
    screen_row(tile, y, &values, &mut bits, from);
    bits
}

/// Returns the Bayer tile of a side that is built.
fn bayer_tile(rt: &impl Abort, side: u8) -> AnyTile {
    AnyTile::bayer(side).expect(rt, "the side is built")
}

// A flat value of 128 prints nine dots on one tile.
#[test]
fn dots_of_side_4(rt: HostRuntime) {
    let tile = bayer_tile(&rt, 4);
    let mut rows = [0; 4];
    for y in 0..4 {
        rows = screened(&rt, &tile, y, [128; 4], rows, 8 * y);
    }
    let dots = u32::from_be_bytes(rows).count_ones();
    assert!(rt; rows == [0xE0, 0x50, 0xA0, 0x50] && dots == 9);
}

/// Makes a tile of one row of these thresholds.
fn own(rt: &impl Abort, numbers: Vec<u8>) -> AnyTile {
    assert!(rt; numbers.len() > 0 && numbers.len() <= 64);
    AnyTile::own(numbers.len() as u32, 1, numbers)
}

#[test]
fn own_tile_repeats(rt: HostRuntime) {
    let tile = own(&rt, vec![in rt.alloc(); 0, 100, 254].expect(&rt, "memory"));
    assert!(rt; screened(&rt, &tile, 9, [101; 8], [0], 0) == [0xDB]);
}

#[test]
fn threshold_of_255_prints_nothing(rt: HostRuntime) {
    let tile = own(&rt, vec![in rt.alloc(); 255].expect(&rt, "memory"));
    assert!(rt; screened(&rt, &tile, 0, [255; 8], [0xFF], 0) == [0]);
}

// 130 pixels from bit 5 on: three before a byte boundary, one block, and a block less one pixel.
#[test]
fn pixels_outside_the_span_stay(rt: HostRuntime) {
    let tile = bayer_tile(&rt, 8);
    let bits = screened(&rt, &tile, 1, [0; 130], [0xFF; 17], 5);
    assert!(rt; bits == [0xF8, 0, 0, 0, 0, 0, 0, 0, 0, 0, 0, 0, 0, 0, 0, 0, 0x01]);
}

// Side 2 has the thresholds 0 and 127 in row 0, so a value of 100 prints every other pixel.
#[test]
fn whole_blocks_follow_the_tile(rt: HostRuntime) {
    let tile = bayer_tile(&rt, 2);
    let mut dots = [0x55; 18];
    dots[0] = 0x15;
    dots[17] = 0x54;
    assert!(rt; screened(&rt, &tile, 2, [100; 140], [0; 18], 3) == dots);
}
