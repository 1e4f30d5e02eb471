// One page in blocks of eight rows, compared with plain code that works column by column, and with the page
// row by row.
ghost use Rattle.std.specs.Prelude.{◌≡◌, ◌≤◌, ◌<◌, length};

use scr_diffuse::{BlockDiffuser, Diffuser};
use std::process::Abort;

const WIDEST: usize = 64;

/// The third block has three rows of the page, and five past its end.
const HEIGHT: usize = 19;

/// The errors of a row: that of column x at x + 1, and 0 on both sides of the row.
type Errors = [i32; WIDEST + 2];

/// Draws a row by the formula, column by column. `errors` holds the errors of the row above, and afterwards
/// those of this row. The first pixel is the highest bit.
fn plain_row(values: &[u8], errors: &mut Errors) -> u64
    requires { length values.now ≤ 64 }
{
    let above = *errors;
    let mut bits = 0;
    for x in 0..values.len() {
        let sum = (16 * values[x] as i32)
            .wrapping_add(errors[x].wrapping_mul(7))
            .wrapping_add(above[x + 2].wrapping_mul(3))
            .wrapping_add(above[x + 1].wrapping_mul(5))
            .wrapping_add(above[x]);
        let corrected = sum >> 4;
        let prints = corrected >= 128;
        if prints {
            bits |= 1 << (63 - x);
        }
        errors[x + 1] = corrected.wrapping_sub(if prints { 255 } else { 0 });
    }
    bits
}

/// Returns the values of a row of the page, of the greatest width: pseudorandom numbers that differ by row.
fn row_of(y: u32) -> [u8; WIDEST] {
    let mut seed = y.wrapping_mul(2_246_822_519);
    let mut values = [0; WIDEST];
    for value in values.iter_mut() {
        seed = seed.wrapping_mul(1_664_525).wrapping_add(1_013_904_223);
        *value = (seed >> 24) as u8;
    }
    values
}

/// Returns eight rows of the page, from row `first` on.
fn block_at(first: usize) -> [[u8; WIDEST]; 8]
    requires { first ≤ 1000 }
{
    let mut rows = [[0; WIDEST]; 8];
    for k in 0..8 {
        rows[k] = row_of((first + k) as u32);
    }
    rows
}

/// Diffuses eight rows, the first values of each as far as the page is wide.
pub fn advance<const W: usize>(block: &mut BlockDiffuser, rows: &[[u8; W]; 8], width: usize)
    requires width { block.old.width ≡ width }
    requires narrow { width ≤ W }
    ensures width { block.new.width ≡ width }
    ensures taken { 8 ≤ length block.new.rows }
{
    let [a, b, c, d, e, f, g, h] = rows;
    block.advance(&[
        &a[..width],
        &b[..width],
        &c[..width],
        &d[..width],
        &e[..width],
        &f[..width],
        &g[..width],
        &h[..width],
    ]);
}

/// Draws row `k` of a block, and the next row of the same page row by row, and returns whether both have the
/// pixels that the plain code draws.
fn is_row_drawn(
    block: &BlockDiffuser,
    k: usize,
    single: &mut Diffuser,
    errors: &mut Errors,
    values: &[u8],
) -> bool
    requires row { k < 8 }
    requires taken { 8 ≤ length block.now.rows }
    requires block { block.now.width ≡ length values.now }
    requires single { single.old.width ≡ length values.now }
    requires narrow { length values.now ≤ 64 }
    ensures { single.new.width ≡ length values.now }
{
    let mut of_block = [0; 8];
    block.draw(k, &mut of_block, 0);
    let mut of_row = [0; 8];
    single.row(values, &mut of_row, 0);
    let plain = plain_row(values, errors);
    u64::from_be_bytes(of_block) == plain && u64::from_be_bytes(of_row) == plain
}

/// Diffuses eight rows of the page, from row `first` on, and returns whether those inside the page have the
/// pixels that the plain code draws.
fn is_drawn(
    block: &mut BlockDiffuser,
    single: &mut Diffuser,
    errors: &mut Errors,
    width: usize,
    first: usize,
) -> bool
    requires block { block.old.width ≡ width }
    requires single { single.old.width ≡ width }
    requires narrow { width ≤ 64 }
    requires first { first ≤ 1000 }
    ensures block { block.new.width ≡ width }
    ensures single { single.new.width ≡ width }
{
    let rows = block_at(first);
    advance(block, &rows, width);
    let mut same = true;
    for k in 0..8 {
        if first + k < HEIGHT {
            same &= is_row_drawn(block, k, single, errors, &rows[k][..width]);
        }
    }
    same
}

/// Diffuses the blocks of the page, and returns whether each row has the pixels that the plain code draws.
fn are_blocks_drawn(block: &mut BlockDiffuser, single: &mut Diffuser, width: usize) -> bool
    requires block { block.old.width ≡ width }
    requires single { single.old.width ≡ width }
    requires narrow { width ≤ 64 }
{
    let mut errors = [0; WIDEST + 2];
    let one = is_drawn(block, single, &mut errors, width, 0);
    let two = is_drawn(block, single, &mut errors, width, 8);
    let three = is_drawn(block, single, &mut errors, width, 16);
    one && two && three
}

/// Asserts that the page of this width has the pixels that the plain code draws.
fn assert_blocks<R: Abort + AllocGlobal>(rt: &R, width: usize)
    requires { width ≤ 64 }
{
    let mut block = BlockDiffuser::new(rt.alloc(), width as u32).expect(rt, "memory");
    let mut single = Diffuser::new(rt.alloc(), width as u32).expect(rt, "memory");
    assert!(rt;
        are_blocks_drawn(&mut block, &mut single, width),
        "width {width}"
    );
}

#[test]
fn blocks_of_each_width(rt: HostRuntime) {
    for width in 1..41 {
        assert_blocks(&rt, width);
    }
    assert_blocks(&rt, WIDEST);
}

/// Diffuses a block of rows of four values of 128, and returns whether its first two rows have these bits.
fn is_four(block: &mut BlockDiffuser, want: &[u8; 2]) -> bool
    requires { block.old.width ≡ 4 }
{
    advance(block, &[[128; 4]; 8], 4);
    let mut same = true;
    for k in 0..2 {
        let mut bits = [0];
        block.draw(k, &mut bits, 0);
        same &= bits[0] == want[k];
    }
    same
}

// All values are 128: v is 128, 72, 159, 86 and then 101, 168, 80, 183.
#[test]
fn four_by_two_in_a_block(rt: HostRuntime) {
    let mut block = BlockDiffuser::new(rt.alloc(), 4).expect(&rt, "memory");
    assert!(rt; is_four(&mut block, &[0xA0, 0x50]));
}
