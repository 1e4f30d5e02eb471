// Error diffusion: worked rows, and a page whose bits come from another program.
ghost use Rattle.std.specs.Prelude.{◌≡◌, ◌≤◌};

use crate::blocks::advance;
use scr_diffuse::{BlockDiffuser, Diffuser};
use std::process::Abort;

/// The bits of a page of 61 by 17 values from a linear congruential generator. They come from a Python
/// program of ten lines that keeps the errors of the whole page in a table and evaluates the formula
/// directly.
const SEEDED: [[u8; 8]; 17] = [
    [0x71, 0x9D, 0x37, 0x9D, 0x94, 0xD5, 0x8C, 0xA8],
    [0x9B, 0x38, 0x50, 0xC7, 0x73, 0xAC, 0xB6, 0x08],
    [0xE3, 0x4B, 0x90, 0x86, 0xC5, 0x13, 0x0B, 0xB8],
    [0x17, 0x78, 0x56, 0xE9, 0x69, 0xEA, 0x90, 0x08],
    [0xA5, 0x46, 0x4D, 0x41, 0x94, 0x3D, 0x52, 0xA8],
    [0xAB, 0x30, 0xCE, 0x86, 0x2B, 0x44, 0xE4, 0xA0],
    [0x6A, 0x55, 0xA1, 0x54, 0xB4, 0x8A, 0x25, 0x38],
    [0xBA, 0xCD, 0x58, 0xDB, 0x8B, 0xB6, 0xD8, 0x48],
    [0x53, 0x8B, 0x4B, 0x4E, 0xD5, 0xAE, 0x91, 0xD0],
    [0x7A, 0x84, 0x35, 0x88, 0xD5, 0x90, 0xA5, 0xB0],
    [0xE2, 0xB3, 0x09, 0x76, 0xC9, 0x25, 0x59, 0x98],
    [0x74, 0x14, 0x58, 0xC1, 0x33, 0x51, 0x57, 0xA0],
    [0xE9, 0xB1, 0xD3, 0xAD, 0x12, 0x1A, 0x71, 0x50],
    [0x2A, 0xBD, 0x06, 0x2B, 0x96, 0xBE, 0xAF, 0xB8],
    [0xB2, 0xC1, 0xE5, 0x50, 0x32, 0x2F, 0x54, 0x10],
    [0x42, 0x6C, 0xBF, 0x44, 0xA5, 0xAC, 0x7C, 0xD0],
    [0xAD, 0xAA, 0x54, 0x9F, 0xD9, 0xA4, 0xA7, 0x10],
];

/// Asserts that these rows of values, drawn one after the other over `before`, each from its bit on, give the
/// bits `want`, and give them again after a restart.
fn assert_drawn<const W: usize, R: Abort + AllocGlobal>(
    rt: &R,
    rows: &[([u8; W], u32)],
    before: [u8; 4],
    want: [u8; 4],
) {
    assert!(rt; W <= 32);
    let mut diffuser = Diffuser::new(rt.alloc(), W as u32).expect(rt, "memory");
    let first = drawn(rt, &mut diffuser, rows, before);
    diffuser.restart();
    let second = drawn(rt, &mut diffuser, rows, before);
    assert!(rt; first == want, "at first");
    assert!(rt; second == want, "again");
}

fn drawn<const W: usize>(
    rt: &impl Abort,
    diffuser: &mut Diffuser,
    rows: &[([u8; W], u32)],
    before: [u8; 4],
) -> [u8; 4]
    requires width { diffuser.old.width ≡ W }
    requires narrow { W ≤ 32 }
    ensures { diffuser.new.width ≡ W }
{
    let mut bits = before;
    for (values, from) in rows {
        assert!(rt; *from <= 32 - W as u32);
        diffuser.row(values, &mut bits, *from);
    }
    bits
}

#[test]
fn seeded_page(rt: HostRuntime) {
    let mut diffuser = Diffuser::new(rt.alloc(), 61).expect(&rt, "memory");
    let mut seed = 1976;
    for expected in SEEDED {
        let (values, next) = seeded(seed);
        seed = next;
        let mut bits = [0; 8];
        diffuser.row(&values, &mut bits, 0);
        assert!(rt; bits == expected);
    }
}

// The same page, eight rows at a time. The rows past its last one may hold anything.
#[test]
fn seeded_page_in_blocks(rt: HostRuntime) {
    let mut diffuser = BlockDiffuser::new(rt.alloc(), 61).expect(&rt, "memory");
    let seed = assert_block(&rt, &mut diffuser, 1976, 0);
    let seed = assert_block(&rt, &mut diffuser, seed, 8);
    assert_block(&rt, &mut diffuser, seed, 16);
}

/// Asserts that the next eight rows of the generator, from this seed on, give the bits of the page from row
/// `first` on. Returns the next seed.
fn assert_block(rt: &impl Abort, diffuser: &mut BlockDiffuser, seed: u32, first: usize) -> u32
    requires width { diffuser.old.width ≡ 61 }
    requires first { first ≤ 16 }
    ensures { diffuser.new.width ≡ 61 }
{
    let (rows, seed) = seeded_block(seed);
    advance(diffuser, &rows, 61);
    for k in 0..8 {
        if first + k < SEEDED.len() {
            let mut bits = [0; 8];
            diffuser.draw(k, &mut bits, 0);
            assert!(rt; bits == SEEDED[first + k]);
        }
    }
    seed
}

/// Returns the next eight rows of the generator, and its next seed.
fn seeded_block(seed: u32) -> ([[u8; 61]; 8], u32) {
    let mut seed = seed;
    let mut rows = [[0; 61]; 8];
    for row in rows.iter_mut() {
        (*row, seed) = seeded(seed);
    }
    (rows, seed)
}

/// Returns the next row of values of the generator, and its next seed.
fn seeded(seed: u32) -> ([u8; 61], u32) {
    let mut seed = seed;
    let mut values = [0; 61];
    for value in values.iter_mut() {
        seed = seed.wrapping_mul(1_664_525).wrapping_add(1_013_904_223);
        *value = (seed >> 24) as u8;
    }
    (values, seed)
}

// All values are 128: v is 128, 72, 159, 86 and then 101, 168, 80, 183. After a restart the page is drawn as
// the first time.
#[test]
fn four_by_two(rt: HostRuntime) {
    let row = [128; 4];
    assert_drawn(&rt, &[(row, 0), (row, 8)], [0; 4], [0xA0, 0x50, 0, 0]);
    assert_drawn(&rt, &[(row, 12)], [0xA0, 0x50, 0, 0], [0xA0, 0x5A, 0, 0]);
}

#[test]
fn one_pixel(rt: HostRuntime) {
    assert_drawn(&rt, &[([127], 0)], [0; 4], [0; 4]);
    assert_drawn(&rt, &[([128], 0)], [0; 4], [0x80, 0, 0, 0]);
}

// The errors are -55, 82, 75, 48, -60, 71, -105 and 94, of which five sixteenths are carried down.
#[test]
fn one_column(rt: HostRuntime) {
    let rows = [
        ([200], 0),
        ([100], 1),
        ([50], 2),
        ([25], 3),
        ([180], 4),
        ([90], 5),
        ([128], 6),
        ([127], 7),
    ];
    assert_drawn(&rt, &rows, [0; 4], [0x8A, 0, 0, 0]);
}

// The same column as one block, and again after a restart.
#[test]
fn one_column_in_a_block(rt: HostRuntime) {
    let mut diffuser = BlockDiffuser::new(rt.alloc(), 1).expect(&rt, "memory");
    assert_column(&rt, &mut diffuser);
    diffuser.restart();
    assert_column(&rt, &mut diffuser);
}

fn assert_column(rt: &impl Abort, diffuser: &mut BlockDiffuser)
    requires { diffuser.old.width ≡ 1 }
    ensures { diffuser.new.width ≡ 1 }
{
    let rows = [[200], [100], [50], [25], [180], [90], [128], [127]];
    advance(diffuser, &rows, 1);
    let mut bits = [0];
    for k in 0..8 {
        diffuser.draw(k as usize, &mut bits, k);
    }
    assert!(rt; bits == [0x8A]);
}

// The errors are -55, 75, 82, 60, -49, 68, -98, 84, 39, 12 and 104, of which seven sixteenths are carried to
// the right.
#[test]
fn one_row(rt: HostRuntime) {
    let row = [200, 100, 50, 25, 180, 90, 128, 127, 3, 250, 99];
    assert_drawn(&rt, &[(row, 0)], [0; 4], [0x8A, 0x40, 0, 0]);
}

// Twenty pixels from bit 5 on: three before a byte boundary, two bytes, and one more. Bits outside the span
// are unchanged.
#[test]
fn white_and_full(rt: HostRuntime) {
    let white = ([0; 20], 5);
    let full = ([255; 20], 5);
    assert_drawn(&rt, &[white, white], [0xFF; 4], [0xF8, 0, 0, 0x7F]);
    assert_drawn(&rt, &[full, full], [0; 4], [0x07, 0xFF, 0xFF, 0x80]);
}
