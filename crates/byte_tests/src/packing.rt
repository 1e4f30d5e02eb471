// PackBits in both directions: worked rows, awkward streams, and frames.
use crate::checks::check;
use tif_packbits::{Short, Unpacker, frame_len, frame_row, framed, pack_bound, pack_row};

// Returns whether the buffer starts with these bytes and the rest of it is untouched.
fn begin(bytes: &[u8; 300], front: &[u8]) -> bool {
    if front.len() > 300 {
        return false;
    }
    let (written, rest) = bytes.split_at(front.len());
    written == front && rest.iter().all(|byte| *byte == 0xEE)
}

/// Returns whether `packed` expands to exactly `row` when more is asked for, and leaves the rest of the
/// buffer untouched.
fn expands(packed: &[u8], row: &[u8]) -> bool {
    let mut into = [0xEE; 300];
    let mut unpacker = Unpacker::new(packed);
    unpacker.fill(&mut into) == Err(Short) && begin(&into, row) && ends(&mut unpacker)
}

/// Returns whether `row` packs to `packed`, and leaves the rest of the buffer untouched.
fn packs(row: &[u8], packed: &[u8]) -> bool {
    let mut into = [0xEE; 300];
    row.len() <= 256 && pack_row(row, &mut into) == packed.len() && begin(&into, packed)
}

// Returns whether no byte is left.
fn ends(unpacker: &mut Unpacker<'_>) -> bool {
    unpacker.byte().is_none()
}

// Returns whether the next bytes, read one by one, are these.
fn gives(unpacker: &mut Unpacker<'_>, bytes: &[u8]) -> bool {
    for byte in bytes {
        if unpacker.byte() != Some(*byte) {
            return false;
        }
    }
    true
}

// Returns whether the next two bytes, read at once, are these.
fn fills(unpacker: &mut Unpacker<'_>, bytes: [u8; 2]) -> bool {
    let mut into = [0; 2];
    unpacker.fill(&mut into).is_ok() && into == bytes
}

// Returns whether `n` bytes can be skipped.
fn skips(unpacker: &mut Unpacker<'_>, n: u64) -> bool {
    unpacker.skip(n).is_ok()
}

#[test]
fn gives_byte_by_byte(rt: HostRuntime) {
    let packed = [0xFE, 0xAA, 0x02, 0x80, 0x00, 0x2A, 0x80];
    let mut unpacker = Unpacker::new(&packed);
    let given = gives(&mut unpacker, &[0xAA, 0xAA, 0xAA, 0x80, 0x00, 0x2A]);
    let ended = ends(&mut unpacker);
    let short = unpacker.fill(&mut [0]) == Err(Short);
    check(&rt, &[given, ended, short]);
}

#[test]
fn expands_awkward_streams(rt: HostRuntime) {
    let mut nothings = [0x80; 150];
    nothings[148] = 0x00;
    nothings[149] = 7;
    let mut literal = [7; 129];
    literal[0] = 0x7F;
    literal[128] = 8;
    let expanded = [
        expands(&[], &[]),
        expands(&[0x80, 0x80, 0x80], &[]),
        expands(&[0x80, 0x00, 1, 0x80, 0xFF, 2], &[1, 2, 2]),
        expands(&[0x00], &[]),
        expands(&[0x00, 9, 0x03, 1, 2, 3], &[9]),
        expands(&[0x00, 9, 0xFE], &[9]),
        expands(&[0x00, 1, 0x00, 2, 0x00, 3], &[1, 2, 3]),
        expands(&[0x81, 5], &[5; 128]),
        expands(&nothings, &[7]),
        expands(&literal, &literal[1..]),
    ];
    check(&rt, &expanded);
}

#[test]
fn skips_into_packets(rt: HostRuntime) {
    let packed = [0xFE, 0xAA, 0x80, 0x02, 0x80, 0x00, 0x2A];
    let mut unpacker = Unpacker::new(&packed);
    let mut again = Unpacker::new(&packed);
    let passed = [
        skips(&mut unpacker, 2),
        fills(&mut unpacker, [0xAA, 0x80]),
        skips(&mut unpacker, 1),
        gives(&mut unpacker, &[0x2A]),
        skips(&mut unpacker, 0),
        !skips(&mut unpacker, 1),
        !skips(&mut again, 7),
        ends(&mut again),
    ];
    check(&rt, &passed);
}

#[test]
fn packs_rows(rt: HostRuntime) {
    let packed = [
        packs(
            &[0xAA, 0xAA, 0xAA, 0x80, 0x00, 0x2A],
            &[0xFE, 0xAA, 0x02, 0x80, 0x00, 0x2A],
        ),
        packs(&[], &[]),
        packs(&[0xAA; 130], &[0x81, 0xAA, 0x01, 0xAA, 0xAA]),
        packs(&[0xAA; 131], &[0x81, 0xAA, 0xFE, 0xAA]),
        packs(&[1, 1, 2, 2], &[3, 1, 1, 2, 2]),
        packs(&[1, 2, 2, 2, 3], &[0, 1, 0xFE, 2, 0, 3]),
    ];
    check(&rt, &packed);
}

// Fills a row with 0 and 1 alternately.
fn alternate(row: &mut [u8]) {
    for (i, byte) in row.iter_mut().enumerate() {
        *byte = (i % 2) as u8;
    }
}

#[test]
fn cuts_literals(rt: HostRuntime) {
    let mut row = [1; 129];
    alternate(&mut row);
    let mut packed = [0xEE; 131];
    let len = pack_row(&row, &mut packed);
    let front = packed.starts_with(&[0x7F, 0, 1]);
    check(&rt, &[len == 131, front, packed.ends_with(&[0, 1, 0, 0])]);
}

// Returns whether the bound of a row of `n` bytes is `bound`. A row has at most 65,535 bytes.
fn is_bound(n: usize, bound: usize) -> bool {
    n <= 65_535 && pack_bound(n) == bound
}

#[test]
fn bounds_packings(rt: HostRuntime) {
    let bounds = [
        is_bound(0, 0),
        is_bound(1, 2),
        is_bound(128, 129),
        is_bound(129, 131),
        is_bound(65_535, 66_047),
    ];
    check(&rt, &bounds);
}

#[test]
fn frames_rows(rt: HostRuntime) {
    let mut frame = [0xEE; 9];
    frame_row(&[0xAA, 0xAA, 0xAA, 0x80, 0x00, 0x2A], &mut frame);
    let packed = [6, 0, 0xFE, 0xAA, 0x02, 0x80, 0x00, 0x2A, 0];
    let row = framed(&frame) == &packed[2..8];
    check(&rt, &[frame_len(6) == 9, frame == packed, row]);
}

#[test]
fn frames_a_long_row(rt: HostRuntime) {
    let mut row = [1; 300];
    alternate(&mut row);
    let mut frame = [0xEE; 305];
    frame_row(&row, &mut frame);
    let header = frame.starts_with(&[0x2F, 0x01, 0x7F, 0]);
    check(&rt, &[header, frame_len(8192) == 8258]);
}
