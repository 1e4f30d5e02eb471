// The first directory of an image in both byte orders, and its faults after a byte is changed.
ghost use Rattle.std.specs.Prelude.{◌<◌, IsTrue};
ghost use Rattle.tif_dir.specs.Table.{is_listed};

use pr_base::{FaultKind, TagFault};
use std::process::Abort;
use tif_dir::{least_count, read_dir};
use worked_files::{LEAST_FIRST, MOST_FIRST, changed};

fn fault(tag: u16, kind: FaultKind) -> TagFault {
    TagFault { tag, kind }
}

// Returns value `i` of a field that has at least `least` values.
fn number(bytes: &[u8], tag: u16, i: u32, least: u32) -> Result<u32, TagFault>
    requires listed { IsTrue (is_listed tag) }
    requires within { i < least }
{
    read_dir(bytes)?.number(tag, i, least)
}

// Returns the only value of a field, if the file has the field.
fn only(rt: &impl Abort, bytes: &[u8], tag: u16) -> Result<Option<u32>, TagFault> {
    let dir = read_dir(bytes)?;
    let Some(field) = dir.field(tag)? else {
        return Ok(None);
    };
    assert!(rt; field.count() == 1);
    Ok(Some(field.at(0)))
}

#[test]
fn reads_both_orders(rt: HostRuntime) {
    for bytes in [LEAST_FIRST, MOST_FIRST] {
        assert_fields(&rt, &bytes);
        assert!(rt; number(&bytes, 258, 3, 4) == Ok(8));
        // Fields missing from the file.
        assert!(rt; number(&bytes, 284, 0, 1) == Ok(1));
        assert!(rt; number(&bytes, 336, 6, 8) == Ok(0));
        assert!(rt; number(&bytes, 336, 7, 8) == Ok(255));
    }
}

fn assert_fields(rt: &impl Abort, bytes: &[u8]) {
    for (tag, value) in [
        (256, Some(4)),
        (257, Some(1)),
        (262, Some(5)),
        (273, Some(130)),
        (279, Some(16)),
        (332, None),
    ] {
        assert!(rt; only(rt, bytes, tag) == Ok(value), "tag {tag}");
    }
}

#[test]
fn least_counts_go_by_samples_and_strips(rt: HostRuntime) {
    assert!(rt; least_count(258, 4, 1) == 4);
    assert!(rt; least_count(279, 4, 7) == 7);
}

#[test]
fn names_each_fault(rt: HostRuntime) {
    use FaultKind::{Directory, FieldCount, FieldPlace, FieldType, Header, Missing};

    // 262 is the fifth entry, from byte 58 on. Each case: a byte's offset in the file, its new value, and the
    // fault.
    let cases = [
        (0, 0x4d, fault(0, Header)),
        (2, 43, fault(0, Header)),
        (6, 0xff, fault(0, Directory)),
        (8, 0, fault(0, Directory)),
        (8, 12, fault(0, Directory)),
        (58, 7, fault(262, Missing)),
        (60, 5, fault(262, FieldType)),
        (63, 1, fault(262, FieldPlace)),
        (65, 0xff, fault(262, FieldPlace)),
        (62, 0, fault(262, FieldCount)),
    ];
    for (place, byte, want) in cases {
        let bytes = changed(LEAST_FIRST, &[(place, byte)]);
        assert!(rt; number(&bytes, 262, 0, 1) == Err(want), "byte {place}");
    }
}

#[test]
fn names_each_cut(rt: HostRuntime) {
    use FaultKind::{Directory, FieldPlace, Header};

    let cuts = [
        (0, Err(fault(0, Header))),
        (7, Err(fault(0, Header))),
        (8, Err(fault(0, Directory))),
        (100, Err(fault(0, Directory))),
        (117, Err(fault(0, Directory))),
        (118, Err(fault(258, FieldPlace))),
        (125, Err(fault(258, FieldPlace))),
        (129, Err(fault(258, FieldPlace))),
        (130, Ok(8)),
    ];
    for (len, want) in cuts {
        let front = LEAST_FIRST.get(..len).expect(&rt, "a part");
        assert!(rt; number(front, 258, 3, 4) == want, "{len} bytes");
    }
}

#[test]
fn takes_the_first_entry(rt: HostRuntime) {
    // The entry of 257 becomes a second one of 256.
    let bytes = changed(LEAST_FIRST, &[(22, 0)]);
    assert!(rt; number(&bytes, 256, 0, 1) == Ok(4));
    assert!(rt; number(&bytes, 257, 0, 1) == Err(fault(257, FaultKind::Missing)));
}
