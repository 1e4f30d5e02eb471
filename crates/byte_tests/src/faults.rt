// Texts, inks, and how faults print and compare.
use crate::checks::check;
use pr_base::{FaultKind, FileFault, Ink, PathText, TagFault};
use std::fmt::Display;
use std::process::Abort;

#[test]
fn a_path_keeps_its_text(rt: HostRuntime) {
    let path = PathText::of(rt.alloc(), "in/a.tif").expect(&rt, "memory");
    check(&rt, &[path.as_str() == "in/a.tif"]);
}

#[test]
fn inks_stand_in_the_order_of_the_samples(rt: HostRuntime) {
    let inks = [Ink::C, Ink::M, Ink::Y, Ink::K, Ink::S];
    for i in 0..5 {
        for j in 0..5 {
            assert_order(&rt, inks[i], inks[j], i < j, i == j);
        }
    }
}

fn assert_order(rt: &impl Abort, one: Ink, other: Ink, below: bool, same: bool) {
    check(rt, &[(one < other) == below, (one == other) == same]);
}

fn prints<R: Abort + AllocGlobal, T: Display>(rt: &R, fault: &T, text: &str) -> bool {
    let printed = format!(in rt.alloc(); "{fault}").expect(rt, "memory");
    printed.as_str() == text
}

const OF_BITS: TagFault = TagFault {
    tag: 258,
    kind: FaultKind::Bits,
};

#[test]
fn faults_print_and_compare_by_their_fields(rt: HostRuntime) {
    let same = OF_BITS;
    let kind = FaultKind::FieldType;
    let of_type = TagFault { tag: 258, kind };
    let kind = FaultKind::Bits;
    let of_width = TagFault { tag: 256, kind };
    let compared = [
        OF_BITS == same,
        OF_BITS != of_type,
        OF_BITS != of_width,
        prints(&rt, &of_type, "tag 258: field type"),
    ];
    check(&rt, &compared);
}

fn file_fault<R: Abort + AllocGlobal>(rt: &R, file: &str, tag: u16) -> FileFault {
    FileFault {
        file: PathText::of(rt.alloc(), file).expect(rt, "memory"),
        tag,
        kind: FaultKind::TooLong,
    }
}

// Returns whether a fault is the one of this file and tag.
fn is_of<R: Abort + AllocGlobal>(rt: &R, fault: &FileFault, file: &str, tag: u16) -> bool {
    *fault == file_fault(rt, file, tag)
}

#[test]
fn a_file_fault_names_its_file(rt: HostRuntime) {
    let fault = file_fault(&rt, "a.tif", 0);
    let compared = [
        prints(&rt, &fault, "file a.tif: tag 0: too long"),
        is_of(&rt, &fault, "a.tif", 0),
        !is_of(&rt, &fault, "b.tif", 0),
        !is_of(&rt, &fault, "a.tif", 1),
    ];
    check(&rt, &compared);
}
