// A realistic edition: four pages in colour, each one image at scale 4, for three sites. The third site
// prints another page 1.
ghost use Rattle.std.specs.Prelude.{◌≡◌, length};

use crate::files::image;
use crate::room::{RUN, Want, files_of, racks_of};
use pr_rack::MemRack;
use std::process::Abort;
use std::thread::Threads;
use std::time::Clock;
use test_room::CALM;
use tif_make::{Compression, ImageForm, Kind, Order, Planar};

const PLAN: &str = r#"{"plan":1,"edition":"E1","dpi":1200,"page":[800,1200],"margins":[32,24,32,24],
"gutter":64,"pages":[
{"name":"p1","inks":"CMYK","layers":[{"kind":"contone","file":"a.tif","scale":4}]},
{"name":"p2","inks":"CMYK","layers":[{"kind":"contone","file":"b.tif","scale":4}]},
{"name":"p3","inks":"CMYK","layers":[{"kind":"contone","file":"a.tif","scale":4}]},
{"name":"p4","inks":"CMYK","layers":[{"kind":"contone","file":"b.tif","scale":4}]},
{"name":"z1","inks":"CMYK","layers":[{"kind":"contone","file":"b.tif","scale":4}]}],
"sections":[{"name":"A","pages":["p1","p2","p3","p4"]}],
"zones":[{"name":"Z","replace":[{"section":"A","page":1,"with":"z1"}]}],
"sites":[{"name":"OSLO"},{"name":"BERGEN"},{"name":"TROMSO","zone":"Z"}]}"#;

const REPORT: &str = "site OSLO finished plates 8 rows 9984
site BERGEN finished plates 8 rows 9984
site TROMSO finished plates 8 rows 9984
total rows 14976 sites 3
";

// Returns the samples of 200 by 300 pixels.
fn samples<R: Abort + AllocGlobal>(rt: &R, first: u8) -> Vec<u8>
    ensures { length result.items ≡ 240000 }
{
    let mut samples = Vec::new(rt.alloc());
    for pixel in 0..60_000u32 {
        let tone = (pixel % 251) as u8;
        let pixel = [
            first.wrapping_add(tone),
            tone,
            tone.wrapping_mul(3),
            tone.wrapping_mul(7),
        ];
        samples.extend_from_slice(&pixel).expect(rt, "memory");
    }
    samples
}

// Makes an image of these pixels, most significant byte first, in four planes or with the inks interleaved.
fn picture<R: Abort + AllocGlobal>(rt: &R, planar: Planar, first: u8) -> Vec<u8> {
    let form = ImageForm {
        kind: Kind::Contone,
        width: 200,
        length: 300,
        order: Order::Big,
        planar,
        compression: Compression::Uncompressed,
        rows_per_strip: 16,
    };
    image(rt, &form, &samples(rt, first))
}

// Returns the 32-bit number at an offset of a plate, or 0 past its end.
fn number_at(plate: &[u8], at: usize) -> usize {
    match plate.get(at..at.wrapping_add(4)) {
        Some([a, b, c, d]) => u32::from_le_bytes([*a, *b, *c, *d]) as usize,
        _ => 0,
    }
}

// Returns a plate's width, length, rows per strip, number of strips, offset of the first strip, and number of
// bytes after the table of strips.
fn sides_of(plate: &[u8]) -> [usize; 6] {
    let at = number_at(plate, 4);
    [
        number_at(plate, at.wrapping_add(10)),
        number_at(plate, at.wrapping_add(22)),
        number_at(plate, at.wrapping_add(94)),
        number_at(plate, at.wrapping_add(66)),
        number_at(plate, at.wrapping_add(166)),
        plate.len().wrapping_sub(at.wrapping_add(166 + 8 * 34)),
    ]
}

// Whether a rack took each row of its site and has its eight plates.
fn is_whole(rack: &MemRack) -> bool {
    for file in rack.files() {
        if sides_of(&file.1) != [1728, 1248, 37, 34, 8, 0] {
            return false;
        }
    }
    rack.files().len() == 8 && rack.taken().len() == 9984
}

fn are_whole(racks: &[MemRack]) -> bool {
    for rack in racks.iter().take(3) {
        if !is_whole(rack) {
            return false;
        }
    }
    true
}

// Whether the run of these files has the expected result, and three racks are complete.
fn makes_all<'a, R: Abort + AllocGlobal + Threads + Clock + Sync>(
    rt: &R,
    first: &'a [u8],
    second: &'a [u8],
) -> bool {
    let want = Want {
        status: 0,
        report: REPORT,
        line: "",
        plates: &[],
        taken: &[],
    };
    let files = files_of(PLAN, first, second);
    match racks_of(rt, &RUN, &files, CALM, &want) {
        Some(racks) => are_whole(&racks),
        None => false,
    }
}

#[test]
fn runs_a_realistic_edition(rt: HostRuntime) {
    let first = picture(&rt, Planar::Chunky, 0);
    let second = picture(&rt, Planar::Separate, 128);
    assert!(rt; makes_all(&rt, &first, &second));
}
