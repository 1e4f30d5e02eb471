// The images of a job: their rows, and their files.
ghost use Rattle.std.specs.Prelude.{◌≡◌, ◌≤◌, ◌*◌, ◌++◌, IfOk, OnOk, nat_lt, if◌then◌else◌};
ghost use Rattle.tif_make.specs.Form.{IsForm};
ghost use Rattle.job_gen.specs.Images.{bilevel_form as bilevel_form_of, contone_bytes};
ghost use Rattle.job_gen.specs.Images.{contone_form as contone_form_of, contone_pixel};
ghost use Rattle.job_gen.specs.Images.{contone_row, line_bytes, line_form as line_form_of, line_row};
ghost use Rattle.job_gen.specs.Images.{mask_bytes, mask_form as mask_form_of, mask_row, rows_of};
ghost use Rattle.job_gen.specs.Images.{sample as sample_of};

use crate::numbers::size;
use pr_base::NoMemory;
use std::alloc::Global;
use tif_make::{Compression, ImageForm, Kind, Order, Planar, make_image};

/// The smallest width and height of an image in pixels.
const WIDTH: u32 = 16;

const LENGTH: u32 = 12;

/// The rows per strip, except in the mask.
const STRIP_ROWS: u32 = 4;

/// Eight pixels of a linework row, indexed by the row number modulo 4: every fourth pixel is marked, in each
/// row one pixel to the left of the row above.
const LINE_BYTES: [u8; 4] = [0x88, 0x11, 0x22, 0x44];

/// Returns the file of the contone image of index `f`.
#[tactic(auto, unfolding(crate::specs::Images::contone_bytes))]
pub(crate) fn contone_image(alloc: Global, n: u32, f: u32) -> Result<Vec<u8>, NoMemory>
    requires { f ≤ 8 }
    ensures { IfOk result (λ file. file.items ≡ contone_bytes n f) }
{
    let form = contone_form(n, f);
    let rows = contone_rows(alloc, n, f, form.width, form.length)?;
    make_image(alloc, &form, rows.as_slice())
}

/// Returns the file of the linework.
#[tactic(auto, unfolding(crate::specs::Images::line_bytes))]
pub(crate) fn line_image(alloc: Global, n: u32) -> Result<Vec<u8>, NoMemory>
    ensures { IfOk result (λ file. file.items ≡ line_bytes n) }
{
    let form = line_form(n);
    let rows = line_rows(alloc, 2 * size(n), form.length)?;
    make_image(alloc, &form, rows.as_slice())
}

/// Returns the file of the mask.
#[tactic(auto, unfolding(crate::specs::Images::mask_bytes))]
pub(crate) fn mask_image(alloc: Global, n: u32) -> Result<Vec<u8>, NoMemory>
    ensures { IfOk result (λ file. file.items ≡ mask_bytes n) }
{
    let form = mask_form(n);
    let rows = mask_rows(alloc, size(n), form.length)?;
    make_image(alloc, &form, rows.as_slice())
}

/// The layout of the contone image of index `f` in its file.
fn contone_form(n: u32, f: u32) -> ImageForm
    ensures form { result ≡ contone_form_of n f }
    ensures is { IsForm result }
{
    let (order, planar) = if f % 2 == 1 {
        (Order::Little, Planar::Chunky)
    } else {
        (Order::Big, Planar::Separate)
    };
    ImageForm {
        kind: Kind::Contone,
        width: WIDTH * size(n),
        length: LENGTH * size(n),
        order,
        planar,
        compression: Compression::Uncompressed,
        rows_per_strip: STRIP_ROWS,
    }
}

/// The layout of an image of one bit a pixel in its file.
fn bilevel_form(n: u32, kind: Kind, compression: Compression, rows_per_strip: u32) -> ImageForm
    requires { 1 ≤ rows_per_strip }
    ensures form { result ≡ bilevel_form_of kind compression rows_per_strip n }
    ensures is { IsForm result }
{
    ImageForm {
        kind,
        width: WIDTH * size(n),
        length: LENGTH * size(n),
        order: Order::Little,
        planar: Planar::Chunky,
        compression,
        rows_per_strip,
    }
}

/// The layout of the linework in its file.
fn line_form(n: u32) -> ImageForm
    ensures form { result ≡ line_form_of n }
    ensures is { IsForm result }
{
    bilevel_form(n, Kind::Line, Compression::PackBits, STRIP_ROWS)
}

/// The layout of the mask in its file: a single strip.
fn mask_form(n: u32) -> ImageForm
    ensures form { result ≡ mask_form_of n }
    ensures is { IsForm result }
{
    bilevel_form(n, Kind::Mask, Compression::Uncompressed, LENGTH * size(n))
}

/// Returns the rows of a contone image.
fn contone_rows(alloc: Global, n: u32, f: u32, width: u32, length: u32) -> Result<Vec<u8>, NoMemory>
    requires index { f ≤ 8 }
    requires width { width ≤ 65535 }
    requires length { length ≤ 65535 }
    ensures { IfOk result (λ rows. rows.items ≡ rows_of (contone_row n f width) length) }
{
    let mut rows = Vec::new(alloc);
    for y in 0..length {
        put_contone_row(&mut rows, n, f, width, y)?;
    }
    Ok(rows)
}

/// Returns the rows of the linework, each of `bytes` bytes.
fn line_rows(alloc: Global, bytes: u32, length: u32) -> Result<Vec<u8>, NoMemory>
    requires { bytes ≤ 8191 }
    ensures { IfOk result (λ rows. rows.items ≡ rows_of (line_row (8 * bytes)) length) }
{
    let mut rows = Vec::new(alloc);
    for y in 0..length {
        put_line_row(&mut rows, bytes, y)?;
    }
    Ok(rows)
}

/// Returns the rows of the mask, each of `2 * half` bytes.
fn mask_rows(alloc: Global, half: u32, length: u32) -> Result<Vec<u8>, NoMemory>
    requires { half ≤ 4095 }
    ensures { IfOk result (λ rows. rows.items ≡ rows_of (mask_row (16 * half)) length) }
{
    let mut rows = Vec::new(alloc);
    for y in 0..length {
        put_mask_row(&mut rows, half, y)?;
    }
    Ok(rows)
}

/// Appends a row of a contone image.
#[tactic(auto, unfolding(crate::specs::Images::contone_row))]
fn put_contone_row(rows: &mut Vec<u8>, n: u32, f: u32, width: u32, y: u32) -> Result<(), NoMemory>
    requires index { f ≤ 8 }
    requires width { width ≤ 65535 }
    requires y { y ≤ 65535 }
    ensures { OnOk result (rows.new.items ≡ rows.old.items ++ contone_row n f width y) }
{
    for x in 0..width {
        rows.extend_from_slice(&pixel(n, f, x, y))?;
    }
    Ok(())
}

/// The samples of a pixel.
fn pixel(n: u32, f: u32, x: u32, y: u32) -> [u8; 4]
    requires index { f ≤ 8 }
    requires x { x ≤ 65535 }
    requires y { y ≤ 65535 }
    ensures { result ≡ contone_pixel n f y x }
{
    [
        sample(n, f, 0, x, y),
        sample(n, f, 1, x, y),
        sample(n, f, 2, x, y),
        sample(n, f, 3, x, y),
    ]
}

/// The sample of an ink at a pixel.
fn sample(n: u32, f: u32, ink: u32, x: u32, y: u32) -> u8
    requires index { f ≤ 8 }
    requires ink { ink ≤ 3 }
    requires x { x ≤ 65535 }
    requires y { y ≤ 65535 }
    ensures { result ≡ sample_of n f ink x y }
{
    ((n % 256 + 29 * f + 61 * ink + 3 * x + 7 * y) % 256) as u8
}

/// Appends a row of the linework, of `bytes` bytes.
fn put_line_row(rows: &mut Vec<u8>, bytes: u32, y: u32) -> Result<(), NoMemory>
    requires { bytes ≤ 8191 }
    ensures { OnOk result (rows.new.items ≡ rows.old.items ++ line_row (8 * bytes) y) }
{
    let byte = LINE_BYTES[y as usize % 4];
    for _j in 0..bytes {
        rows.push(byte)?;
    }
    Ok(())
}

/// Appends a row of the mask, of `2 * half` bytes.
fn put_mask_row(rows: &mut Vec<u8>, half: u32, y: u32) -> Result<(), NoMemory>
    requires { half ≤ 4095 }
    ensures { OnOk result (rows.new.items ≡ rows.old.items ++ mask_row (16 * half) y) }
{
    for j in 0..2 * half {
        rows.push(mask_byte(half, j))?;
    }
    Ok(())
}

/// Byte `j` of a row of the mask.
fn mask_byte(half: u32, j: u32) -> u8
    ensures { result ≡ (if nat_lt j half then 255 else 0) }
{
    if j < half { 0xFF } else { 0 }
}
