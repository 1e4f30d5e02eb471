// Small image files, layers of them, and the pages that these layers make.
ghost use Rattle.std.specs.Prelude.{◌≡◌, ◌-◌, ◌<◌, ◌≤◌, [], All, length};
ghost use Rattle.page_layers.specs.Inks.{HasWidth};
ghost use Rattle.page_layers.specs.Layer.{IsLayer, shape_of};

use page_layers::{Art, Crop, InkRow, Layer, PageInks, PageRows};
use pr_base::Ink;
use std::process::Abort;
use tif_image::{Bilevel, BilevelUse, Contone};
use tif_make::{ImageForm, Kind, make_image};
use worked_files::FORM;

// The form of the two image files: 4 by 2 pixels, in one strip.
const TWO_ROWS: ImageForm = ImageForm {
    length: 2,
    rows_per_strip: 2,
    ..FORM
};

// Makes a file of four inks: sample i of the pixel in column x of row y is 10 y + x + 40 i + 1.
fn contone<R: Abort + AllocGlobal>(rt: &R) -> Vec<u8> {
    let rows = [
        1, 41, 81, 121, 2, 42, 82, 122, 3, 43, 83, 123, 4, 44, 84, 124, //
        11, 51, 91, 131, 12, 52, 92, 132, 13, 53, 93, 133, 14, 54, 94, 134, //
    ];
    make_image(rt.alloc(), &TWO_ROWS, &rows).expect(rt, "memory")
}

// Makes a file of one bit a pixel, in which the pixels 0 and 2 of row 0 and 1 to 3 of row 1 are marked.
fn bilevel<R: Abort + AllocGlobal>(rt: &R) -> Vec<u8> {
    let form = ImageForm {
        kind: Kind::Line,
        ..TWO_ROWS
    };
    make_image(rt.alloc(), &form, &[0xA0, 0x70]).expect(rt, "memory")
}

/// The image of a layer: the file of four inks, or the file of one bit a pixel in these inks.
#[derive(Clone, Copy)]
pub enum Shown {
    Contone,
    Line([u8; 5]),
}

/// A layer in plain values. Its mask is the file of one bit a pixel.
#[derive(Clone, Copy)]
pub struct Laid {
    pub shown: Shown,
    pub masked: bool,
    pub x: u32,
    pub y: u32,
    pub scale: u32,
    pub crop: Crop,
    pub overprint: bool,
}

/// Returns a layer of a whole image in knockout, without a mask, at the page's top left corner at scale 1.
pub fn whole(shown: Shown) -> Laid {
    Laid {
        shown,
        masked: false,
        x: 0,
        y: 0,
        scale: 1,
        crop: Crop {
            x: 0,
            y: 0,
            width: 4,
            height: 2,
        },
        overprint: false,
    }
}

// The layer of the page that used the buffers before: a masked photograph at scale 3.
const BEFORE: Laid = Laid {
    shown: Shown::Contone,
    masked: true,
    x: 1,
    y: 0,
    scale: 3,
    crop: Crop {
        x: 0,
        y: 0,
        width: 4,
        height: 2,
    },
    overprint: true,
};

const BLACK: PageInks = PageInks {
    colour: false,
    spot: false,
};

const SPOT: PageInks = PageInks {
    colour: false,
    spot: true,
};

const COLOUR: PageInks = PageInks {
    colour: true,
    spot: false,
};

// The inks in which rows are asked for, by how many rows are left, modulo 3.
const INKS: [[PageInks; 3]; 4] = [
    [PageInks::ALL; 3],
    [BLACK; 3],
    [SPOT, COLOUR, BLACK],
    [COLOUR, BLACK, PageInks::ALL],
];

/// Whether a row repeats the one above it, and its cyan, magenta, yellow, black and spot. A row without
/// values is skipped.
pub type Row<const W: usize> = (bool, Option<[[u8; W]; 5]>);

/// Asserts that the page of these layers, the first at the bottom, gives these rows, in all inks and in some,
/// in buffers that another page used before. The page is restarted after each turn.
pub fn assert_page<const W: usize, R: Abort + AllocGlobal>(
    rt: &R,
    layers: &[Laid],
    height: u32,
    turns: &[&[Row<W>]],
) {
    let image = contone(rt);
    let line = bilevel(rt);
    assert_turns(
        rt,
        layer(rt, image.as_slice(), line.as_slice(), &BEFORE),
        layers_of(rt, image.as_slice(), line.as_slice(), layers),
        height,
        turns,
    );
}

fn assert_turns<'a, const W: usize, R: Abort + AllocGlobal>(
    rt: &R,
    before: Layer<'a>,
    layers: Vec<Layer<'a>>,
    height: u32,
    turns: &[&[Row<W>]],
)
    requires { All IsLayer layers.items }
{
    assert!(rt; W >= 1 && W <= 65_535 && height >= 1 && height <= 65_535);
    let mut room = InkRow::new(rt.alloc(), W as u32).expect(rt, "memory");
    let mut page = used_page(rt, before, layers.len(), W as u32, height, &mut room);
    put_all(&mut page, layers);
    for inks in &INKS {
        assert_in_inks(rt, &mut page, &mut room, height, turns, inks);
    }
}

fn assert_in_inks<const W: usize>(
    rt: &impl Abort,
    page: &mut PageRows<'_>,
    room: &mut InkRow,
    height: u32,
    turns: &[&[Row<W>]],
    inks: &[PageInks; 3],
)
    requires { HasWidth room.old page.old.width }
    ensures { HasWidth room.new page.new.width }
{
    for rows in turns {
        assert_rows(rt, page, room, height, rows, inks);
        page.restart();
    }
}

// Returns a page without layers, whose buffers a page of one layer used before.
fn used_page<'a, R: Abort + AllocGlobal>(
    rt: &R,
    before: Layer<'a>,
    layers: usize,
    width: u32,
    height: u32,
    room: &mut InkRow,
) -> PageRows<'a>
    requires width { (1 ≤ width) × (width ≤ 65535) }
    requires height { (1 ≤ height) × (height ≤ 65535) }
    requires row { HasWidth room.old width }
    ensures width { result.width ≡ width }
    ensures row { HasWidth room.new width }
    ensures top { result.next ≡ 0 }
    ensures none { result.layers ≡ [] }
    ensures room { layers ≤ result.room }
{
    let mut page = PageRows::open(rt.alloc(), layers.max(1), width, height).expect(rt, "memory");
    draw(rt, before, &mut page, room);
    page
}

/// Draws the first row of a page with this layer alone. Leaves the page unchanged, without layers.
pub fn draw<'a>(rt: &impl Abort, layer: Layer<'a>, page: &mut PageRows<'a>, room: &mut InkRow)
    requires none { page.old.layers ≡ [] }
    requires place { 0 < page.old.room }
    requires top { (page.old.next ≡ 0) × (0 < page.old.height) }
    requires width { HasWidth room.old page.old.width }
    ensures page { page.new ≡ page.old }
    ensures width { HasWidth room.new page.old.width }
{
    assert_layer(rt, &layer);
    page.put(layer);
    page.next(room);
    page.clear();
}

// Adds layers to a page that has none.
fn put_all<'a>(page: &mut PageRows<'a>, layers: Vec<Layer<'a>>)
    requires layers { All IsLayer layers.items }
    requires top { page.old.next ≡ 0 }
    requires none { page.old.layers ≡ [] }
    requires room { length layers.items ≤ page.old.room }
    ensures width { page.new.width ≡ page.old.width }
{
    for layer in layers {
        page.put(layer);
    }
}

fn assert_rows<const W: usize>(
    rt: &impl Abort,
    page: &mut PageRows<'_>,
    room: &mut InkRow,
    height: u32,
    rows: &[Row<W>],
    inks: &[PageInks; 3],
)
    requires { HasWidth room.old page.old.width }
    ensures { HasWidth room.new page.new.width }
{
    let mut left = height;
    for (repeats, row) in rows {
        assert!(rt; left > 0);
        assert_stands(rt, page, left, *repeats);
        assert_next(rt, page, room, row, inks[left as usize % 3]);
        left -= 1;
    }
    assert!(rt; page.left() == left);
}

fn assert_stands(rt: &impl Abort, page: &PageRows<'_>, left: u32, repeats: bool)
    ensures { page.now.height - page.now.next ≡ left }
{
    assert!(rt; page.left() == left);
    assert!(rt; page.repeats() == repeats);
}

fn assert_next<const W: usize>(
    rt: &impl Abort,
    page: &mut PageRows<'_>,
    room: &mut InkRow,
    row: &Option<[[u8; W]; 5]>,
    inks: PageInks,
)
    requires left { page.old.next < page.old.height }
    requires width { HasWidth room.old page.old.width }
    ensures { HasWidth room.new page.new.width }
{
    let Some([cyan, magenta, yellow, black, spot]) = row else {
        page.pass();
        return;
    };
    page.next_in(inks, room);
    assert_plane(rt, room, inks, Ink::C, cyan);
    assert_plane(rt, room, inks, Ink::M, magenta);
    assert_plane(rt, room, inks, Ink::Y, yellow);
    assert_plane(rt, room, inks, Ink::K, black);
    assert_plane(rt, room, inks, Ink::S, spot);
}

fn assert_plane(rt: &impl Abort, room: &InkRow, inks: PageInks, ink: Ink, values: &[u8]) {
    let is_painted = match ink {
        Ink::C | Ink::M | Ink::Y => inks.colour,
        Ink::K => true,
        Ink::S => inks.spot,
    };
    assert!(rt; !is_painted || room.plane(ink) == values);
}

// Makes layers of these files.
fn layers_of<'a, R: Abort + AllocGlobal>(
    rt: &R,
    image: &'a [u8],
    line: &'a [u8],
    laid: &[Laid],
) -> Vec<Layer<'a>>
    ensures { All IsLayer result.items }
{
    let mut layers = Vec::new(rt.alloc());
    for laid in laid {
        put(rt, &mut layers, layer(rt, image, line, laid));
    }
    layers
}

// Adds a layer on top of the others, after asserting that a page accepts it.
fn put<'a, R: Abort>(rt: &R, layers: &mut Vec<Layer<'a>>, layer: Layer<'a>)
    requires { All IsLayer layers.old.items }
    ensures { All IsLayer layers.new.items }
{
    assert_layer(rt, &layer);
    layers.push(layer).expect(rt, "memory");
}

fn layer<'a, R: Abort>(rt: &R, image: &'a [u8], line: &'a [u8], laid: &Laid) -> Layer<'a> {
    Layer {
        art: art(rt, image, line, laid.shown),
        mask: mask(rt, line, laid.masked),
        x: laid.x,
        y: laid.y,
        scale: laid.scale,
        crop: laid.crop,
        overprint: laid.overprint,
    }
}

fn art<'a, R: Abort>(rt: &R, image: &'a [u8], line: &'a [u8], shown: Shown) -> Art<'a> {
    match shown {
        Shown::Contone => Art::Contone(Contone::check(image).expect(rt, "no image")),
        Shown::Line(inks) => Art::Line(linework(rt, line, BilevelUse::Line), inks),
    }
}

fn mask<'a, R: Abort>(rt: &R, line: &'a [u8], masked: bool) -> Option<Bilevel<'a>> {
    if !masked {
        return None;
    }
    Some(linework(rt, line, BilevelUse::Mask))
}

// Opens an image of one bit a pixel.
fn linework<'a, R: Abort>(rt: &R, file: &'a [u8], usage: BilevelUse) -> Bilevel<'a> {
    Bilevel::check(file, usage).expect(rt, "no image")
}

// Asserts that a page accepts this layer.
fn assert_layer(rt: &impl Abort, layer: &Layer<'_>)
    ensures { IsLayer layer.now }
{
    let (width, length) = sides(&layer.art);
    let crop = layer.crop;
    assert!(rt; crop.width > 0 && crop.height > 0);
    assert!(rt; crop.x <= width && crop.width <= width - crop.x);
    assert!(rt; crop.y <= length && crop.height <= length - crop.y);
    assert!(rt; layer.scale > 0 && layer.scale <= 64);
    let Some(mask) = &layer.mask else {
        return;
    };
    assert!(rt; mask.width() == width);
    assert!(rt; mask.length() == length);
}

fn sides(art: &Art<'_>) -> (u32, u32)
    ensures width { result.0 ≡ (shape_of art.now).width }
    ensures length { result.1 ≡ (shape_of art.now).length }
{
    match art {
        Art::Contone(image) => (image.width(), image.length()),
        Art::Line(image, _) => (image.width(), image.length()),
    }
}
