// The rows of one layer on a page.
ghost use Rattle.std.specs.Prelude.{◌≡◌, ℕ, ◌+◌, ◌-◌, ◌*◌, ◌/◌, ◌<◌, ◌≤◌, false, length, option_map};
ghost use Rattle.tif_strips.specs.Strips.{row_length};
ghost use Rattle.page_layers.specs.Inks.{HasWidth, inks_at, painted_inks};
ghost use Rattle.page_layers.specs.Layer.{IsLayer, paint_at, shape_of};
ghost use Rattle.page_layers.specs.Reader.{Holds, IsOf};
ghost use Rattle.page_layers.specs.Rows.{IsPaint, LaysRow, bare_art, fixed_of, painting_of, span_of};
ghost use Rattle.page_layers.specs.Rows.{with_fixed};

use crate::admit::{admit_row, is_bare};
use crate::layer::{Art, Crop, Layer};
use crate::layer_room::LayerRoom;
use crate::mask_rows::{open_mask, reach_mask, restart_mask};
use crate::room::{ReadRoom, refill};
use crate::row_reader::RowReader;
use crate::{InkRow, PageInks};
use page_paint::Painting;
use std::marker::Model;

/// A layer, with the row of its image that was read last, expanded to the page's columns as paint. Contracts
/// see the layer, the page's width, and the number of image rows passed so far.
#[derive(Drop)]
pub(crate) struct LayerRows<'a> {
    layer: Layer<'a>,
    /// The page's width in pixels.
    width: u32,
    painting: Painting,
    image: RowReader<'a>,
    mask: Option<RowReader<'a>>,
    /// The ink values at each column of the page that the layer covers.
    paint: InkRow,
    /// The inks of the page in which the paint was made.
    inks: PageInks,
    /// A byte for each column of the image that shows: 255 where it is admitted, and 0 elsewhere.
    marks: Vec<u8>,
    /// The same for each column of the page that the layer covers.
    admitted: Vec<u8>,
}

impl<'a> Model for LayerRows<'a> {
    ghost use Rattle.page_layers.specs.Rows.{LayerState};

    ghost Value = { LayerState };

    ghost use Rattle.std.specs.Vec.{vec_capacity};
    ghost use Rattle.page_layers.specs.Rows.{IsLayerRows};

    ghost view = { λ r. record {
      layer = r.layer;
      width = r.width;
      read = r.image.next;
      inks = r.inks;
    } };

    ghost invariant = { λ r. IsLayerRows r.layer r.width r.painting r.image r.mask r.paint r.inks
        r.marks.items r.admitted.items (vec_capacity r.marks) (vec_capacity r.admitted) };
}

impl<'a> LayerRows<'a> {
    ghost use Rattle.std.specs.Prelude.{◌≡◌, ℕ, ◌+◌, ◌<◌, ◌≤◌, IsTrue, false};
    ghost use Rattle.page_layers.specs.Inks.{HasWidth, Planes, blank, inks_at, only, painted_inks};
    ghost use Rattle.page_layers.specs.Layer.{IsLayer, painted, row_at};
    ghost use Rattle.page_layers.specs.Page.{shows_alike, shows_on};

    /// Opens a layer on a page of this width, before the first row.
    pub(crate) fn open(room: LayerRoom, layer: Layer<'a>, width: u32) -> LayerRows<'a>
        requires layer { IsLayer layer }
        requires width { width ≤ 65535 }
        ensures { result ≡ record { layer = layer.entry; width = width; read = 0; inks = PageInks.ALL } }
    {
        let span = span_of(&layer, width);
        let columns = columns_of(&layer, span);
        let painting = painting_of(&layer);
        // Called for its clauses: the sides.
        let _shape = layer.art.shape();
        let image = RowReader::new(layer.art.rows());
        let mask = open_mask(&layer.mask);
        let LayerRoom {
            mut paint,
            mut marks,
            mut admitted,
        } = room;
        paint.refill(span, fixed_inks(&layer.art));
        refill(&mut marks, columns, 0);
        refill(&mut admitted, span, 255);
        LayerRows {
            layer,
            width,
            painting,
            image,
            mask,
            paint,
            inks: PageInks::ALL,
            marks,
            admitted,
        }
    }

    /// Returns the layer's buffers.
    pub(crate) fn into_room(self) -> LayerRoom {
        LayerRoom {
            paint: self.paint,
            marks: self.marks,
            admitted: self.admitted,
        }
    }

    /// Returns whether the layer shows on row `y` of the page.
    pub(crate) fn shows(&self, y: u32) -> bool
        ensures { result ≡ shows_on self.now.width self.now.layer y }
    {
        let below = y.wrapping_sub(self.layer.y);
        self.layer.x < self.width
            && self.layer.y <= y
            && below < self.layer.crop.height * self.layer.scale
    }

    /// Returns the row of the image that shows on row `y` of the page.
    pub(crate) fn row_at(&self, y: u32) -> u32
        requires { IsTrue (shows_on self.now.width self.now.layer y) }
        ensures { result ≡ row_at self.now.layer y }
    {
        self.layer.crop.y + (y - self.layer.y) / self.layer.scale
    }

    /// Paints the layer in these inks over row `y` of the page.
    pub(crate) fn paint(&mut self, y: u32, inks: PageInks, room: &mut ReadRoom, into: &mut InkRow)
        requires width { HasWidth into.old self.old.width }
        requires read { self.old.read ≤ row_at self.old.layer y + 1 }
        ensures inks { (x : ℕ) → x < self.old.width
            → only (painted_inks inks) (inks_at into.new x)
            ≡ only (painted_inks inks) (painted self.old.layer x y (inks_at into.old x)) }
        ensures width { HasWidth into.new self.old.width }
        ensures layer { self.new ≡ record self.old { read = self.new.read; inks = self.new.inks } }
        ensures read { self.new.read ≤ row_at self.old.layer y + 1 }
    {
        if !self.shows(y) {
            return;
        }
        let row = self.row_at(y);
        self.turn_to(inks);
        self.stand_behind(row, room);
        let from = self.layer.x as usize;
        lay_paint(
            &self.layer.art,
            inks,
            self.painting,
            from,
            &self.paint,
            &self.admitted,
            into,
        );
    }

    /// Returns the columns of row `y` of the page at which the layer shows and replaces all ink below,
    /// including the spot ink: the first and the one after the last, which are equal where there are none.
    pub(crate) fn covered(&self, y: u32) -> (usize, usize)
        ensures order { result.0 ≤ result.1 }
        ensures within { result.1 ≤ self.now.width }
        ensures covered { (x : ℕ) → result.0 ≤ x → x < result.1 → (under : Planes)
            → painted self.now.layer x y (inks_at under x) ≡ painted self.now.layer x y blank }
    {
        if self.painting != Painting::Whole || !self.shows(y) {
            return (0, 0);
        }
        let from = self.layer.x as usize;
        (from, from + self.admitted.len())
    }

    // Takes the inks in which the next paint is made. If they differ from those before, the image is read
    // again.
    fn turn_to(&mut self, inks: PageInks)
        ensures state { self.new ≡ record self.old { read = self.new.read; inks = inks } }
        ensures read { self.new.read ≤ self.old.read }
    {
        if self.inks != inks {
            self.restart();
            self.inks = inks;
        }
    }

    // Reads up to row `row` of the image and expands it to paint, unless the paint is known to be that row.
    fn stand_behind(&mut self, row: u32, room: &mut ReadRoom)
        requires before { self.old.read ≤ row + 1 }
        requires crop { self.old.layer.crop.y ≤ row }
        requires within { row < self.old.layer.crop.y + self.old.layer.crop.height }
        ensures { self.new ≡ record self.old { read = row + 1 } }
    {
        if self.pass_again(row) {
            return;
        }
        self.read_behind(row, room);
    }

    // Skips row `row` of the image and returns true, if it is known to equal the row above it, which was read
    // last: then the paint is the same. Otherwise nothing changes.
    fn pass_again(&mut self, row: u32) -> bool
        requires within { row < self.old.layer.crop.y + self.old.layer.crop.height }
        ensures passed { IsTrue result → self.new ≡ record self.old { read = row + 1 } }
        ensures kept { result ≡ false → self.new ≡ self.old }
    {
        if !is_bare(&self.layer) {
            return false;
        }
        if !self.image.has_planes() {
            return false;
        }
        if !self.image.pass_again(row, self.inks.colour) {
            return false;
        }
        true
    }

    // Reads up to row `row` of the image and expands it to paint, unless that row was read last.
    #[tactic(auto, using(crate::proofs::Layers::row_most))]
    fn read_behind(&mut self, row: u32, room: &mut ReadRoom)
        requires before { self.old.read ≤ row + 1 }
        requires crop { self.old.layer.crop.y ≤ row }
        requires within { row < self.old.layer.crop.y + self.old.layer.crop.height }
        ensures { self.new ≡ record self.old { read = row + 1 } }
    {
        if self.image.read() == row + 1 {
            return;
        }
        let crop = self.layer.crop;
        let scale = self.layer.scale;
        read_row(
            &self.layer.art,
            self.inks,
            &mut self.image,
            row,
            crop,
            scale,
            &mut room.image,
            &mut self.paint,
        );
        reach_mask(&mut self.mask, row, crop, &mut room.mask);
        admit_row(
            &self.layer,
            &self.image,
            &self.mask,
            &room.image,
            &room.mask,
            &mut self.marks,
            &mut self.admitted,
        );
    }

    /// Returns whether row `y` of the page shows the same of the layer as the row above it.
    pub(crate) fn repeats(&self, y: u32) -> bool
        requires { 0 < y }
        ensures { result ≡ shows_alike self.now.width self.now.layer y }
    {
        match (self.shows(y - 1), self.shows(y)) {
            (true, true) => self.row_at(y - 1) == self.row_at(y),
            (false, false) => true,
            _ => false,
        }
    }

    /// Restarts before the first row.
    pub(crate) fn restart(&mut self)
        ensures { self.new ≡ record self.old { read = 0 } }
    {
        self.image.restart(self.layer.art.rows());
        restart_mask(&mut self.mask, &self.layer.mask);
    }
}

// Reads row `y` of the image and expands it to paint. Of linework the crop's columns are in the buffer
// afterwards.
fn read_row(
    art: &Art<'_>,
    inks: PageInks,
    image: &mut RowReader<'_>,
    y: u32,
    crop: Crop,
    scale: u32,
    room: &mut [u8],
    paint: &mut InkRow,
)
    requires image { IsOf art.now image.old }
    requires before { image.old.next ≤ y }
    requires small { y < 65535 }
    requires row { y < image.old.shape.length }
    requires columns { crop.x + crop.width ≤ image.old.shape.width }
    requires long { row_length image.old.shape ≤ length room.old }
    requires scale { (1 ≤ scale) × (scale ≤ 64) }
    requires wide { HasWidth paint.old (length paint.old.cyan) }
    requires narrow { length paint.old.cyan ≤ 65535 }
    requires within { (n : ℕ) → scale * n < length paint.old.cyan → n < crop.width }
    requires fixed { paint.old ≡ with_fixed art.now (length paint.old.cyan) paint.old }
    ensures image { image.new ≡ record image.old { next = y + 1 } }
    ensures part { bare_art art.now ≡ false → Holds image.new crop room.new }
    ensures wide { HasWidth paint.new (length paint.old.cyan) }
    ensures fixed { paint.new ≡ with_fixed art.now (length paint.old.cyan) paint.new }
    ensures paint { IsPaint (painted_inks inks) art.now crop.x scale (image.new.next - 1)
        (length paint.old.cyan) paint.new }
{
    if let Art::Contone(_) = art
        && scale == 1
        && image.has_planes()
    {
        paint.read_planes(inks, image, y, crop.x);
        return;
    }
    image.reach(y, crop, room);
    paint_row(art, inks, image, room, crop, scale, paint);
}

// Expands the row that was read last to paint, for each column of the page. The inks that are the same in
// every row are in place already.
fn paint_row(
    art: &Art<'_>,
    inks: PageInks,
    image: &RowReader<'_>,
    image_room: &[u8],
    crop: Crop,
    scale: u32,
    paint: &mut InkRow,
)
    requires image { IsOf art.now image.now }
    requires part { Holds image.now crop image_room.now }
    requires scale { (1 ≤ scale) × (scale ≤ 64) }
    requires wide { HasWidth paint.old (length paint.old.cyan) }
    requires small { length paint.old.cyan ≤ 65535 }
    requires within { (n : ℕ) → scale * n < length paint.old.cyan → n < crop.width }
    requires fixed { paint.old ≡ with_fixed art.now (length paint.old.cyan) paint.old }
    ensures wide { HasWidth paint.new (length paint.old.cyan) }
    ensures fixed { paint.new ≡ with_fixed art.now (length paint.old.cyan) paint.new }
    ensures paint { IsPaint (painted_inks inks) art.now crop.x scale (image.now.next - 1)
        (length paint.old.cyan) paint.new }
{
    if let Art::Contone(contone) = art {
        // Called for its clause: four samples a pixel.
        let _shape = contone.shape();
        paint.set_samples(inks, image.part(crop, image_room), scale as usize);
    }
}

// Paints a row of the image over the page's row. Inks that are the same in every row are not read from the
// paint.
fn lay_paint(
    art: &Art<'_>,
    inks: PageInks,
    painting: Painting,
    from: usize,
    paint: &InkRow,
    admitted: &[u8],
    into: &mut InkRow,
)
    requires paint { HasWidth paint.now (length admitted.now) }
    requires fixed { paint.now ≡ with_fixed art.now (length admitted.now) paint.now }
    requires wide { HasWidth into.old (length into.old.cyan) }
    requires room { from + length admitted.now ≤ length into.old.cyan }
    ensures { LaysRow inks painting from paint.now admitted.now into.old into.new }
{
    match art {
        Art::Contone(_) => into.lay_samples(inks, painting, from, paint, admitted),
        Art::Line(_, values) => into.lay_inks(inks, painting, from, values, admitted),
    }
}

// Returns how a layer is painted.
fn painting_of(layer: &Layer<'_>) -> Painting
    ensures { result ≡ painting_of layer.now }
{
    if layer.overprint {
        Painting::Overprint
    } else if is_bare(layer) {
        Painting::Whole
    } else {
        Painting::Knockout
    }
}

// Returns the inks that a layer paints in every row, where they are always the same.
fn fixed_inks(art: &Art<'_>) -> [u8; 5]
    ensures { result ≡ fixed_of art.now }
{
    match art {
        Art::Contone(_) => [0; 5],
        Art::Line(_, inks) => *inks,
    }
}

// Returns how many columns of the page a layer covers.
fn span_of(layer: &Layer<'_>, width: u32) -> usize
    requires layer { IsLayer layer.now }
    requires width { (shape_of layer.now.art).width ≤ 65535 }
    ensures { result ≡ span_of width layer.now }
{
    let covered = layer.crop.width * layer.scale;
    covered.min(width.saturating_sub(layer.x)) as usize
}

// Returns how many columns of the image show on `span` columns of the page.
fn columns_of(layer: &Layer<'_>, span: usize) -> usize
    requires layer { IsLayer layer.now }
    requires span { span ≤ layer.now.crop.width * layer.now.scale }
    ensures enough { span ≤ result * layer.now.scale }
    ensures within { result ≤ layer.now.crop.width }
{
    span.div_ceil(layer.scale as usize)
}
