// A row of a page in five inks.
ghost use Rattle.std.specs.Prelude.{◌≡◌, ℕ, ◌+◌, ◌*◌, ◌<◌, ◌≤◌, length};
ghost use Rattle.page_layers.specs.Rows.{HasSamples, IsClearBeside};

use crate::PageInks;
use crate::room::{refill, room};
use crate::row_reader::RowReader;
use crate::stretch::stretch;
use page_paint::{Painting, lay_ink, lay_span};
use pr_base::{Ink, NoMemory};
use std::alloc::Global;
use std::marker::Model;

/// A row of each ink, a byte for each pixel: 0 is no ink and 255 is full ink. Contracts see the five rows.
#[derive(Drop)]
pub struct InkRow {
    cyan: Vec<u8>,
    magenta: Vec<u8>,
    yellow: Vec<u8>,
    black: Vec<u8>,
    spot: Vec<u8>,
}

impl Model for InkRow {
    ghost use Rattle.std.specs.Prelude.{◌≤◌};
    ghost use Rattle.std.specs.Vec.{vec_capacity};
    ghost use Rattle.page_layers.specs.Inks.{Planes};

    ghost Value = { Planes };

    ghost view = { λ r. record {
      cyan = r.cyan.items;
      magenta = r.magenta.items;
      yellow = r.yellow.items;
      black = r.black.items;
      spot = r.spot.items;
    } };

    // Each row has capacity for a row of any page.
    ghost invariant = { λ r. (65535 ≤ vec_capacity r.cyan) × (65535 ≤ vec_capacity r.magenta)
        × (65535 ≤ vec_capacity r.yellow) × (65535 ≤ vec_capacity r.black) × (65535 ≤ vec_capacity r.spot) };
}

impl InkRow {
    ghost use Rattle.std.specs.Prelude.{◌≡◌, ℕ, ◌+◌, ◌*◌, ◌/◌, ◌<◌, ◌≤◌, IfOk, length, replicate};
    ghost use Rattle.std.specs.Prelude.{slice_index, true};
    ghost use Rattle.page_layers.specs.Inks.{HasWidth, blank_planes, plane_of};
    ghost use Rattle.tif_strips.specs.Strips.{planes};
    ghost use Rattle.page_layers.specs.Rows.{HasSamples, IsClearBeside, IsInkOf};
    ghost use Rattle.page_paint.specs.Rows.{LaysSpan, painted_as};

    /// Allocates a row of `width` pixels without ink.
    pub fn new(alloc: Global, width: u32) -> Result<InkRow, NoMemory>
        ensures { IfOk result (λ row. row ≡ blank_planes width) }
    {
        InkRow::of(alloc, width as usize, [0; 5])
    }

    /// Allocates a row of `width` pixels of these ink values.
    pub(crate) fn of(alloc: Global, width: usize, inks: [u8; 5]) -> Result<InkRow, NoMemory>
        ensures cyan { IfOk result (λ row. row.cyan ≡ replicate width (slice_index inks 0)) }
        ensures magenta { IfOk result (λ row. row.magenta ≡ replicate width (slice_index inks 1)) }
        ensures yellow { IfOk result (λ row. row.yellow ≡ replicate width (slice_index inks 2)) }
        ensures black { IfOk result (λ row. row.black ≡ replicate width (slice_index inks 3)) }
        ensures spot { IfOk result (λ row. row.spot ≡ replicate width (slice_index inks 4)) }
    {
        let [cyan, magenta, yellow, black, spot] = inks;
        Ok(InkRow {
            cyan: room(alloc, width, cyan)?,
            magenta: room(alloc, width, magenta)?,
            yellow: room(alloc, width, yellow)?,
            black: room(alloc, width, black)?,
            spot: room(alloc, width, spot)?,
        })
    }

    /// Makes this a row of `width` pixels of these ink values, within the allocated capacity.
    pub(crate) fn refill(&mut self, width: usize, inks: [u8; 5])
        requires { width ≤ 65535 }
        ensures cyan { self.new.cyan ≡ replicate width (slice_index inks 0) }
        ensures magenta { self.new.magenta ≡ replicate width (slice_index inks 1) }
        ensures yellow { self.new.yellow ≡ replicate width (slice_index inks 2) }
        ensures black { self.new.black ≡ replicate width (slice_index inks 3) }
        ensures spot { self.new.spot ≡ replicate width (slice_index inks 4) }
    {
        let [cyan, magenta, yellow, black, spot] = inks;
        refill(&mut self.cyan, width, cyan);
        refill(&mut self.magenta, width, magenta);
        refill(&mut self.yellow, width, yellow);
        refill(&mut self.black, width, black);
        refill(&mut self.spot, width, spot);
    }

    /// Returns the row of an ink.
    pub fn plane(&self, ink: Ink) -> &[u8]
        ensures { result.now ≡ plane_of self.now ink }
    {
        match ink {
            Ink::C => self.cyan.as_slice(),
            Ink::M => self.magenta.as_slice(),
            Ink::Y => self.yellow.as_slice(),
            Ink::K => self.black.as_slice(),
            Ink::S => self.spot.as_slice(),
        }
    }

    /// Sets the painted inks to 0 before column `from`, and from column `to` on.
    pub(crate) fn clear_beside(&mut self, inks: PageInks, from: usize, to: usize)
        requires wide { HasWidth self.old (length self.old.cyan) }
        requires order { from ≤ to }
        requires within { to ≤ length self.old.cyan }
        ensures wide { HasWidth self.new (length self.old.cyan) }
        ensures cyan { IsClearBeside inks.colour from to self.new.cyan }
        ensures magenta { IsClearBeside inks.colour from to self.new.magenta }
        ensures yellow { IsClearBeside inks.colour from to self.new.yellow }
        ensures black { IsClearBeside true from to self.new.black }
        ensures spot { IsClearBeside inks.spot from to self.new.spot }
    {
        clear_beside(inks.colour, from, to, &mut self.cyan);
        clear_beside(inks.colour, from, to, &mut self.magenta);
        clear_beside(inks.colour, from, to, &mut self.yellow);
        clear_beside(true, from, to, &mut self.black);
        clear_beside(inks.spot, from, to, &mut self.spot);
    }

    /// Sets the painted ones of the process inks to the samples of a row of pixels, each pixel repeated
    /// `scale` times.
    pub(crate) fn set_samples(&mut self, inks: PageInks, pixels: &[u8], scale: usize)
        requires wide { HasWidth self.old (length self.old.cyan) }
        requires small { length self.old.cyan ≤ 65535 }
        requires scale { (1 ≤ scale) × (scale ≤ 64) }
        requires enough { (n : ℕ) → scale * n < length self.old.cyan → 4 * n + 3 < length pixels.now }
        ensures cyan { HasSamples inks.colour pixels.now 0 scale self.old.cyan self.new.cyan }
        ensures magenta { HasSamples inks.colour pixels.now 1 scale self.old.magenta self.new.magenta }
        ensures yellow { HasSamples inks.colour pixels.now 2 scale self.old.yellow self.new.yellow }
        ensures black { HasSamples true pixels.now 3 scale self.old.black self.new.black }
        ensures spot { self.new.spot ≡ self.old.spot }
    {
        set_sample(inks.colour, pixels, 0, scale, &mut self.cyan);
        set_sample(inks.colour, pixels, 1, scale, &mut self.magenta);
        set_sample(inks.colour, pixels, 2, scale, &mut self.yellow);
        set_sample(true, pixels, 3, scale, &mut self.black);
    }

    /// Sets the painted ones of the process inks to the samples of row `y`, from column `first` on, of an
    /// image whose inks have their own planes.
    pub(crate) fn read_planes(
        &mut self,
        inks: PageInks,
        image: &mut RowReader<'_>,
        y: u32,
        first: u32,
    )
        requires wide { HasWidth self.old (length self.old.cyan) }
        requires before { image.old.next ≤ y }
        requires small { y < 65535 }
        requires within { y < image.old.shape.length }
        requires planes { planes image.old.shape ≡ 4 }
        requires columns { first + length self.old.cyan ≤ image.old.shape.width }
        ensures image { image.new ≡ record image.old { next = y + 1 } }
        ensures cyan { IsInkOf inks.colour image.old y 0 first self.old.cyan self.new.cyan }
        ensures magenta { IsInkOf inks.colour image.old y 1 first self.old.magenta self.new.magenta }
        ensures yellow { IsInkOf inks.colour image.old y 2 first self.old.yellow self.new.yellow }
        ensures black { IsInkOf true image.old y 3 first self.old.black self.new.black }
        ensures spot { self.new.spot ≡ self.old.spot }
    {
        if !inks.colour {
            image.reach_planes(y, first, &mut [], &mut [], &mut [], &mut self.black);
            return;
        }
        image.reach_planes(
            y,
            first,
            &mut self.cyan,
            &mut self.magenta,
            &mut self.yellow,
            &mut self.black,
        );
    }

    /// Paints samples, and no spot ink, from column `from` on, where they are admitted: of the painted inks.
    pub(crate) fn lay_samples(
        &mut self,
        inks: PageInks,
        painting: Painting,
        from: usize,
        paint: &InkRow,
        admitted: &[u8],
    )
        requires paint { HasWidth paint.now (length admitted.now) }
        requires none { paint.now.spot ≡ replicate (length admitted.now) 0 }
        requires cyan { from + length admitted.now ≤ length self.old.cyan }
        requires magenta { from + length admitted.now ≤ length self.old.magenta }
        requires yellow { from + length admitted.now ≤ length self.old.yellow }
        requires black { from + length admitted.now ≤ length self.old.black }
        requires spot { from + length admitted.now ≤ length self.old.spot }
        ensures cyan { LaysSpan (painted_as inks.colour painting) from paint.now.cyan admitted.now
            self.old.cyan self.new.cyan }
        ensures magenta { LaysSpan (painted_as inks.colour painting) from paint.now.magenta admitted.now
            self.old.magenta self.new.magenta }
        ensures yellow { LaysSpan (painted_as inks.colour painting) from paint.now.yellow admitted.now
            self.old.yellow self.new.yellow }
        ensures black { LaysSpan painting from paint.now.black admitted.now self.old.black self.new.black }
        ensures spot { LaysSpan (painted_as inks.spot painting) from paint.now.spot admitted.now
            self.old.spot self.new.spot }
    {
        let colour = painting.of(inks.colour);
        lay_span(colour, from, &paint.cyan, admitted, &mut self.cyan);
        lay_span(colour, from, &paint.magenta, admitted, &mut self.magenta);
        lay_span(colour, from, &paint.yellow, admitted, &mut self.yellow);
        lay_span(painting, from, &paint.black, admitted, &mut self.black);
        lay_ink(painting.of(inks.spot), from, 0, admitted, &mut self.spot);
    }

    /// Paints these ink values from column `from` on, where they are admitted: of the painted inks.
    pub(crate) fn lay_inks(
        &mut self,
        inks: PageInks,
        painting: Painting,
        from: usize,
        values: &[u8; 5],
        admitted: &[u8],
    )
        requires cyan { from + length admitted.now ≤ length self.old.cyan }
        requires magenta { from + length admitted.now ≤ length self.old.magenta }
        requires yellow { from + length admitted.now ≤ length self.old.yellow }
        requires black { from + length admitted.now ≤ length self.old.black }
        requires spot { from + length admitted.now ≤ length self.old.spot }
        ensures cyan { LaysSpan (painted_as inks.colour painting) from
            (replicate (length admitted.now) (slice_index values.now 0))
            admitted.now self.old.cyan self.new.cyan }
        ensures magenta { LaysSpan (painted_as inks.colour painting) from
            (replicate (length admitted.now) (slice_index values.now 1))
            admitted.now self.old.magenta self.new.magenta }
        ensures yellow { LaysSpan (painted_as inks.colour painting) from
            (replicate (length admitted.now) (slice_index values.now 2))
            admitted.now self.old.yellow self.new.yellow }
        ensures black { LaysSpan painting from
            (replicate (length admitted.now) (slice_index values.now 3))
            admitted.now self.old.black self.new.black }
        ensures spot { LaysSpan (painted_as inks.spot painting) from
            (replicate (length admitted.now) (slice_index values.now 4))
            admitted.now self.old.spot self.new.spot }
    {
        let colour = painting.of(inks.colour);
        let [cyan, magenta, yellow, black, spot] = *values;
        lay_ink(colour, from, cyan, admitted, &mut self.cyan);
        lay_ink(colour, from, magenta, admitted, &mut self.magenta);
        lay_ink(colour, from, yellow, admitted, &mut self.yellow);
        lay_ink(painting, from, black, admitted, &mut self.black);
        lay_ink(painting.of(inks.spot), from, spot, admitted, &mut self.spot);
    }
}

// Sets a row to 0 before column `from`, and from column `to` on, if its ink is painted.
fn clear_beside(is_painted: bool, from: usize, to: usize, into: &mut [u8])
    requires order { from ≤ to }
    requires within { to ≤ length into.old }
    ensures long { length into.new ≡ length into.old }
    ensures clear { IsClearBeside is_painted from to into.new }
{
    if !is_painted {
        return;
    }
    into[..from].fill(0);
    into[to..].fill(0);
}

// Sets a row to the samples of one ink, the first of which is at `first`, if the ink is painted. `pixels` may
// be empty when no column shows.
fn set_sample(is_painted: bool, pixels: &[u8], first: usize, scale: usize, into: &mut [u8])
    requires small { length into.old ≤ 65535 }
    requires scale { (1 ≤ scale) × (scale ≤ 64) }
    requires enough { (n : ℕ) → scale * n < length into.old → first + 4 * n < length pixels.now }
    ensures { HasSamples is_painted pixels.now first scale into.old into.new }
{
    if !is_painted {
        return;
    }
    if !into.is_empty() {
        stretch(&pixels[first..], 4, scale, into);
    }
}
