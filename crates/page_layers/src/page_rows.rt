// The rows of a page: its layers, painted in order.
ghost use Rattle.std.specs.Prelude.{◌≡◌, ℕ, ◌<◌, ◌≤◌, All, IfOk, length};
ghost use Rattle.std.specs.List.{fold, list_all};
ghost use Rattle.std.specs.Vec.{vec_capacity};
ghost use Rattle.page_layers.specs.Inks.{HasWidth, inks_at, only, painted_inks};
ghost use Rattle.page_layers.specs.Layer.{ink_at, painted};
ghost use Rattle.page_layers.specs.Page.{shows_alike};
ghost use Rattle.page_layers.specs.Rows.{IsReady, layers_of};

use crate::layer::Layer;
use crate::layer_room::LayerRoom;
use crate::layer_rows::LayerRows;
use crate::room::ReadRoom;
use crate::{InkRow, PageInks};
use pr_base::NoMemory;
use std::alloc::Global;
use std::marker::Model;

/// A page that returns its rows from the top, with buffers for a fixed number of layers. `clear` makes it
/// ready for another page. Contracts see its layers, its sides in pixels, the number of the next row, and the
/// number of layers that it has buffers for.
#[derive(Drop)]
pub struct PageRows<'a> {
    layers: Vec<LayerRows<'a>>,
    /// The buffers that no layer of the page uses.
    rooms: Vec<LayerRoom>,
    read: ReadRoom,
    width: u32,
    height: u32,
    next: u32,
}

impl<'a> Model for PageRows<'a> {
    ghost use Rattle.std.specs.Prelude.{◌+◌, length};
    ghost use Rattle.std.specs.Vec.{vec_capacity};
    ghost use Rattle.page_layers.specs.Page.{Page};

    ghost Value = { Page };

    ghost use Rattle.page_layers.specs.Rows.{IsPage, layers_of};

    ghost view = { λ p. record {
      layers = layers_of p.layers.items;
      width = p.width;
      height = p.height;
      next = p.next;
      room = length p.layers.items + length p.rooms.items;
    } };

    ghost invariant = { λ p. IsPage p.layers.items p.width p.height p.next
        (length p.rooms.items) (vec_capacity p.layers) (vec_capacity p.rooms) };
}

impl<'a> PageRows<'a> {
    ghost use Rattle.std.specs.Prelude.{◌≡◌, ℕ, ◌+◌, ◌-◌, ◌<◌, ◌≤◌, ◌∷◌, ◌++◌, [], All, IfOk, IsTrue, length};
    ghost use Rattle.page_layers.specs.Inks.{HasWidth, inks_at, only, painted_inks};
    ghost use Rattle.page_layers.specs.Layer.{IsLayer, ink_at};
    ghost use Rattle.page_layers.specs.Page.{shows_alike};

    /// Opens a page without layers, and allocates buffers for `room` layers.
    pub fn open(
        alloc: Global,
        room: usize,
        width: u32,
        height: u32,
    ) -> Result<PageRows<'a>, NoMemory>
        requires width { (1 ≤ width) × (width ≤ 65535) }
        requires height { (1 ≤ height) × (height ≤ 65535) }
        ensures { IfOk result (λ page. page ≡
            record { layers = []; width = width; height = height; next = 0; room = room }) }
    {
        let layers = Vec::with_capacity(alloc, room)?;
        let rooms = layer_rooms(alloc, room)?;
        let read = ReadRoom::new(alloc)?;
        Ok(PageRows {
            layers,
            rooms,
            read,
            width,
            height,
            next: 0,
        })
    }

    /// Removes all layers, and goes back to row 0.
    pub fn clear(&mut self)
        ensures { self.new ≡ record self.old { layers = []; next = 0 } }
    {
        while !self.layers.is_empty() {
            let layer = self.layers.take_last();
            self.rooms.push_reserved(layer.into_room());
        }
        self.next = 0;
    }

    /// Adds a layer on top of the others.
    pub fn put(&mut self, layer: Layer<'a>)
        requires layer { IsLayer layer }
        requires room { length self.old.layers < self.old.room }
        requires top { self.old.next ≡ 0 }
        ensures { self.new ≡ record self.old { layers = self.old.layers ++ layer.entry ∷ [] } }
    {
        let room = self.rooms.take_last();
        self.layers
            .push_reserved(LayerRows::open(room, layer, self.width));
    }

    /// Returns the number of rows that are left.
    pub fn left(&self) -> u32
        ensures { result ≡ self.now.height - self.now.next }
    {
        self.height - self.next
    }

    /// Writes the next row in all five inks.
    pub fn next(&mut self, into: &mut InkRow)
        requires left { self.old.next < self.old.height }
        requires width { HasWidth into.old self.old.width }
        ensures inks { (x : ℕ) → x < self.old.width
            → inks_at into.new x ≡ ink_at self.old.layers x self.old.next }
        ensures width { HasWidth into.new self.old.width }
        ensures page { self.new ≡ record self.old { next = self.old.next + 1 } }
    {
        self.next_in(PageInks::ALL, into);
    }

    /// Writes the next row in some inks. Of the others only the width is known afterwards. Where a page is
    /// asked for other inks than in its last row, its images are read again from the top.
    pub fn next_in(&mut self, inks: PageInks, into: &mut InkRow)
        requires left { self.old.next < self.old.height }
        requires width { HasWidth into.old self.old.width }
        ensures inks { (x : ℕ) → x < self.old.width
            → only (painted_inks inks) (inks_at into.new x)
            ≡ only (painted_inks inks) (ink_at self.old.layers x self.old.next) }
        ensures width { HasWidth into.new self.old.width }
        ensures page { self.new ≡ record self.old { next = self.old.next + 1 } }
    {
        let y = self.next;
        clear_under(&self.layers, y, inks, into);
        paint_layers(&mut self.layers, y, inks, &mut self.read, into);
        self.next = y + 1;
    }

    /// Skips the next row: advances as `next` does, without painting.
    pub fn pass(&mut self)
        requires { self.old.next < self.old.height }
        ensures { self.new ≡ record self.old { next = self.old.next + 1 } }
    {
        self.next += 1;
    }

    /// Returns true only if a row has been written or skipped since the start and the next row equals it.
    /// Equality is detected where every layer shows the same row of its image on both rows, or nothing on
    /// both.
    pub fn repeats(&self) -> bool
        ensures given { IsTrue result → 0 < self.now.next }
        ensures equal { IsTrue result
            → (x : ℕ) → x < self.now.width
            → ink_at self.now.layers x self.now.next ≡ ink_at self.now.layers x (self.now.next - 1) }
        ensures told { 0 < self.now.next
            → All (λ layer. IsTrue (shows_alike self.now.width layer self.now.next)) self.now.layers
            → IsTrue result }
    {
        self.next > 0 && all_repeat(&self.layers, self.next)
    }

    /// Goes back to row 0.
    pub fn restart(&mut self)
        ensures { self.new ≡ record self.old { next = 0 } }
    {
        restart_layers(&mut self.layers);
        self.next = 0;
    }
}

// Allocates the buffers of `count` layers.
fn layer_rooms(alloc: Global, count: usize) -> Result<Vec<LayerRoom>, NoMemory>
    ensures count { IfOk result (λ rooms. length rooms.items ≡ count) }
    ensures capacity { IfOk result (λ rooms. count ≤ vec_capacity rooms) }
{
    let mut rooms = Vec::with_capacity(alloc, count)?;
    for _room in 0..count {
        rooms.push_reserved(LayerRoom::new(alloc)?);
    }
    Ok(rooms)
}

// Sets the painted inks to 0 before row `y` is painted, except where the bottom layer replaces them.
fn clear_under(layers: &[LayerRows<'_>], y: u32, inks: PageInks, into: &mut InkRow)
    requires width { HasWidth into.old (length into.old.cyan) }
    requires ready { All (IsReady (length into.old.cyan) y) layers.now }
    ensures width { HasWidth into.new (length into.old.cyan) }
    ensures under { (x : ℕ) → x < length into.old.cyan
        → only (painted_inks inks)
        (fold (λ under layer. painted layer x y under) (inks_at into.new x) (layers_of layers.now))
        ≡ only (painted_inks inks) (ink_at (layers_of layers.now) x y) }
{
    if layers.is_empty() {
        into.clear_beside(inks, 0, 0);
        return;
    }
    let (from, to) = layers[0].covered(y);
    into.clear_beside(inks, from, to);
}

// Paints the layers in order over row `y`, in these inks.
fn paint_layers(
    layers: &mut [LayerRows<'_>],
    y: u32,
    inks: PageInks,
    read: &mut ReadRoom,
    into: &mut InkRow,
)
    requires width { HasWidth into.old (length into.old.cyan) }
    requires ready { All (IsReady (length into.old.cyan) y) layers.old }
    ensures inks { (x : ℕ) → x < length into.old.cyan
        → only (painted_inks inks) (inks_at into.new x)
        ≡ only (painted_inks inks)
        (fold (λ under layer. painted layer x y under) (inks_at into.old x) (layers_of layers.old)) }
    ensures width { HasWidth into.new (length into.old.cyan) }
    ensures layers { layers_of layers.new ≡ layers_of layers.old }
    ensures ready { All (IsReady (length into.old.cyan) y) layers.new }
{
    for layer in layers.iter_mut() {
        layer.paint(y, inks, read, into);
    }
}

// Returns whether row `y` of each layer shows the same as the row above it.
fn all_repeat(layers: &[LayerRows<'_>], y: u32) -> bool
    requires { 0 < y }
    ensures { result ≡ list_all (λ state. shows_alike state.width state.layer y) layers.now }
{
    layers.iter().all(|layer| layer.repeats(y))
}

// Restarts each layer before its first row.
fn restart_layers(layers: &mut [LayerRows<'_>])
    ensures layers { layers_of layers.new ≡ layers_of layers.old }
    ensures ready { (width y : ℕ) → All (IsReady width y) layers.old → All (IsReady width 0) layers.new }
{
    for layer in layers.iter_mut() {
        layer.restart();
    }
}
