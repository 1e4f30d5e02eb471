// Buffers for painting any one layer.
use crate::InkRow;
use crate::room::room;
use pr_base::NoMemory;
use std::alloc::Global;
use std::marker::Model;

/// Buffers for the rows of one layer: its paint, and where it is admitted. They are reused, so a layer writes
/// them before it reads them.
#[derive(Drop)]
pub(crate) struct LayerRoom {
    pub(crate) paint: InkRow,
    pub(crate) marks: Vec<u8>,
    pub(crate) admitted: Vec<u8>,
}

impl Model for LayerRoom {
    ghost use Rattle.std.specs.Prelude.{◌≤◌};
    ghost use Rattle.std.specs.Bool.{⊤};
    ghost use Rattle.std.specs.Vec.{vec_capacity};

    ghost Value = { ⊤ };

    ghost view = { λ r. record {} };

    ghost invariant = { λ r. (65535 ≤ vec_capacity r.marks) × (65535 ≤ vec_capacity r.admitted) };
}

impl LayerRoom {
    /// Allocates buffers that suffice for any layer of any page.
    pub(crate) fn new(alloc: Global) -> Result<LayerRoom, NoMemory> {
        Ok(LayerRoom {
            paint: InkRow::of(alloc, 0, [0; 5])?,
            marks: room(alloc, 0, 0)?,
            admitted: room(alloc, 0, 0)?,
        })
    }
}
