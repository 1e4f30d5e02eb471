// Byte buffers that are allocated once and reused.
ghost use Rattle.std.specs.Prelude.{◌≡◌, ◌≤◌, IfOk, replicate};
ghost use Rattle.std.specs.Vec.{vec_capacity};

use pr_base::NoMemory;
use std::alloc::Global;
use std::marker::Model;

/// The longest side of an image and of a page, in pixels.
const WIDEST: usize = 65_535;

/// The longest row of an image in bytes: four bytes a pixel.
const LONGEST: usize = 4 * WIDEST;

/// Allocates `len` bytes of value `byte`, with capacity for a row of any page.
pub(crate) fn room(alloc: Global, len: usize, byte: u8) -> Result<Vec<u8>, NoMemory>
    ensures items { IfOk result (λ bytes. bytes.items ≡ replicate len byte) }
    ensures widest { IfOk result (λ bytes. 65535 ≤ vec_capacity bytes) }
{
    let mut bytes = Vec::with_capacity(alloc, len.max(WIDEST))?;
    refill(&mut bytes, len, byte);
    Ok(bytes)
}

/// Makes the buffer `len` bytes of value `byte`, within its capacity.
pub(crate) fn refill(bytes: &mut Vec<u8>, len: usize, byte: u8)
    requires { len ≤ vec_capacity bytes.old }
    ensures items { bytes.new.items ≡ replicate len byte }
    ensures capacity { vec_capacity bytes.old ≤ vec_capacity bytes.new }
{
    bytes.clear();
    match bytes.resize(len, byte) {
        Ok(()) => (),
        Err(_) => unreachable!(),
    }
}

/// The buffers that rows of images and masks are read into. All layers of a page share them, one after the
/// other.
#[derive(Drop)]
pub(crate) struct ReadRoom {
    pub(crate) image: Vec<u8>,
    pub(crate) mask: Vec<u8>,
}

impl Model for ReadRoom {
    ghost use Rattle.std.specs.Prelude.{◌≡◌, length};
    ghost use Rattle.std.specs.Bool.{⊤};

    ghost Value = { ⊤ };

    ghost view = { λ r. record {} };

    ghost invariant = { λ r. (length r.image.items ≡ 262140) × (length r.mask.items ≡ 262140) };
}

impl ReadRoom {
    /// Allocates buffers for the longest rows.
    pub(crate) fn new(alloc: Global) -> Result<ReadRoom, NoMemory> {
        Ok(ReadRoom {
            image: vec![in alloc; 0; LONGEST]?,
            mask: vec![in alloc; 0; LONGEST]?,
        })
    }
}
