// Error diffusion of one page, eight rows at a time.
ghost use Rattle.std.specs.Prelude.{◌≡◌, ℕ, ◌+◌, ◌-◌, ◌*◌, ◌<◌, ◌≤◌, IfOk, [], ◌++◌, length};
ghost use Rattle.pr_base.specs.Bits.{SetsBits};
ghost use Rattle.scr_diffuse.specs.Block.{row_in, rows_in};
ghost use Rattle.scr_diffuse.specs.Diffusion.{diffused_bit};

use crate::block::{LAG, LAST_LAG, diffuse_block};
use crate::dots::set_dots;
use crate::history::{History, Rows};
use crate::row::clear;
use pr_base::NoMemory;
use std::alloc::Global;
use std::marker::Model;

/// Diffuses one page, eight rows a step. It keeps the errors of the last row taken and the pixels of the last
/// eight rows. Contracts see the front of the page: its width in pixels, and the rows of values taken since
/// the start or `restart`.
#[derive(Drop)]
pub struct BlockDiffuser {
    /// The error of pixel x of the row above is at x + 22; the places around the errors hold 0.
    errors: Vec<i16>,
    /// Bit k of byte x + 3k: whether pixel x of row k prints.
    dots: Vec<u8>,
    /// Scratch space for the values of the rows of a step, interleaved.
    columns: Vec<u8>,
    rows: History,
}

impl Model for BlockDiffuser {
    ghost use Rattle.std.specs.Prelude.{◌-◌, length};
    ghost use Rattle.scr_diffuse.specs.Block.{HoldsBlock};
    ghost use Rattle.scr_diffuse.specs.Diffuser.{PageFront, joined};

    ghost Value = { PageFront };

    ghost view = { λ d. record { width = length d.dots.items - 21; rows = joined d.rows.steps } };

    ghost invariant = { λ d.
        HoldsBlock (joined d.rows.steps) d.errors.items d.dots.items d.columns.items };
}

impl BlockDiffuser {
    /// Makes a diffuser before row 0 of a page of `width` pixels a row.
    pub fn new(alloc: Global, width: u32) -> Result<BlockDiffuser, NoMemory>
        ensures { IfOk result (λ diffuser. diffuser ≡ record { width = width; rows = [] }) }
    {
        let len = width as usize + LAST_LAG;
        Ok(BlockDiffuser {
            errors: vec![in alloc; 0; len + LAST_LAG + 2]?,
            dots: vec![in alloc; 0; len]?,
            columns: vec![in alloc; 0; 8 * len]?,
            rows: History::new(),
        })
    }

    /// Restarts before row 0, of the same page or of another one of this width.
    #[tactic(auto, using(crate::proofs::BlockLemmas::block_restarted))]
    pub fn restart(&mut self)
        ensures { self.new ≡ record self.old { rows = [] } }
    {
        clear(&mut self.errors[..]);
        self.rows = History::new();
    }

    /// Diffuses the next eight rows, each of one value a pixel, from 0, no ink, to 255. Rows past the last
    /// one of a page may hold anything.
    pub fn advance(&mut self, values: &[&[u8]; 8])
        requires width { (k : ℕ) → k < 8 → length (row_in values.now k) ≡ self.old.width }
        ensures { self.new ≡ record self.old { rows = self.old.rows ++ rows_in values.now } }
    {
        diffuse_block(
            values,
            &mut self.errors[..],
            &mut self.dots[..],
            &mut self.columns[..],
        );
        self.rows = self.rows.then(&Rows { values });
    }

    /// Writes the pixels of one of the last eight rows: sets pixel `from + x` of `bits` where the diffusion
    /// prints value `x` of that row, and clears it elsewhere.
    pub fn draw(&self, row: usize, bits: &mut [u8], from: u32)
        requires row { row < 8 }
        requires taken { 8 ≤ length self.now.rows }
        requires room { from + self.now.width ≤ 8 * length bits.old }
        ensures { SetsBits (λ x. diffused_bit self.now.rows x (length self.now.rows - 8 + row))
            from self.now.width bits.old bits.new }
    {
        let first = LAG * row;
        let width = self.dots.len() - LAST_LAG;
        set_dots(&self.dots[first..first + width], row, bits, from);
    }
}
