// Error diffusion of one page, row by row.
ghost use Rattle.std.specs.Prelude.{◌≡◌, ℕ, ◌+◌, ◌*◌, ◌<◌, ◌≤◌, IfOk, [], ◌∷◌, ◌++◌, length};
ghost use Rattle.pr_base.specs.Bits.{bit_at};
ghost use Rattle.scr_diffuse.specs.Diffusion.{diffused_bit};

use crate::history::{History, Rows};
use crate::row::{clear, diffuse_row};
use pr_base::NoMemory;
use std::alloc::Global;
use std::marker::Model;

/// Diffuses one page, and keeps the errors of the row above. Contracts see the front of the page: its width
/// in pixels, and the rows of values diffused since the start or `restart`.
#[derive(Drop)]
pub struct Diffuser {
    /// The error of pixel x of the row above is at x + 1, between two places that hold 0.
    errors: Vec<i16>,
    rows: History,
}

impl Model for Diffuser {
    ghost use Rattle.std.specs.Prelude.{◌-◌, length};
    ghost use Rattle.scr_diffuse.specs.Diffuser.{PageFront, StandBelow, joined};

    ghost Value = { PageFront };

    ghost view = { λ d. record { width = length d.errors.items - 2; rows = joined d.rows.steps } };

    ghost invariant = { λ d. StandBelow (joined d.rows.steps) d.errors.items };
}

impl Diffuser {
    /// Makes a diffuser before row 0 of a page of `width` pixels a row.
    pub fn new(alloc: Global, width: u32) -> Result<Diffuser, NoMemory>
        ensures { IfOk result (λ diffuser. diffuser ≡ record { width = width; rows = [] }) }
    {
        Ok(Diffuser {
            errors: vec![in alloc; 0; width as usize + 2]?,
            rows: History::new(),
        })
    }

    /// Restarts before row 0, of the same page or of another one of this width.
    pub fn restart(&mut self)
        ensures { self.new ≡ record self.old { rows = [] } }
    {
        clear(&mut self.errors[..]);
        self.rows = History::new();
    }

    /// Diffuses the next row: sets pixel `from + x` of `bits` where the diffusion prints value `x`, and
    /// clears it elsewhere.
    pub fn row(&mut self, values: &[u8], bits: &mut [u8], from: u32)
        requires width { length values.now ≡ self.old.width }
        requires room { from + self.old.width ≤ 8 * length bits.old }
        ensures drawn { (x : ℕ) → x < self.old.width →
            bit_at bits.new (from + x)
            ≡ diffused_bit (self.old.rows ++ values.now ∷ []) x (length self.old.rows) }
        ensures before { (k : ℕ) → k < from → bit_at bits.new k ≡ bit_at bits.old k }
        ensures behind { (k : ℕ) → from + self.old.width ≤ k → bit_at bits.new k ≡ bit_at bits.old k }
        ensures page { self.new ≡ record self.old { rows = self.old.rows ++ values.now ∷ [] } }
    {
        diffuse_row(values, &mut self.errors[..], bits, from);
        self.rows = self.rows.then(&Rows { values: &[values] });
    }
}
