// The marks around the pages of a plate.
ghost use Rattle.std.specs.Prelude.{◌≡◌, ℕ, ◌<◌, ◌≤◌, ◌+◌, ◌*◌, ◌^◌, ◌&&◌, ◌||◌, length};
ghost use Rattle.pr_base.specs.Bits.{bit_at};
ghost use Rattle.pr_base.specs.Row.{row_size};
ghost use Rattle.plan_json.specs.Data.{plate_width, plate_height};
ghost use Rattle.plan_pages.specs.Span.{AddsBits};
ghost use Rattle.plan_pages.specs.Plate.{covers, has_ink, is_marked_at};

use crate::span::set_span;
use plan_json::{Mark, Plan};
use pr_base::Ink;

/// Sets the pixels of row `y` of a plate that a mark of this ink covers, and leaves the others unchanged.
/// `bits` is a row of the plate, eight pixels per byte; its padding bits are unchanged.
pub fn mark_row(plan: &Plan, ink: Ink, y: u32, bits: &mut [u8])
    requires y { y < plate_height plan.now }
    requires row { length bits.old ≡ row_size (plate_width plan.now) }
    ensures marks { (x : ℕ) → bit_at bits.new x ≡ (bit_at bits.old x || is_marked_at plan.now ink x y) }
    ensures padding { (x : ℕ) → plate_width plan.now ≤ x → bit_at bits.new x ≡ bit_at bits.old x }
{
    for mark in &plan.marks {
        add_mark(mark, ink, y, bits);
    }
}

/// Sets the pixels of row `y` that this mark covers, if the mark is printed with this ink.
fn add_mark(mark: &Mark, ink: Ink, y: u32, bits: &mut [u8])
    requires some { 1 ≤ mark.now.w }
    requires right { mark.now.x + mark.now.w ≤ 8 * length bits.old }
    requires fits_x { mark.now.x + mark.now.w < 2 ^ 32 }
    requires fits_y { mark.now.y + mark.now.h < 2 ^ 32 }
    ensures { AddsBits (λ x. has_ink ink mark.now && covers x y mark.now) bits.old bits.new }
{
    if mark.inks[ink.slot()] && mark.y <= y && y < mark.y + mark.h {
        set_span(bits, mark.x, mark.x + mark.w);
    }
}
