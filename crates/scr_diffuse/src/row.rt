// One row: from the errors of the row above to its pixels and its own errors.
ghost use Rattle.std.specs.Prelude.{◌≡◌, ℕ, ◌+◌, ◌*◌, ◌≤◌, length, pos};
ghost use Rattle.pr_base.specs.Bits.{SetsBits};
ghost use Rattle.scr_diffuse.specs.Diffusion.{IsError, error_left, prints, v_below};
ghost use Rattle.scr_diffuse.specs.Passes.{errors_in, number_at};

use crate::bits::set_row;
use crate::passes::{add_above, add_left, keep_errors};

/// Diffuses a row of values into the pixels from `from` on. `errors` holds the errors of the row above, with
/// a margin of one place on both sides, and afterwards those of this row.
pub(crate) fn diffuse_row(values: &[u8], errors: &mut [i16], bits: &mut [u8], from: u32)
    requires room { length errors.old ≡ length values.now + 2 }
    requires errors { (k : ℕ) → IsError (number_at errors.old k) }
    requires left { number_at errors.old 0 ≡ pos 0 }
    requires right { number_at errors.old (length values.now + 1) ≡ pos 0 }
    requires bits { from + length values.now ≤ 8 * length bits.old }
    ensures bits { SetsBits (λ x. prints (v_below (errors_in errors.old) values.now x))
        from (length values.now) bits.old bits.new }
    ensures errors { (k : ℕ) → number_at errors.new k ≡ error_left (errors_in errors.old) values.now k }
{
    let width = values.len();
    add_above(values, errors);
    add_left(&mut errors[..width]);
    set_row(&errors[..width], bits, from);
    keep_errors(errors);
}

/// Sets all errors to 0, as above the first row.
pub(crate) fn clear(errors: &mut [i16])
    ensures { (k : ℕ) → number_at errors.new k ≡ pos 0 }
{
    for error in errors.iter_mut() {
        *error = 0;
    }
}
