// Laws of error diffusion, proved from its definition.
ghost use Rattle.std.specs.Prelude.{◌≡◌, ℕ, ◌+◌, ◌<◌, ◌≤◌, List, [], length, pos, take};
ghost use Rattle.std.specs.Prelude.{slice_index_or};
ghost use Rattle.scr_diffuse.specs.Diffusion.{ArePixels, IsError, diffused_bit, error_at, error_of, v_at};

/// The errors of a page: inside the page each is the error of its number v, outside it is 0, and for values
/// up to 255 each is from -127 to 127.
pub fn error_law()
    ensures inside { (rows : List (List ℕ)) (x y : ℕ) → x < length (slice_index_or rows y []) →
        error_at rows x y ≡ error_of (v_at rows x y) }
    ensures outside { (rows : List (List ℕ)) (x y : ℕ) → length (slice_index_or rows y []) ≤ x →
        error_at rows x y ≡ pos 0 }
    ensures range { (rows : List (List ℕ)) (x y : ℕ) → ArePixels rows → IsError (error_at rows x y) }
{}

/// The pixels of row `y` depend on the first `y + 1` rows alone.
pub fn row_law()
    ensures { (rows other : List (List ℕ)) (x y : ℕ) → take (y + 1) rows ≡ take (y + 1) other →
        diffused_bit rows x y ≡ diffused_bit other x y }
{}
