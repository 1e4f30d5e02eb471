// The ink key of a column, and the columns of a key.
ghost use Rattle.std.specs.Prelude.{◌≡◌, ◌<◌, ◌≤◌, ◌↔◌};
ghost use Rattle.ink_keys.specs.Keys.{KeyHasColumns, first_column, key_of as key_at};

/// Returns the key of column `x` of a row of `width` pixels: `floor(x * keys / width)`.
pub fn key_of(width: u32, keys: u32, x: u32) -> u32
    requires width { width ≤ 65535 }
    requires least { 1 ≤ keys }
    requires most { keys ≤ 64 }
    requires column { x < width }
    ensures key { result ≡ key_at width keys x }
    ensures within { result < keys }
{
    x * keys / width
}

/// Returns the first column of key `k`: `k * width / keys` rounded up. For `k = keys`, that is the width.
#[tactic(auto, unfolding(crate::specs::Keys::first_column))]
pub(crate) fn first_of(width: u32, keys: u32, k: u32) -> u32
    requires width { width ≤ 65535 }
    requires least { 1 ≤ keys }
    requires most { keys ≤ 64 }
    requires key { k ≤ keys }
    ensures { result ≡ first_column width keys k }
{
    (k * width).div_ceil(keys)
}

/// The law of columns: the columns of key `k` are those from its first one to before the first one of the
/// next key.
pub fn columns_law(width: u32, keys: u32, k: u32, x: u32)
    requires width { width ≤ 65535 }
    requires least { 1 ≤ keys }
    requires most { keys ≤ 64 }
    requires column { x < width }
    ensures { KeyHasColumns width keys k x }
{}
