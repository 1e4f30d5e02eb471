// Zeroed buffers.
ghost use Rattle.std.specs.Prelude.{◌≡◌, IfOk, replicate};

use pr_base::NoMemory;
use std::alloc::Global;

/// Allocates `len` zero bytes.
pub(crate) fn room(alloc: Global, len: usize) -> Result<Vec<u8>, NoMemory>
    ensures { IfOk result (λ bytes. bytes.items ≡ replicate len 0) }
{
    Ok(vec![in alloc; 0; len]?)
}
