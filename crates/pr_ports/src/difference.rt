// Where two files first differ. Nothing here allocates memory.
ghost use Rattle.std.specs.Prelude.{◌≡◌, ◌<◌, ◌≢◌, ◌≤◌, IfSome, length, slice_index};
ghost use Rattle.pr_ports.specs.Difference.{IsAlikeTo, difference_of};

/// The number of bytes compared at a time.
const PIECE: usize = 4_096;

/// Returns the first offset at which one file has a byte that differs from the other's, or that the other
/// lacks; `None` exactly if the files are equal.
pub fn first_difference(a: &[u8], b: &[u8]) -> Option<u64>
    ensures first { result ≡ difference_of a.now b.now }
    ensures within { IfSome result (λ at. at ≤ length a.now) }
{
    let at = equal_bytes(a, b, equal_pieces(a, b));
    if at == a.len() && at == b.len() {
        None
    } else {
        Some(at as u64)
    }
}

/// The length in bytes of the common prefix, in whole pieces.
fn equal_pieces(a: &[u8], b: &[u8]) -> usize
    ensures { IsAlikeTo a.now b.now result }
{
    let both = a.len().min(b.len());
    let mut at = 0;
    while both - at >= PIECE && a[at..at + PIECE] == b[at..at + PIECE] {
        at += PIECE;
    }
    at
}

/// The length in bytes of the common prefix, of which `known` bytes are known to be equal.
fn equal_bytes(a: &[u8], b: &[u8], known: usize) -> usize
    requires { IsAlikeTo a.now b.now known }
    ensures alike { IsAlikeTo a.now b.now result }
    ensures ends { result < length a.now → result < length b.now →
        slice_index a.now result ≢ slice_index b.now result }
{
    let both = a.len().min(b.len());
    let mut at = known;
    while at < both && a[at] == b[at] {
        at += 1;
    }
    at
}
