// A count that saturates at its maximum.
ghost use Rattle.std.specs.Prelude.{◌≡◌};
ghost use Rattle.pr_base.specs.Count.{count_after};

/// Returns the count after one more event; 2^64 - 1 stays unchanged.
pub fn raised(count: u64) -> u64
    ensures { result ≡ count_after count }
{
    count.saturating_add(1)
}
