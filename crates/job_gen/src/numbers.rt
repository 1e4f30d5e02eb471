// The sizes of a job, derived from its number.
ghost use Rattle.std.specs.Prelude.{◌≡◌, ◌≤◌};
ghost use Rattle.job_gen.specs.Numbers.{page_count as pages_of, site_count as sites_of, size_of};

/// The number of print sites of job `n`: 1 to 4.
pub(crate) fn site_count(n: u32) -> u32
    ensures count { result ≡ sites_of n }
    ensures within { result ≤ 4 }
{
    n % 4 + 1
}

/// The number of pages of its section: 4 or 8.
pub(crate) fn page_count(n: u32) -> u32
    ensures count { result ≡ pages_of n }
    ensures within { result ≤ 8 }
{
    4 + 4 * (n / 4 % 2)
}

/// The factor by which everything exceeds its smallest size: 1 to 16.
pub(crate) fn size(n: u32) -> u32
    ensures times { result ≡ size_of n }
    ensures some { 1 ≤ result }
    ensures within { result ≤ 16 }
{
    1 + n / 8 % 16
}
