// The two pages of a section that share a plate.
ghost use Rattle.std.specs.Prelude.{◌≡◌, ◌≤◌, ◌*◌, ◌%◌};
ghost use Rattle.plan_pages.specs.Pages.{pair_of};

/// Returns the left and the right page of pair `j` in a section of `n` pages, all counted from 1: pages `j`
/// and `n + 1 - j`, the even one on the left.
pub fn pair(n: u32, j: u32) -> (u32, u32)
    requires even { n % 2 ≡ 0 }
    requires first { 1 ≤ j }
    requires last { 2 * j ≤ n }
    ensures pages { result ≡ pair_of n j }
    ensures left { result.0 % 2 ≡ 0 }
    ensures right { result.1 % 2 ≡ 1 }
{
    let other = n - j + 1;
    if j % 2 == 0 { (j, other) } else { (other, j) }
}
