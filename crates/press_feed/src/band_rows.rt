// The rows of the pages that are drawn in one step of a band.
ghost use Rattle.std.specs.Prelude.{◌≡◌, ◌%◌, ◌<◌, ◌≤◌, length};
ghost use Rattle.std.specs.Option.{ForSome};
ghost use Rattle.plan_rows.specs.Groups.{groups_of};
ghost use Rattle.press_feed.specs.SideBand.{AreRowsOf};

use crate::wanted::Wanted;
use press_job::Job;

/// Consecutive rows of the pages of a group, by its index.
#[derive(Clone, Copy, PartialEq, Eq)]
pub(crate) struct BandRows {
    pub(crate) group: usize,
    pub(crate) first: u32,
    pub(crate) count: u32,
}

/// Returns the rows of the pages of a group from row `first` on that are drawn in a step of at most `height`.
pub(crate) fn rows_from(job: &Job, height: u32, group: usize, first: u32) -> BandRows
    requires height { height % 8 ≡ 0 }
    requires group { group < length (groups_of job.now.plan) }
    requires blocks { first % 8 ≡ 0 }
    requires first { first ≤ job.now.plan.page_height }
    ensures { AreRowsOf job.now height result }
{
    BandRows {
        group,
        first,
        count: height.min(job.plan().page_height - first),
    }
}

/// Returns the rows that come after some: those below them, or the first ones of the next group of which a
/// plate is wanted.
pub(crate) fn rows_after(
    job: &Job,
    height: u32,
    wanted: Wanted<'_>,
    rows: BandRows,
) -> Option<BandRows>
    requires height { height % 8 ≡ 0 }
    requires rows { AreRowsOf job.now height rows }
    ensures { ForSome result (AreRowsOf job.now height) }
{
    let end = job.plan().page_height;
    let first = rows.first + rows.count;
    if first < end {
        return Some(rows_from(job, height, rows.group, first));
    }
    let group = next_group(job, wanted, rows.group)?;
    Some(rows_from(job, height, group, 0))
}

/// Returns the index of the first group after one of which a plate is wanted.
fn next_group(job: &Job, wanted: Wanted<'_>, group: usize) -> Option<usize>
    requires { group < length (groups_of job.now.plan) }
    ensures { ForSome result (λ next. next < length (groups_of job.now.plan)) }
{
    let groups = job.rows().groups();
    for index in group + 1..groups.len() {
        if groups[index]
            .inks()
            .iter()
            .any(|ink| wanted.has(index, *ink))
        {
            return Some(index);
        }
    }
    None
}
