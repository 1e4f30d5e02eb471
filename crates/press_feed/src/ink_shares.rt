// How the inks of a side are divided among threads.
ghost use Rattle.std.specs.Prelude.{◌≡◌, ◌*◌, ◌≤◌, length};

use crate::screener::has_diffused;
use crate::wanted::Wanted;
use pr_base::Ink;
use press_job::Job;

/// Returns the inks of share `share` of `shares` of a side: as much work in each as can be had by dividing
/// the inks in their order. An ink of which no plate is wanted is in none.
pub(crate) fn inks_of_share(
    job: &Job,
    wanted: Wanted<'_>,
    share: usize,
    shares: usize,
) -> &'static [Ink]
    requires { shares ≤ 8 }
    ensures { length result.now ≤ 5 }
{
    let total = work_before(job, wanted, 5);
    let mut first = 5;
    let mut end = 0;
    for index in 0..5 {
        let work = work_of(job, wanted, Ink::ALL[index]);
        let middle = 2 * work_before(job, wanted, index) + work;
        if work > 0 && middle * shares / (2 * total).max(1) == share {
            first = index.min(first);
            end = index + 1;
        }
    }
    &Ink::ALL[first.min(end)..end]
}

/// What drawing the first inks costs.
fn work_before(job: &Job, wanted: Wanted<'_>, count: usize) -> usize
    requires { count ≤ 5 }
    ensures { result ≤ 4 * count }
{
    let mut before = 0;
    for index in 0..count {
        before += work_of(job, wanted, Ink::ALL[index]);
    }
    before
}

/// What drawing an ink costs, in units of a tile; 0 if no page prints it or no plate in it is wanted.
pub(crate) fn work_of(job: &Job, wanted: Wanted<'_>, ink: Ink) -> usize
    ensures { result ≤ 4 }
{
    if !is_printed(job, ink) || !wanted.has_ink(job.rows().group_count(), ink) {
        0
    } else if has_diffused(job.plan(), ink) {
        4
    } else {
        1
    }
}

/// Whether a group of the job prints an ink.
fn is_printed(job: &Job, ink: Ink) -> bool {
    job.rows().groups().iter().any(|group| group.has_ink(ink))
}
