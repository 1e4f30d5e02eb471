// The state of a schedule: the combined state of a ring's shared words and lanes, its writer and its readers.
ghost use Rattle.std.specs.Prelude.{◌≡◌, ◌≤◌, IfOk, [], map, replicate};

use crate::Stage;
use pr_base::NoMemory;
use std::alloc::Global;

/// The schedule of a ring: `total` rows pass through `places` places to every reader.
///
/// Each list has one entry per reader, except `lane`, which has one per reader and place, reader by reader.
#[derive(Drop)]
pub struct Core {
    pub places: u32,
    pub total: u64,
    /// The number of rows published.
    pub head: u64,
    /// Whether the reader's lane has been filled with the row numbered head.
    pub filled: Vec<bool>,
    /// The reader's cursor as the writer knows it; `None` once the writer has seen that the reader left.
    pub known: Vec<Option<u64>>,
    /// The reader's next row; `None` once it has left.
    pub cursor: Vec<Option<u64>>,
    /// The head that the reader knows.
    pub seen: Vec<u64>,
    pub stage: Vec<Stage>,
    /// At `r * places + p`, the number of the row in reader r's lane at place p; `None` if it is empty.
    pub lane: Vec<Option<u64>>,
    /// The rows that the reader took, in order.
    pub taken: Vec<Vec<u64>>,
}

impl Core {
    ghost use Rattle.ring_core.specs.Schedule.{start};
    ghost use Rattle.ring_core.specs.Sound.{IsSound};
    ghost use Rattle.ring_core.specs.Shown.{schedule_in};

    /// Returns the schedule before the first event.
    pub fn new(alloc: Global, places: u32, readers: u32, total: u64) -> Result<Core, NoMemory>
        requires some_place { 1 ≤ places }
        requires few_places { places ≤ 1024 }
        requires some_reader { 1 ≤ readers }
        requires few_readers { readers ≤ 17 }
        ensures start { IfOk result (λ core. schedule_in core ≡ start places readers total) }
        ensures sound { IfOk result (λ core. IsSound (schedule_in core)) }
    {
        let count = readers as usize;
        Ok(Core {
            places,
            total,
            head: 0,
            filled: vec![in alloc; false; count]?,
            known: vec![in alloc; Some(0); count]?,
            cursor: vec![in alloc; Some(0); count]?,
            seen: vec![in alloc; 0; count]?,
            stage: vec![in alloc; Stage::Idle; count]?,
            lane: vec![in alloc; None; count * places as usize]?,
            taken: empty_lists(alloc, count)?,
        })
    }
}

// Returns `count` empty lists.
fn empty_lists(alloc: Global, count: usize) -> Result<Vec<Vec<u64>>, NoMemory>
    ensures { IfOk result (λ lists. map (λ list. list.items) lists.items ≡ replicate count []) }
{
    let mut lists = Vec::new(alloc);
    for _i in 0..count {
        lists.push(Vec::new(alloc))?;
    }
    Ok(lists)
}
