// The eight events, one method each: a possible event is performed, an impossible one changes nothing.
ghost use Rattle.std.specs.Prelude.{◌≡◌, ◌<◌, ◌++◌, ◌∷◌, [], OnErr, OnOk, IfOk, map, false, slice_set};
ghost use Rattle.std.specs.Prelude.{slice_index_or, vec_len};
ghost use Rattle.ring_core.specs.Sound.{IsSound};
ghost use Rattle.ring_core.specs.Events.{can_be, step};
ghost use Rattle.ring_core.specs.Shown.{schedule_in, Steps, TakesMemory};

use crate::{Core, Event, Stage};
use pr_base::NoMemory;

impl Core {
    /// Performs the event and returns true if it is possible; otherwise returns false and changes nothing.
    /// Only an advance allocates; if the allocation fails, nothing changes.
    pub fn step(&mut self, event: Event) -> Result<bool, NoMemory>
        requires { IsSound (schedule_in self.old) }
        ensures done { IfOk result (λ done. done ≡ can_be (schedule_in self.old) event) }
        ensures effect { OnOk result (schedule_in self.new ≡ step (schedule_in self.old) event) }
        ensures memory { OnErr result (TakesMemory (schedule_in self.old) event) }
        ensures unchanged { OnErr result (schedule_in self.new ≡ schedule_in self.old) }
        ensures sound { IsSound (schedule_in self.new) }
    {
        Ok(match event {
            Event::Look(reader) => self.look(reader as usize),
            Event::Fill(reader) => self.fill(reader as usize),
            Event::Publish => self.publish(),
            Event::See(reader) => self.see(reader as usize),
            Event::Open(reader) => self.open(reader as usize),
            Event::Close(reader) => self.close(reader as usize),
            Event::Advance(reader) => self.advance(reader as usize)?,
            Event::Leave(reader) => self.leave(reader as usize),
        })
    }

    fn look(&mut self, reader: usize) -> bool
        requires { IsSound (schedule_in self.old) }
        ensures { Steps self.old (Event.Look reader) result self.new }
    {
        if reader >= self.cursor.len() {
            return false;
        }
        self.known[reader] = self.cursor[reader];
        true
    }

    fn fill(&mut self, reader: usize) -> bool
        requires { IsSound (schedule_in self.old) }
        ensures { Steps self.old (Event.Fill reader) result self.new }
    {
        if reader >= self.cursor.len() || self.filled[reader] || self.head >= self.total {
            return false;
        }
        let Some(known) = self.known[reader] else {
            return false;
        };
        let places = u64::from(self.places);
        if self.head.saturating_sub(known) >= places {
            return false;
        }
        self.lane[reader * self.places as usize + (self.head % places) as usize] = Some(self.head);
        self.filled[reader] = true;
        true
    }

    fn publish(&mut self) -> bool
        requires { IsSound (schedule_in self.old) }
        ensures { Steps self.old Event.Publish result self.new }
    {
        if self.head >= self.total {
            return false;
        }
        for reader in 0..self.known.len() {
            if self.known[reader].is_some() && !self.filled[reader] {
                return false;
            }
        }
        self.head += 1;
        clear(self.filled.as_mut_slice());
        true
    }

    fn see(&mut self, reader: usize) -> bool
        requires { IsSound (schedule_in self.old) }
        ensures { Steps self.old (Event.See reader) result self.new }
    {
        if reader >= self.cursor.len() || self.cursor[reader].is_none() {
            return false;
        }
        self.seen[reader] = self.head;
        true
    }

    fn open(&mut self, reader: usize) -> bool
        requires { IsSound (schedule_in self.old) }
        ensures { Steps self.old (Event.Open reader) result self.new }
    {
        if reader >= self.cursor.len() || self.stage[reader] != Stage::Idle {
            return false;
        }
        let Some(cursor) = self.cursor[reader] else {
            return false;
        };
        if cursor >= self.seen[reader] {
            return false;
        }
        let places = u64::from(self.places);
        self.lane[reader * self.places as usize + (cursor % places) as usize] = None;
        self.stage[reader] = Stage::Holding;
        true
    }

    fn close(&mut self, reader: usize) -> bool
        requires { IsSound (schedule_in self.old) }
        ensures { Steps self.old (Event.Close reader) result self.new }
    {
        if reader >= self.cursor.len() || self.stage[reader] != Stage::Holding {
            return false;
        }
        let Some(cursor) = self.cursor[reader] else {
            return false;
        };
        let places = u64::from(self.places);
        self.lane[reader * self.places as usize + (cursor % places) as usize] = Some(cursor);
        self.stage[reader] = Stage::Closed;
        true
    }

    fn advance(&mut self, reader: usize) -> Result<bool, NoMemory>
        requires { IsSound (schedule_in self.old) }
        ensures ok { IfOk result (λ done. Steps self.old (Event.Advance reader) done self.new) }
        ensures memory { OnErr result (TakesMemory (schedule_in self.old) (Event.Advance reader)) }
        ensures unchanged { OnErr result (schedule_in self.new ≡ schedule_in self.old) }
    {
        if reader >= self.cursor.len() || self.stage[reader] != Stage::Closed {
            return Ok(false);
        }
        let Some(cursor) = self.cursor[reader] else {
            return Ok(false);
        };
        push_row(&mut self.taken, reader, cursor)?;
        self.cursor[reader] = Some(cursor + 1);
        self.stage[reader] = Stage::Idle;
        Ok(true)
    }

    fn leave(&mut self, reader: usize) -> bool
        requires { IsSound (schedule_in self.old) }
        ensures { Steps self.old (Event.Leave reader) result self.new }
    {
        if reader >= self.cursor.len()
            || self.cursor[reader].is_none()
            || self.stage[reader] != Stage::Idle
        {
            return false;
        }
        self.cursor[reader] = None;
        true
    }
}

// Sets each flag to false.
fn clear(flags: &mut [bool])
    ensures { flags.new ≡ map (λ flag. false) flags.old }
{
    for flag in flags.iter_mut() {
        *flag = false;
    }
}

// Appends a row number to one reader's list.
fn push_row(taken: &mut Vec<Vec<u64>>, reader: usize, row: u64) -> Result<(), NoMemory>
    requires { reader < vec_len taken.old }
    ensures ok { OnOk result (let lists = map (λ rows. rows.items) taken.old.items in
        map (λ rows. rows.items) taken.new.items
        ≡ slice_set lists reader (slice_index_or lists reader [] ++ row ∷ [])) }
    ensures err { OnErr result (
        map (λ rows. rows.items) taken.new.items ≡ map (λ rows. rows.items) taken.old.items) }
{
    taken[reader].push(row)?;
    Ok(())
}
