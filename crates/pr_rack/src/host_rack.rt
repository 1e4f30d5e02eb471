// The rack that writes files on the machine.
ghost use Rattle.std.specs.Prelude.{refl, ◌≡◌, ◌≤◌, true, false, None, Some, IfErr, IsErrOf, OnErr, OnOk};
ghost use Rattle.std.specs.Prelude.{is_ok, is_some, length, map, not, slice_get, slice_set};
ghost use Rattle.tif_packbits.specs.Frame.{IsFrame};
ghost use Rattle.pr_base.specs.Count.{Rose, count_unless};
ghost use Rattle.pr_rack.specs.Rack.{OthersBegun, has_failed, none_begun};

use crate::begun_plate::{begin_plate, complete};
use crate::folders::Folders;
use crate::open_files::OpenFiles;
use crate::plate_file::append_row;
use crate::{Rack, RackFault};
use pr_base::raised;
use ring_lanes::Held;
use std::fs::File;
use std::marker::Model;
use std::rt::Files;

/// A rack that writes files on the machine. Rows are buffered and written in blocks to `PLATE.part` in the
/// plate's folder, which is created. `finish` syncs and renames that file, so a file under a plate's name is
/// complete; it replaces an existing file. The partial file of an unfinished plate is not removed. An error
/// of the machine is counted, and returned as `Failed` by the call that wrote the block. The folder is locked
/// from the first `begin` in it until the rack is dropped; `begin` fails if another run holds the lock.
/// Contracts see only which slots are begun and the count of failures.
#[derive(Drop)]
pub struct HostRack<R: Files<File = File> + AllocGlobal> {
    rt: R,
    files: OpenFiles,
    folders: Folders,
    faults: u64,
}

impl<R: Files<File = File> + AllocGlobal> Model for HostRack<R> {
    ghost use Rattle.pr_rack.specs.Mem.{HostState};

    ghost Value = { HostState };

    ghost view = { λ r. record { begun = r.files; faults = r.faults } };
}

impl<R: Files<File = File> + AllocGlobal> HostRack<R> {
    /// Returns a rack with no slot begun and no failures counted.
    pub fn new(rt: R) -> HostRack<R>
        ensures { result ≡ record { begun = none_begun; faults = 0 } }
    {
        let folders = Folders::new(rt.alloc());
        HostRack {
            rt,
            files: OpenFiles::new(),
            folders,
            faults: 0,
        }
    }
}

impl<R: Files<File = File> + AllocGlobal> Rack for HostRack<R> {
    ghost finished = { λ _. None };

    ghost working = { λ _. None };

    ghost begun = { λ r. r.begun };

    ghost taken = { λ _. None };

    ghost missed = { λ _. None };

    ghost faults = { λ r. r.faults };

    ghost finished_told = { λ r h. refl };

    ghost missed_told = { λ r h. refl };

    ghost begun_told = { λ r. tt };

    fn begin(&mut self, slot: usize, path: &str, head: &[u8]) -> Result<(), RackFault>
        requires empty { slice_get self.old.begun slot ≡ Some false }
        requires head { length head.now ≡ 8 }
        ensures begun { OnOk result (self.new.begun ≡ slice_set self.old.begun slot true) }
        ensures others_begun { OnErr result (OthersBegun slot self.old.begun self.new.begun) }
        ensures counted { IsErrOf result RackFault.Failed → Rose self.old.faults self.new.faults }
        ensures faults_stay { self.old.faults ≤ self.new.faults }

        ensures count { self.new.faults ≡ count_unless (not (has_failed result)) self.old.faults }
    {
        match begin_plate(&self.rt, &mut self.folders, path, head) {
            Ok(plate) => {
                self.files.put(slot, plate);
                Ok(())
            }
            Err(RackFault::Failed) => {
                self.faults = raised(self.faults);
                Err(RackFault::Failed)
            }
            Err(RackFault::Memory) => Err(RackFault::Memory),
        }
    }

    fn row(&mut self, slot: usize, held: &Held) -> Result<(), RackFault>
        requires begun { slice_get self.old.begun slot ≡ Some true }
        requires frame { IsFrame held.now.bytes }
        ensures begun { OnOk result (self.new.begun ≡ self.old.begun) }
        ensures others_begun { OnErr result (OthersBegun slot self.old.begun self.new.begun) }
        ensures counted { IsErrOf result RackFault.Failed → Rose self.old.faults self.new.faults }
        ensures faults_stay { self.old.faults ≤ self.new.faults }

        ensures count { self.new.faults ≡ count_unless (is_ok result) self.old.faults }
        ensures failed { IfErr result (λ fault. fault ≡ RackFault.Failed) }
    {
        let mut plate = self.files.take(slot);
        if !append_row(&mut plate.file, held) {
            self.faults = raised(self.faults);
            return Err(RackFault::Failed);
        }
        self.files.put(slot, plate);
        Ok(())
    }

    fn finish(&mut self, slot: usize, tail: &[u8], at: u32) -> Result<(), RackFault>
        requires begun { slice_get self.old.begun slot ≡ Some true }
        ensures begun { OnOk result (self.new.begun ≡ slice_set self.old.begun slot false) }
        ensures others_begun { OnErr result (OthersBegun slot self.old.begun self.new.begun) }
        ensures counted { IsErrOf result RackFault.Failed → Rose self.old.faults self.new.faults }
        ensures faults_stay { self.old.faults ≤ self.new.faults }

        ensures count { self.new.faults ≡ count_unless (is_ok result) self.old.faults }
        ensures failed { IfErr result (λ fault. fault ≡ RackFault.Failed) }
    {
        let plate = self.files.take(slot);
        if !complete(&self.rt, plate, tail, at) {
            self.faults = raised(self.faults);
            return Err(RackFault::Failed);
        }
        Ok(())
    }
}
