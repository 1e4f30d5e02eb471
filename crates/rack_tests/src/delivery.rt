// The order of the calls that give a plate's file the plate's name, on a file that records them.
ghost use Rattle.std.specs.Prelude.{◌≡◌, Some};
ghost use Rattle.std.specs.Bool.{OnFalse, OnTrue};
ghost use Rattle.pr_rack.specs.Delivery.{with_call};

use pr_rack::{FileCall, PlateFile, deliver};

// The offset of the plate's directory.
const PLACE: u32 = 90_008;

const ORDER: [FileCall; 4] = [
    FileCall::Place(PLACE),
    FileCall::Sync,
    FileCall::Rename,
    FileCall::SyncFolder,
];

// A file that records the calls that succeed. Those after the first `most` fail.
#[derive(Drop)]
struct Recorded {
    calls: Vec<FileCall>,
    most: usize,
}

impl Recorded {
    // Records a call, or fails.
    fn record(&mut self, call: FileCall) -> bool
        ensures done { OnTrue result (Some self.new.calls.items ≡ with_call call (Some self.old.calls.items)) }
        ensures failed { OnFalse result (Some self.new.calls.items ≡ Some self.old.calls.items) }
    {
        self.calls.len() < self.most && self.calls.push(call).is_ok()
    }
}

impl PlateFile for Recorded {
    ghost calls = { λ r. Some r.calls.items };

    fn place(&mut self, at: u32) -> bool {
        self.record(FileCall::Place(at))
    }

    fn sync(&mut self) -> bool {
        self.record(FileCall::Sync)
    }

    fn rename(&mut self) -> bool {
        self.record(FileCall::Rename)
    }

    fn sync_folder(&mut self) -> bool {
        self.record(FileCall::SyncFolder)
    }
}

// Whether exactly the first `most` calls are made, in order, and `deliver` succeeds only if none fails.
fn is_in_order(rt: &HostRuntime, most: usize) -> bool {
    let mut file = Recorded {
        calls: Vec::new(rt.alloc()),
        most,
    };
    let delivered = deliver(&mut file, PLACE);
    delivered == (most >= ORDER.len()) && ORDER.starts_with(&file.calls) && file.calls.len() == most
}

#[test]
fn a_plate_is_renamed_once_it_is_synced(rt: HostRuntime) {
    for most in 0..=ORDER.len() {
        assert!(rt; is_in_order(&rt, most));
    }
}
