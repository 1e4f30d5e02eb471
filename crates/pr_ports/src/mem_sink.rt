// A sink in memory, with known contents, that fails at chosen calls.
ghost use Rattle.std.specs.Prelude.{◌≡◌, ◌≤◌, [], List, ℕ, Some, Contains, OnOk, OnErr, IsErrOf};
ghost use Rattle.std.specs.Prelude.{false, true};
ghost use Rattle.pr_base.specs.Count.{Rose, count_after};
ghost use Rattle.pr_ports.specs.Mem.{SinkState, sink_after};
ghost use Rattle.pr_ports.specs.Sink.{Grew, GrewByPrefix, has_failed};

use crate::{Sink, SinkFault};
use pr_base::raised;
use std::alloc::Global;
use std::marker::Model;

/// A sink in memory. Calls are numbered from 0. A call whose number is in `failing` fails and accepts
/// nothing. The call number saturates at 2^64 - 1.
#[derive(Drop)]
pub struct MemSink {
    bytes: Vec<u8>,
    failing: Vec<u64>,
    calls: u64,
    faults: u64,
}

impl Model for MemSink {
    ghost Value = { SinkState };

    ghost view = { λ s.
        record { bytes = s.bytes.items; failing = s.failing.items; calls = s.calls; faults = s.faults } };
}

impl MemSink {
    /// An empty sink that fails at the calls with the given numbers.
    pub fn new(alloc: Global, failing: Vec<u64>) -> MemSink
        ensures { result ≡ record { bytes = []; failing = failing.items; calls = 0; faults = 0 } }
    {
        MemSink {
            bytes: Vec::new(alloc),
            failing,
            calls: 0,
            faults: 0,
        }
    }

    /// Returns all bytes accepted so far.
    pub fn bytes(&self) -> &[u8]
        ensures { result.now ≡ self.now.bytes }
    {
        self.bytes.as_slice()
    }
}

impl Sink for MemSink {
    ghost given = { λ s. Some s.bytes };

    ghost faults = { λ s. s.faults };

    fn put(&mut self, bytes: &[u8]) -> Result<(), SinkFault>
        ensures taken { OnOk result (Grew (Some self.old.bytes) (Some self.new.bytes) bytes.now) }
        ensures refused { OnErr result (GrewByPrefix (Some self.old.bytes) (Some self.new.bytes) bytes.now) }
        ensures counted { IsErrOf result SinkFault.Failed → Rose self.old.faults self.new.faults }
        ensures once { has_failed result ≡ true → self.new.faults ≡ count_after self.old.faults }
        ensures uncounted { has_failed result ≡ false → self.new.faults ≡ self.old.faults }
        ensures faults_stay { self.old.faults ≤ self.new.faults }

        ensures fails { IsErrOf result SinkFault.Failed → Contains self.old.failing self.old.calls }
        ensures fails_there { Contains self.old.failing self.old.calls → IsErrOf result SinkFault.Failed }
        ensures after { self.new ≡ sink_after self.old bytes.now result }
    {
        let fails = self.failing.contains(&self.calls);
        self.calls = raised(self.calls);
        if fails {
            self.faults = raised(self.faults);
            return Err(SinkFault::Failed);
        }
        match self.bytes.extend_from_slice(bytes) {
            Ok(()) => Ok(()),
            Err(_) => Err(SinkFault::Memory),
        }
    }
}
