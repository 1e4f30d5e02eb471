// A sink over an operating-system writer.
ghost use Rattle.std.specs.Prelude.{◌≡◌, ◌≤◌, IfErr, IsErrOf, OnErr, OnOk, false, is_ok, true};
ghost use Rattle.pr_base.specs.Count.{Rose, count_after, count_unless};
ghost use Rattle.pr_ports.specs.Sink.{Grew, GrewByPrefix, has_failed};

use crate::{Sink, SinkFault};
use pr_base::Counted;
use std::io::Write;
use std::marker::Model;

/// A sink that passes each piece on to a writer and flushes it before returning. An error of the writer, or
/// a write that accepts no byte, is a counted `Failed`. The bytes given are the writer's contents where
/// those are known; for host streams they are not, so contracts know only the count.
#[derive(Drop)]
pub struct WriterSink<W: Write> {
    inner: Counted<W>,
}

impl<W: Write> Model for WriterSink<W> {
    ghost use Rattle.pr_ports.specs.Sink.{WriterState};

    ghost Value = { WriterState };

    ghost view = { λ s. record { given = W.contents s.inner.stream; faults = s.inner.faults } };
}

impl<W: Write> WriterSink<W> {
    /// A sink over `inner`, with no failures counted.
    pub fn new(inner: W) -> WriterSink<W>
        ensures { result ≡ record { given = W.contents inner; faults = 0 } }
    {
        WriterSink {
            inner: Counted::new(inner, 0),
        }
    }
}

impl<W: Write> Sink for WriterSink<W> {
    ghost given = { λ s. s.given };

    ghost faults = { λ s. s.faults };

    fn put(&mut self, bytes: &[u8]) -> Result<(), SinkFault>
        ensures taken { OnOk result (Grew self.old.given self.new.given bytes.now) }
        ensures refused { OnErr result (GrewByPrefix self.old.given self.new.given bytes.now) }
        ensures counted { IsErrOf result SinkFault.Failed → Rose self.old.faults self.new.faults }
        ensures once { has_failed result ≡ true → self.new.faults ≡ count_after self.old.faults }
        ensures uncounted { has_failed result ≡ false → self.new.faults ≡ self.old.faults }
        ensures faults_stay { self.old.faults ≤ self.new.faults }

        ensures count { self.new.faults ≡ count_unless (is_ok result) self.old.faults }
        ensures failed { IfErr result (λ fault. fault ≡ SinkFault.Failed) }
    {
        if self.inner.append(bytes) && self.inner.flush() {
            Ok(())
        } else {
            Err(SinkFault::Failed)
        }
    }
}
