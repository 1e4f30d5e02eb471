// Input and output of plateroom: the shelf that input files are loaded from, and the sinks that text and
// plates are written to. Each is a trait whose failures are counted. One implementation works in memory,
// with a model of its full contents; one works on the host, where only the counts are known to contracts.
#![tactic(auto)]

mod comparing;
mod difference;
mod host_file;
mod host_shelf;
mod long_file;
mod mem_shelf;
mod mem_sink;
mod offset;
mod shares;
mod shelf;
mod sink;
mod writer_sink;

pub use difference::first_difference;
pub use host_file::FileLoader;
pub use host_shelf::HostShelf;
pub use mem_shelf::MemShelf;
pub use mem_sink::MemSink;
pub use shelf::{LoadFault, Shelf};
pub use sink::{Sink, SinkFault};
pub use writer_sink::WriterSink;
