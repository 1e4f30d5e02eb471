// The racks of the print sites, which build plates row by row and keep the finished ones: the trait, a
// transparent rack in memory, and one that writes files on the machine.
#![tactic(auto)]

mod begun_plate;
mod delivery;
mod folders;
mod host_rack;
mod mem_rack;
mod misses;
mod open_files;
mod plate_file;
mod plate_name;
mod rack;
mod slots;

pub use delivery::{FileCall, PlateFile, deliver};
pub use host_rack::HostRack;
pub use mem_rack::MemRack;
pub use rack::{Rack, RackCall, RackFault};
