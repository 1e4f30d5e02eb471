// The command `one`: the black plate of one image, at 1200 pixels per inch under the Bayer tile of side 4. It
// loads and checks the file, and makes the whole plate in memory before it prints anything. What holds of
// every command is in cmd_base.
#![tactic(auto)]

mod black;
mod one;
mod plate;
mod room;

pub use one::print_one;
