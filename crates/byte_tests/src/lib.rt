// Tests of the crates that read and write bytes: faults, shelves and sinks, PackBits, the tails of plates,
// and generated files.
#![tactic(auto)]

#[cfg(test)]
mod checks;
#[cfg(test)]
mod faults;
#[cfg(test)]
mod keeping;
#[cfg(test)]
mod making;
#[cfg(test)]
mod packing;
#[cfg(test)]
mod plates;
#[cfg(test)]
mod ports;
