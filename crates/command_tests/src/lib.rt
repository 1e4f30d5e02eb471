// Tests of the commands `one` and `drill`, and of arguments that are not a command, through public names.
#![tactic(auto)]

#[cfg(test)]
mod drill;
#[cfg(test)]
mod faults;
#[cfg(test)]
mod files;
#[cfg(test)]
mod one;
#[cfg(test)]
mod room;
