// Tests of the command `verify`, which verifies the plates on a shelf, through public names.
#![tactic(auto)]

#[cfg(test)]
mod faults;
#[cfg(test)]
mod feed;
#[cfg(test)]
mod files;
#[cfg(test)]
mod order;
#[cfg(test)]
mod places;
#[cfg(test)]
mod room;
