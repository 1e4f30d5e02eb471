// Tests of the commands `run` and `keys` through public names: editions, sites that drop out, counts, and
// refusals.
#![tactic(auto)]

#[cfg(test)]
mod editions;
#[cfg(test)]
mod faults;
#[cfg(test)]
mod files;
#[cfg(test)]
mod inks;
#[cfg(test)]
mod keys;
#[cfg(test)]
mod leaving;
#[cfg(test)]
mod realistic;
#[cfg(test)]
mod room;
#[cfg(test)]
mod threads;
