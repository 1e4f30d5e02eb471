// Tests of the command `replate`, which makes the plates that changed, through public names.
#![tactic(auto)]

#[cfg(test)]
mod changes;
#[cfg(test)]
mod edition;
#[cfg(test)]
mod faults;
#[cfg(test)]
mod files;
#[cfg(test)]
mod leaving;
#[cfg(test)]
mod room;
