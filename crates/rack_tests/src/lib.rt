// Tests of the rack on the machine, of a site and of ink keys, through public names only.
#![tactic(auto)]

#[cfg(test)]
mod blocks;
#[cfg(test)]
mod delivery;
#[cfg(test)]
mod folder;
#[cfg(test)]
mod keys;
#[cfg(test)]
mod machine;
#[cfg(test)]
mod places;
#[cfg(test)]
mod rows;
#[cfg(test)]
mod site;
#[cfg(test)]
mod turn;
