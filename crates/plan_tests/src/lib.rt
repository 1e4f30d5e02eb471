// Tests of the plan.
#![tactic(auto)]

#[cfg(test)]
mod changes;
#[cfg(test)]
mod faults;
#[cfg(test)]
mod pairs;
#[cfg(test)]
mod plates;
#[cfg(test)]
mod rows;
#[cfg(test)]
mod small;
