// Tests of replate through its public names.
#![tactic(auto)]

#[cfg(test)]
mod changes;
