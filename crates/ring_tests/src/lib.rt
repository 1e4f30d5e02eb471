// Tests of the schedule, of the ring that implements it, and of the deck, through public names only.
#![tactic(auto)]

#[cfg(test)]
mod deal;
#[cfg(test)]
mod deck;
#[cfg(test)]
mod ring;
#[cfg(test)]
mod schedule;
#[cfg(test)]
mod table;
#[cfg(test)]
mod threads;
