// Tests of the crates that make a page's bits: tone curves and ink limits, screens, and layers.
#![tactic(auto)]

#[cfg(test)]
mod blocks;
#[cfg(test)]
mod columns;
#[cfg(test)]
mod diffusion;
#[cfg(test)]
mod layers;
#[cfg(test)]
mod offsets;
#[cfg(test)]
mod pages;
#[cfg(test)]
mod samples;
#[cfg(test)]
mod tiles;
#[cfg(test)]
mod tones;
