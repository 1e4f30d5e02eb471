// Tests of how images are read: directories, strips, and what contone images, linework and masks must
// satisfy.
#![tactic(auto)]

#[cfg(test)]
mod bilevel;
#[cfg(test)]
mod contone;
#[cfg(test)]
mod directory;
#[cfg(test)]
mod parts;
#[cfg(test)]
mod strips;
