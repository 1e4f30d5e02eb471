// Tests of job_gen, press_job and press_feed through their public names.
#![tactic(auto)]

#[cfg(test)]
mod bands;
#[cfg(test)]
mod largest;
#[cfg(test)]
mod loaded;
#[cfg(test)]
mod made;
