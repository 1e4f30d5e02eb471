// Scaling a row up by a whole number: each value is repeated.
ghost use Rattle.std.specs.Prelude.{◌≡◌, ℕ, ◌+◌, ◌*◌, ◌/◌, ◌<◌, ◌≤◌, length, slice_index};
ghost use Rattle.page_layers.specs.Rows.{IsStretched};

use crate::samples::{samples_four_times, samples_once, samples_twice};

/// Fills `into` with the values of the source, `step` apart, each repeated `scale` times.
#[tactic(auto, using(crate::proofs::Stretches::IsStretched_none))]
pub(crate) fn stretch(source: &[u8], step: usize, scale: usize, into: &mut [u8])
    requires step { (1 ≤ step) × (step ≤ 4) }
    requires scale { (1 ≤ scale) × (scale ≤ 64) }
    requires small { length into.old ≤ 65535 }
    requires enough { (n : ℕ) → scale * n < length into.old → step * n < length source.now }
    ensures { IsStretched source.now step scale (length into.old) into.new }
{
    match (step, scale) {
        (1, 1) => copy(source, into),
        (4, 1) => samples_once(source, into),
        (1, 2) => runs(source, 1, 2, 0, into),
        (4, 2) => samples_twice(source, into),
        (1, 4) => runs(source, 1, 4, 0, into),
        (4, 4) => samples_four_times(source, into),
        _ => runs(source, step, scale, 0, into),
    }
}

// Does the same for adjacent values, each once.
#[inline(always)]
fn copy(source: &[u8], into: &mut [u8])
    requires { (n : ℕ) → n < length into.old → n < length source.now }
    ensures { (n : ℕ) → n < length into.old → slice_index into.new n ≡ slice_index source.now n }
{
    for n in 0..into.len() {
        into[n] = source[n];
    }
}

// Writes whole runs after the first `done` ones, and the start of one more at the end. It is inlined with the
// caller's constants, so that a run is a single store.
#[inline(always)]
pub(crate) fn runs(source: &[u8], step: usize, scale: usize, done: usize, into: &mut [u8])
    requires step { step ≤ 4 }
    requires scale { (1 ≤ scale) × (scale ≤ 64) }
    requires small { length into.old ≤ 65535 }
    requires enough { (n : ℕ) → scale * n < length into.old → step * n < length source.now }
    requires within { done ≤ length into.old / scale }
    requires done { IsStretched source.now step scale (scale * done) into.old }
    ensures { IsStretched source.now step scale (length into.old) into.new }
{
    let whole = into.len() / scale;
    for n in done..whole {
        into[scale * n..scale * n + scale].fill(source[step * n]);
    }
    if scale * whole < into.len() {
        into[scale * whole..].fill(source[step * whole]);
    }
}
