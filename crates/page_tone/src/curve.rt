// The tone curve of an ink: what each ink value becomes.
ghost use Rattle.std.specs.Prelude.{◌≡◌, ℕ, ◌<◌, ◌≤◌, ◌↔◌, IsTrue, length, slice_index};
ghost use Rattle.page_tone.specs.Curve.{AreValid, curve_value, line_value};

use crate::block::{BLOCK, all_are, fill};
use std::marker::Model;

/// Returns whether these points make a curve: 2 to 32 points whose input values strictly rise from 0 to 255.
/// A point is a pair of an input value and an output value.
pub fn valid_points(points: &[(u8, u8)]) -> bool
    ensures { IsTrue result ↔ AreValid points.now }
{
    if points.len() < 2 || points.len() > 32 {
        return false;
    }
    if points[0].0 != 0 || points[points.len() - 1].0 != 255 {
        return false;
    }
    for k in 1..points.len() {
        if points[k - 1].0 >= points[k].0 {
            return false;
        }
    }
    true
}

/// A tone curve. Contracts see the list of what each of the 256 ink values becomes.
#[derive(Clone, Copy, PartialEq, Eq)]
pub struct Curve {
    values: [u8; 256],
}

impl Model for Curve {
    ghost use Rattle.std.specs.Prelude.{List, ℕ};

    ghost Value = { List ℕ };

    ghost view = { λ curve. curve.values };

    ghost inverse = { λ values. record { values = values } };
}

impl Curve {
    ghost use Rattle.std.specs.Prelude.{◌≡◌, ℕ, ◌+◌, ◌<◌, ◌≤◌, length, slice_index};
    ghost use Rattle.page_tone.specs.Limit.{IsWritten};

    /// Makes the curve through these points: straight lines between neighbours, rounded down.
    pub fn from_points(points: &[(u8, u8)]) -> Curve
        requires { AreValid points.now }
        ensures length { length result ≡ 256 }
        ensures values { (v : ℕ) → v < 256 → slice_index result v ≡ curve_value points.now v }
    {
        let mut values = [0; 256];
        for v in 0..=255 {
            values[v as usize] = value_at(points, v);
        }
        Curve { values }
    }

    /// Makes the curve that changes no value.
    pub fn identity() -> Curve
        ensures length { length result ≡ 256 }
        ensures values { (v : ℕ) → v < 256 → slice_index result v ≡ v }
    {
        let mut values = [0; 256];
        for v in 0..=255 {
            values[v as usize] = v;
        }
        Curve { values }
    }

    /// Returns what `v` becomes.
    pub fn at(&self, v: u8) -> u8
        ensures { result ≡ slice_index self.now v }
    {
        self.values[v as usize]
    }

    /// Writes what each of these values becomes. A block of one value takes one look-up.
    pub fn apply(&self, values: &[u8], into: &mut [u8])
        requires { length values.now ≡ length into.old }
        ensures { (x : ℕ) → x < length into.new →
            slice_index into.new x ≡ slice_index self.now (slice_index values.now x) }
    {
        let whole = values.len() / BLOCK;
        for block in 0..whole {
            self.apply_block(BLOCK * block, values, into);
        }
        self.apply_each(BLOCK * whole, values.len(), values, into);
    }

    /// Writes what each value of the block at column `from` becomes.
    fn apply_block(&self, from: usize, values: &[u8], into: &mut [u8])
        requires block { from + BLOCK ≤ length values.now }
        requires into { length values.now ≡ length into.old }
        ensures { IsWritten (λ x. slice_index self.now (slice_index values.now x)) from (from + BLOCK)
            into.old into.new }
    {
        let first = values[from];
        if all_are(values, from, first) {
            fill(from, self.at(first), into);
            return;
        }
        self.apply_each(from, from + BLOCK, values, into);
    }

    /// Writes what each value from column `from` to `to`, exclusive, becomes, by a look-up each.
    fn apply_each(&self, from: usize, to: usize, values: &[u8], into: &mut [u8])
        requires order { from ≤ to }
        requires to { to ≤ length values.now }
        requires into { length values.now ≡ length into.old }
        ensures { IsWritten (λ x. slice_index self.now (slice_index values.now x)) from to
            into.old into.new }
    {
        for x in from..to {
            into[x] = self.at(values[x]);
        }
    }
}

/// Returns the value at `v` of the curve through these points.
fn value_at(points: &[(u8, u8)], v: u8) -> u8
    requires { AreValid points.now }
    ensures { result ≡ curve_value points.now v }
{
    for right in 1..points.len() {
        if v <= points[right].0 {
            return between(points[right - 1], points[right], v);
        }
    }
    unreachable!()
}

/// Returns the value at `v` on the line between two points, rounded down.
fn between(left: (u8, u8), right: (u8, u8), v: u8) -> u8
    requires rises { left.0 < right.0 }
    requires left { left.0 ≤ v }
    requires right { v ≤ right.0 }
    ensures { result ≡ line_value left right v }
{
    let (x0, y0) = (left.0 as u32, left.1 as u32);
    let (x1, y1) = (right.0 as u32, right.1 as u32);
    let v = v as u32;
    ((y0 * (x1 - v) + y1 * (v - x0)) / (x1 - x0)) as u8
}
