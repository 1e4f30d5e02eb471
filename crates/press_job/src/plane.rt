// A row of one ink of a page after its tone curve.
ghost use Rattle.std.specs.Prelude.{◌≡◌, ◌≤◌, ◌<◌, ℕ, IfOk, IsTrue, List, if◌then◌else◌, length, replicate};
ghost use Rattle.std.specs.Prelude.{slice_index, false};
ghost use Rattle.press_job.specs.Printing.{toned};

use crate::tones::Tones;
use pr_base::{Ink, NoMemory};
use std::alloc::Global;

/// Where the values of an ink are.
#[derive(Clone, Copy)]
pub(crate) enum Source {
    /// In the row in which the page's layers were painted: neither a curve nor a limit changes them.
    Painted,
    /// In the plane.
    Own,
    /// In a row without ink: the page does not print the ink.
    Blank,
}

/// The values of one ink.
#[derive(Drop)]
pub(crate) struct Plane {
    pub(crate) values: Vec<u8>,
    pub(crate) source: Source,
}

impl Plane {
    ghost use Rattle.press_job.specs.Planes.{IsToned, shown_in};

    /// Returns a row of `width` values.
    pub(crate) fn new(alloc: Global, width: u32) -> Result<Plane, NoMemory>
        ensures width { IfOk result (λ plane. length plane.values.items ≡ width) }
        ensures own { IfOk result (λ plane. plane.source ≡ Source.Own) }
    {
        Ok(Plane {
            values: vec![in alloc; 0; width as usize]?,
            source: Source::Own,
        })
    }

    /// Applies the ink's curve to a row of ink values, or shows no ink if the page does not print this ink.
    /// Values that will be limited become the plane's own.
    pub(crate) fn tone(
        &mut self,
        tones: &Tones<'_>,
        ink: Ink,
        prints: bool,
        is_limited: bool,
        row: &[u8],
    )
        requires { length row.now ≡ length self.old.values.items }
        ensures values { (blank : List ℕ) → blank ≡ replicate (length row.now) 0
            → IsToned tones.now ink prints row.now (shown_in row.now blank self.new) }
        ensures width { length self.new.values.items ≡ length self.old.values.items }
        ensures own { IsTrue is_limited → self.new.source ≡ Source.Own }
    {
        self.source = source_of(tones, ink, prints, is_limited);
        match self.source {
            Source::Own => tone_values(tones, ink, prints, row, &mut self.values),
            Source::Painted | Source::Blank => (),
        }
    }

    /// Lends the values: its own, or those of the painted row or of the blank one.
    pub(crate) fn of<'a>(&'a self, row: &'a [u8], blank: &'a [u8]) -> &'a [u8]
        ensures { result.now ≡ shown_in row.now blank.now self.now }
    {
        match self.source {
            Source::Painted => row,
            Source::Own => self.values.as_slice(),
            Source::Blank => blank,
        }
    }
}

/// Returns where the values of an ink are after its curve.
fn source_of(tones: &Tones<'_>, ink: Ink, prints: bool, is_limited: bool) -> Source
    ensures painted { result ≡ Source.Painted → IsTrue prints
        × ((value : ℕ) → value < 256 → toned tones.now ink value ≡ value) }
    ensures blank { result ≡ Source.Blank → prints ≡ false }
    ensures own { IsTrue is_limited → result ≡ Source.Own }
{
    if is_limited {
        Source::Own
    } else if !prints {
        Source::Blank
    } else if tones.is_plain(ink) {
        Source::Painted
    } else {
        Source::Own
    }
}

/// Writes values after the curve of an ink, or no ink.
fn tone_values(tones: &Tones<'_>, ink: Ink, prints: bool, values: &[u8], into: &mut [u8])
    requires { length values.now ≡ length into.old }
    ensures values { (x : ℕ) → x < length into.new →
        slice_index into.new x ≡ (if prints then toned tones.now ink (slice_index values.now x) else 0) }
    ensures bytes { (x : ℕ) → x < length into.new → slice_index into.new x ≤ 255 }
{
    if !prints {
        into.fill(0);
    } else if tones.is_plain(ink) {
        into.copy_from_slice(values);
    } else {
        tones.curve(ink).apply(values, into);
    }
}
