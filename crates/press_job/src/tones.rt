// The tone of a plan: the curve of each ink, and the ink limit of a pixel.
ghost use Rattle.std.specs.Prelude.{◌≡◌, ◌<◌, ◌≤◌, ℕ, IfOk, IsTrue, slice_index};
ghost use Rattle.press_job.specs.Tones.{identity, most_ink as most_of};

use page_tone::Curve;
use plan_json::Plan;
use pr_base::{Ink, NoMemory};
use std::alloc::Global;
use std::marker::Model;

/// The largest ink value, which a page that prints K alone has at most.
const MOST_BLACK: u16 = 255;

/// The largest sum of four ink values.
const MOST_INK: u16 = 4 * 255;

/// The tone of a plan: for each of the five inks a table of its curve over the ink values 0 to 255, and the
/// ink limit of a pixel. Contracts see the plan.
#[derive(Drop)]
pub struct Tones<'j> {
    plan: &'j Plan,
    curves: Vec<Curve>,
}

impl<'j> Model for Tones<'j> {
    ghost use Rattle.plan_json.specs.Data.{PlanData};

    ghost Value = { PlanData };

    ghost use Rattle.press_job.specs.Tones.{AreCurves};

    ghost view = { λ t. t.plan.now };

    ghost invariant = { λ t. AreCurves t.plan.now t.curves.items };
}

impl<'j> Tones<'j> {
    ghost use Rattle.press_job.specs.Printing.{toned};
    ghost use Rattle.press_job.specs.Tones.{limits};

    /// Returns the tone of a plan. Allocates the five tables; no other call allocates memory.
    pub fn of(alloc: Global, plan: &'j Plan) -> Result<Tones<'j>, NoMemory>
        ensures { IfOk result (λ tones. tones ≡ plan.now) }
    {
        let mut curves = Vec::with_capacity(alloc, 5)?;
        for curve in &plan.curves {
            curves.push(Curve::from_points(curve.points.as_slice()))?;
        }
        Ok(Tones { plan, curves })
    }

    /// The largest sum of C, M, Y and K at a pixel.
    pub(crate) fn limit(&self) -> u16
        ensures limit { result ≡ self.now.limit }
        ensures most { result ≤ 1020 }
    {
        let plan = self.plan;
        plan.limit
    }

    /// Whether the plan's limit can change the values of a page that prints C, M and Y if `colour`.
    pub(crate) fn limits(&self, colour: bool) -> bool
        ensures { result ≡ limits self.now colour }
    {
        self.limit() < most_ink(colour)
    }

    /// Whether the curve of an ink changes no value, judged by its points.
    pub(crate) fn is_plain(&self, ink: Ink) -> bool
        ensures { IsTrue result → (value : ℕ) → value < 256 → toned self.now ink value ≡ value }
    {
        let plan = self.plan;
        let curve = &plan.curves[ink.slot()];
        is_identity(&curve.points)
    }

    /// Lends the curve of an ink.
    pub(crate) fn curve(&self, ink: Ink) -> &Curve
        ensures { (value : ℕ) → value < 256 → slice_index result.now value ≡ toned self.now ink value }
    {
        &self.curves[ink.slot()]
    }
}

/// Returns the largest sum of C, M, Y and K at a pixel of a page that prints C, M and Y if `colour`.
fn most_ink(colour: bool) -> u16
    ensures { result ≡ most_of colour }
{
    if colour { MOST_INK } else { MOST_BLACK }
}

/// Whether these are the two points of the identity curve.
fn is_identity(points: &[(u8, u8)]) -> bool
    ensures { IsTrue result → points.now ≡ identity }
{
    match points {
        [first, last] => *first == (0, 0) && *last == (255, 255),
        _ => false,
    }
}
