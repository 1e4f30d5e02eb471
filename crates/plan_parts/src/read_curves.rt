// Reading tone curves, one for each ink.
ghost use Rattle.std.specs.Prelude.{◌≡◌, IfOk, codes};
ghost use Rattle.plan_parts.specs.Gives.{Gives};
ghost use Rattle.plan_parts.specs.Node.{inside};
ghost use Rattle.plan_parts.specs.Reading.{optional};
ghost use Rattle.plan_parts.specs.Printing as spec;

use crate::{ItemReader, ListOf, Node, Number, Object, PlanCurve, PlanFault, Reader};
use pr_base::NoMemory;
use std::alloc::Global;

// Reads a point of a curve.
#[derive(Drop)]
struct PointReader;

impl ItemReader for PointReader {
    type Item = (u8, u8);

    ghost reads = { λ _ _. spec.point };

    #[tactic(auto, unfolding(crate::specs::Printing::point))]
    fn read_item(&self, _earlier: &[(u8, u8)], node: Node<'_>) -> Result<(u8, u8), PlanFault> {
        let items = node.items(2, 2)?;
        let x = items.required(0, &Number(0, 255))?;
        let y = items.required(1, &Number(0, 255))?;
        Ok((x as u8, y as u8))
    }
}

// Returns whether the input value of each point is above that of the point before.
fn is_rising(points: &[(u8, u8)]) -> bool
    ensures { result ≡ spec.is_rising points.now }
{
    match points {
        [p, q, ..] => p.0 < q.0 && is_rising(&points[1..]),
        _ => true,
    }
}

// Returns whether the input values rise from 0 to 255.
#[tactic(auto, unfolding(crate::specs::Printing::spans))]
fn spans(points: &[(u8, u8)]) -> bool
    ensures { result ≡ spec.spans points.now }
{
    if points.is_empty() {
        return false;
    }
    points[0].0 == 0 && points[points.len() - 1].0 == 255 && is_rising(points)
}

// Reads the curve of an ink.
#[derive(Drop)]
struct CurveReader;

impl Reader for CurveReader {
    type Out = PlanCurve;

    ghost reads = { λ _. spec.curve };

    #[tactic(auto, unfolding(crate::specs::Printing::curve, crate::specs::Printing::points))]
    fn read(&self, node: Node<'_>) -> Result<PlanCurve, PlanFault> {
        let points = ListOf(2, 32, PointReader).read(node)?;
        if !spans(points.as_slice()) {
            return Err(PlanFault::Range(node.path()?));
        }
        Ok(PlanCurve { points })
    }
}

// Makes the curve that changes no value.
fn identity(alloc: Global) -> Result<PlanCurve, NoMemory>
    ensures { IfOk result (λ c. c ≡ spec.identity) }
{
    let points = vec![in alloc; (0, 0), (255, 255)]?;
    Ok(PlanCurve { points })
}

// Makes five curves that change no value.
fn identities(alloc: Global) -> Result<[PlanCurve; 5], NoMemory>
    ensures { IfOk result (λ c. c ≡ spec.identities) }
{
    let c = identity(alloc)?;
    let m = identity(alloc)?;
    let y = identity(alloc)?;
    let k = identity(alloc)?;
    let s = identity(alloc)?;
    Ok([c, m, y, k, s])
}

// Reads the curve of the ink with this key.
fn curve_of(o: &Object<'_>, key: &str) -> Result<PlanCurve, PlanFault>
    ensures { Gives (λ c. c) result (inside o.now (optional key.now spec.identity spec.curve)) }
{
    o.optional(key, identity(o.alloc)?, &CurveReader)
}

// Reads the curves of all inks from their object.
#[tactic(auto, unfolding(crate::specs::Printing::each_ink))]
fn curves_of(o: &Object<'_>) -> Result<[PlanCurve; 5], PlanFault>
    ensures { Gives (λ c. c) result (inside o.now (spec.each_ink spec.identity spec.curve)) }
{
    let c = curve_of(o, "C")?;
    let m = curve_of(o, "M")?;
    let y = curve_of(o, "Y")?;
    let k = curve_of(o, "K")?;
    let s = curve_of(o, "S")?;
    Ok([c, m, y, k, s])
}

// Reads the curves of all inks.
#[derive(Drop)]
struct CurvesReader {
    spot: bool,
}

impl Reader for CurvesReader {
    type Out = [PlanCurve; 5];

    ghost reads = { λ curves. spec.curves curves.spot };

    #[tactic(auto, unfolding(crate::specs::Printing::curves))]
    fn read(&self, node: Node<'_>) -> Result<[PlanCurve; 5], PlanFault> {
        let o = node.ink_object(self.spot)?;
        curves_of(&o)
    }
}

/// Returns the tone curves of a plan, one for each ink: the value of the key `curves` of the top object, or
/// curves that change no value where the key is absent. S may have a curve only where there is a spot ink.
/// Returns the first fault otherwise.
pub fn curves_in(o: &Object<'_>, spot: bool) -> Result<[PlanCurve; 5], PlanFault>
    ensures { Gives (λ c. c) result
        (inside o.now (optional (codes "curves") spec.identities (spec.curves spot))) }
{
    o.optional("curves", identities(o.alloc)?, &CurvesReader { spot })
}
