// Reading the marks of a plate.
ghost use Rattle.std.specs.Prelude.{◌≡◌, [], codes};
ghost use Rattle.plan_parts.specs.Gives.{Gives};
ghost use Rattle.plan_parts.specs.Node.{inside};
ghost use Rattle.plan_parts.specs.Reading.{optional};
ghost use Rattle.plan_parts.specs.Printing as spec;

use crate::{ItemReader, ListOf, Mark, Node, Number, Object, PlanFault, Reader};

// Reads a mark of plates of this width and height, in pixels.
#[derive(Drop)]
struct MarkReader {
    spot: bool,
    width: u32,
    height: u32,
}

impl ItemReader for MarkReader {
    type Item = Mark;

    ghost reads = { λ plate _. spec.mark plate.spot plate.width plate.height };

    #[tactic(auto, unfolding(crate::specs::Printing::mark))]
    fn read_item(&self, _earlier: &[Mark], node: Node<'_>) -> Result<Mark, PlanFault> {
        let o = node.object(&["inks", "x", "y", "w", "h"])?;
        let mark = mark_of(&o, self.spot)?;
        if !is_inside(self.width, self.height, &mark) {
            return Err(PlanFault::Range(node.path()?));
        }
        Ok(mark)
    }
}

// Reads a mark from its object, wherever it is.
#[tactic(auto, unfolding(crate::specs::Printing::mark_in))]
fn mark_of(o: &Object<'_>, spot: bool) -> Result<Mark, PlanFault>
    ensures { Gives (λ m. m) result (inside o.now (spec.mark_in spot)) }
{
    let inks = o.required("inks", &MarkInksReader { spot })?;
    let x = o.required("x", &Number(0, 65535))? as u32;
    let y = o.required("y", &Number(0, 65535))? as u32;
    let w = o.required("w", &Number(1, 65535))? as u32;
    let h = o.required("h", &Number(1, 65535))? as u32;
    Ok(Mark { inks, x, y, w, h })
}

fn is_inside(width: u32, height: u32, mark: &Mark) -> bool
    ensures { result ≡ spec.is_inside width height mark.now }
{
    let right = u64::from(mark.x) + u64::from(mark.w);
    let bottom = u64::from(mark.y) + u64::from(mark.h);
    right <= u64::from(width) && bottom <= u64::from(height)
}

// Reads which inks a mark has.
#[derive(Drop)]
struct MarkInksReader {
    spot: bool,
}

impl Reader for MarkInksReader {
    type Out = [bool; 5];

    ghost reads = { λ inks. spec.mark_inks inks.spot };

    #[tactic(auto, unfolding(crate::specs::Printing::mark_inks))]
    fn read(&self, node: Node<'_>) -> Result<[bool; 5], PlanFault> {
        let s = node.text()?;
        let Some(inks) = flags_in(s.as_bytes()) else {
            return Err(PlanFault::Range(node.path()?));
        };
        if !may_have(self.spot, &inks) {
            return Err(PlanFault::Range(node.path()?));
        }
        Ok(inks)
    }
}

fn may_have(spot: bool, inks: &[bool; 5]) -> bool
    ensures { result ≡ spec.may_have spot inks.now }
{
    (inks[0] || inks[1] || inks[2] || inks[3] || inks[4]) && (spot || !inks[4])
}

// Returns which of the letters CMYKS the text has, when it has them in this order and nothing else.
fn flags_in(s: &[u8]) -> Option<[bool; 5]>
    ensures { result ≡ spec.flags_in (codes "CMYKS") s.now }
{
    let (c, s) = taken(b'C', s);
    let (m, s) = taken(b'M', s);
    let (y, s) = taken(b'Y', s);
    let (k, s) = taken(b'K', s);
    let (spot, s) = taken(b'S', s);
    if s.is_empty() {
        Some([c, m, y, k, spot])
    } else {
        None
    }
}

// Returns whether the text starts with the letter, and the rest of the text after it.
fn taken(letter: u8, s: &[u8]) -> (bool, &[u8])
    ensures { let t = spec.taken letter s.now in (result.0 ≡ t.0) × (result.1.now ≡ t.1) }
{
    match s {
        [first, rest @ ..] if *first == letter => (true, rest),
        _ => (false, s),
    }
}

/// Returns the marks of a plan whose plates have this width and height, in pixels: the value of the key
/// `marks` of the top object, or none where the key is absent. Returns the first fault otherwise; a mark that
/// is not inside the plate is one.
#[tactic(auto, unfolding(crate::specs::Printing::marks))]
pub fn marks_in(o: &Object<'_>, spot: bool, width: u32, height: u32) -> Result<Vec<Mark>, PlanFault>
    ensures { Gives (λ v. v.items) result
        (inside o.now (optional (codes "marks") [] (spec.marks spot width height))) }
{
    let item = MarkReader {
        spot,
        width,
        height,
    };
    o.optional("marks", Vec::new(o.alloc), &ListOf(0, 64, item))
}
