// Names: of the required form, new in their list, or defined in another list.
ghost use Rattle.std.specs.Prelude.{◌≡◌, ◌<◌, List, ℕ, IfSome, map, length};
ghost use Rattle.plan_parts.specs.Gives.{Gives};
ghost use Rattle.plan_parts.specs.Node.{at};
ghost use Rattle.plan_parts.specs.Reading as spec;
ghost use Rattle.std.specs.List.{position};
ghost use Rattle.std.specs.Str.{bytes_eq};

use crate::node::{ItemReader, Node, Reader};
use crate::{PlanFault, forms};
use pr_base::PathText;

/// An item that has a name in its list.
pub trait Named {
    ghost named: { Self → List ℕ };

    /// Returns the name.
    fn name(&self) -> &str
        ensures { result.now ≡ named self.now };
}

impl<'a> Node<'a> {
    // Returns the name that the value is: a text of 1 to 16 letters, digits and `_`.
    #[tactic(auto, unfolding(crate::specs::Reading::name))]
    fn name(self) -> Result<&'a str, PlanFault>
        ensures { Gives (λ s. s.now) result (at self.entry spec.name) }
    {
        let s = self.text()?;
        if !forms::is_name(s) {
            return Err(PlanFault::Range(self.path()?));
        }
        Ok(s)
    }
}

/// Reads a name: a text of 1 to 16 letters, digits and `_`. Another text is a fault of range.
#[derive(Drop)]
pub struct Name;

impl Reader for Name {
    type Out = PathText;

    ghost reads = { λ _. spec.name };

    fn read(&self, node: Node<'_>) -> Result<PathText, PlanFault> {
        let s = node.name()?;
        Ok(PathText::of(node.alloc, s)?)
    }
}

/// Reads a file name: a text of 1 to 255 bytes without control codes, in which no part between `/` is empty,
/// `.` or `..`. Another text is a fault of range.
#[derive(Drop)]
pub struct FileName;

impl Reader for FileName {
    type Out = PathText;

    ghost reads = { λ _. spec.file_name };

    #[tactic(auto, unfolding(crate::specs::Reading::file_name))]
    fn read(&self, node: Node<'_>) -> Result<PathText, PlanFault> {
        let s = node.text()?;
        if !forms::is_file_name(s) {
            return Err(PlanFault::Range(node.path()?));
        }
        Ok(PathText::of(node.alloc, s)?)
    }
}

/// Reads a name that none of the earlier items has. A name that one of them has is a fault, `Repeat`.
#[derive(Drop)]
pub struct NewName<'x, T>(pub &'x [T]);

impl<T: Named> Reader for NewName<'_, T> {
    type Out = PathText;

    ghost reads = { λ earlier. spec.new_name (map T.named earlier.0.now) };

    #[tactic(auto, unfolding(crate::specs::Reading::new_name))]
    fn read(&self, node: Node<'_>) -> Result<PathText, PlanFault> {
        let s = node.name()?;
        if index_of(self.0, s).is_some() {
            return Err(PlanFault::Repeat(node.path()?));
        }
        Ok(PathText::of(node.alloc, s)?)
    }
}

/// Reads the name of one of these items, and returns the item's index, from 0. A name that none of them has
/// is a fault, `Unknown`.
#[derive(Drop)]
pub struct Defined<'x, T>(pub &'x [T]);

impl<T: Named> Reader for Defined<'_, T> {
    type Out = usize;

    ghost reads = { λ items. spec.defined (map T.named items.0.now) };

    ghost keeps = { λ items i. i < length items.0.now };

    #[tactic(auto, unfolding(crate::specs::Reading::defined))]
    fn read(&self, node: Node<'_>) -> Result<usize, PlanFault> {
        let s = node.name()?;
        match index_of(self.0, s) {
            Some(i) => Ok(i),
            None => Err(PlanFault::Unknown(node.path()?)),
        }
    }
}

impl<T: Named> ItemReader for Defined<'_, T> {
    type Item = usize;

    ghost reads = { λ items _. spec.defined (map T.named items.0.now) };

    fn read_item(&self, _earlier: &[usize], node: Node<'_>) -> Result<usize, PlanFault> {
        self.read(node)
    }
}

/// Returns the index, from 0, of the first item with the name, if there is one.
pub fn index_of<T: Named>(items: &[T], name: &str) -> Option<usize>
    ensures value { result ≡ spec.index_in (map T.named items.now) name.now }
    ensures within { IfSome result (λ i. i < length items.now) }
{
    index_by(items, name)
}

fn index_by<T: Named>(items: &[T], name: &str) -> Option<usize>
    ensures value { result ≡ position (λ item. bytes_eq (T.named item) name.now) items.now }
    ensures within { IfSome result (λ i. i < length items.now) }
{
    items.iter().position(|item| item.name() == name)
}
