// Whole numbers of a plan.
ghost use Rattle.std.specs.Prelude.{◌≡◌, ◌≤◌};
ghost use Rattle.plan_parts.specs.Reading.{number};

use crate::PlanFault;
use crate::node::{Node, Reader};

/// Reads a whole number from the first to the second, inclusive. Another value is a fault of kind, another
/// number a fault of range.
#[derive(Drop)]
pub struct Number(pub u64, pub u64);

impl Reader for Number {
    type Out = u64;

    ghost reads = { λ range. number range.0 range.1 };

    ghost keeps = { λ range n. n ≤ range.1 };

    #[tactic(auto, unfolding(crate::specs::Reading::number))]
    fn read(&self, node: Node<'_>) -> Result<u64, PlanFault> {
        let Some(n) = node.value.as_u64() else {
            return Err(PlanFault::Kind(node.path()?));
        };
        if n < self.0 || n > self.1 {
            return Err(PlanFault::Range(node.path()?));
        }
        Ok(n)
    }
}
