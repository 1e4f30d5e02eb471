// Reading four numbers: the margins of a plate, or the part of an image.
ghost use Rattle.plan_json.specs.Pages as spec;

use plan_parts::{Node, Number, PlanFault, Reader};

/// Reads a list of four numbers up to 65535, the first two from 0 and the last two from `low`.
#[derive(Drop)]
pub(crate) struct FourNumbers {
    pub(crate) low: u64,
}

impl Reader for FourNumbers {
    type Out = [u32; 4];

    ghost reads = { λ numbers. spec.four_numbers numbers.low };

    fn read(&self, node: Node<'_>) -> Result<[u32; 4], PlanFault> {
        let items = node.items(4, 4)?;
        let a = items.required(0, &Number(0, 65535))? as u32;
        let b = items.required(1, &Number(0, 65535))? as u32;
        let c = items.required(2, &Number(self.low, 65535))? as u32;
        let d = items.required(3, &Number(self.low, 65535))? as u32;
        Ok([a, b, c, d])
    }
}
