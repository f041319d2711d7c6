// Code keys: where a trouble code was reported, and which one.
// Ordered by the unit and then by the code.
ghost use Rattle.keys.specs.Orders.{by_parts};
ghost use Rattle.std.proofs.Common.{rules};

use crate::key::Key;
use std::cmp::Ordering;

#[derive(Clone, Copy, PartialEq, Eq, PartialOrd, Ord, Debug)]
pub struct CodeKey {
    // address of the control unit
    pub unit: u16,
    // trouble code
    pub code: u16,
}

impl Key for CodeKey {
    ghost order = { λ a b. by_parts a.unit a.code b.unit b.code };

    ghost total = { Prim.search rules };

    fn compare(self, other: CodeKey) -> Ordering {
        // part by part: the derived `cmp` compares the codes also where the units decide
        self.unit
            .cmp(&other.unit)
            .then_with(|| self.code.cmp(&other.code))
    }
}
