// The order of vehicle keys: by the first number and then by the second.
// It is in a file of its own since the proof that it is total speaks of the key's type.
ghost use Rattle.keys.specs.VehicleOrder.{vehicles_ordered};
ghost use Rattle.keys.specs.Orders.{by_parts};

use crate::key::Key;
use crate::vehicle::VehicleKey;
use std::cmp::Ordering;

impl Key for VehicleKey {
    ghost order = { λ a b. by_parts a.first a.second b.first b.second };

    ghost total = { vehicles_ordered };

    fn compare(self, other: VehicleKey) -> Ordering {
        // part by part: the derived `cmp` compares the second numbers also where the first decide
        self.first
            .cmp(&other.first)
            .then_with(|| self.second.cmp(&other.second))
    }
}
