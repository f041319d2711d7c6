// Vehicle keys: the seventeen characters of a vehicle's number as two whole numbers in base 36.
// A pair of numbers that no such text gives is no vehicle key: the type itself asks for the proof.
ghost use Rattle.keys.specs.VehicleDigits.{spelled};
ghost use Rattle.std.specs.Prelude.{◌≡◌, true};

#[derive(Clone, Copy, PartialEq, Eq, PartialOrd, Ord, Debug)]
pub struct VehicleKey {
    // the first nine characters
    pub first: u64,
    // the last eight characters
    pub second: u64,
    ghost spelled: { spelled first second ≡ true },
}
