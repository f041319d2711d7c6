// Vehicle keys from two numbers: the one way to make a key, which refuses numbers that no text gives.
ghost use Rattle.keys.specs.VehicleDigits.{spelled, vehicle_digit, vehicle_digits};
ghost use Rattle.keys.specs.Vehicles.{numbers};
ghost use Rattle.std.specs.Option.{option_map};
ghost use Rattle.std.specs.Prelude.{◌≡◌, if◌then◌else◌, Some, None};

use crate::vehicle::VehicleKey;

// The base in which vehicle characters count.
const BASE: u64 = 36;

// Characters that stand for the first and for the second number.
const FIRST_CHARACTERS: u32 = 9;

const SECOND_CHARACTERS: u32 = 8;

impl VehicleKey {
    // The key with these two numbers; none where no text gives them.
    // A function by name and no TryFrom of a pair, whose type would not say which number is which.
    pub fn from_numbers(first: u64, second: u64) -> Option<VehicleKey>
        ensures answer { option_map numbers result ≡ (if spelled first second then Some (first, second) else None) }
    {
        if is_spelled(first, FIRST_CHARACTERS) && is_spelled(second, SECOND_CHARACTERS) {
            Some(VehicleKey { first, second })
        } else {
            None
        }
    }
}

// Whether so many vehicle characters can write the number.
fn is_spelled(number: u64, characters: u32) -> bool
    ensures answer { result ≡ vehicle_digits characters number }
{
    if characters == 0 {
        return number == 0;
    }
    is_vehicle_digit(number % BASE) && is_spelled(number / BASE, characters - 1)
}

// Whether the digit is one of a vehicle character: those of I, O and Q are not.
fn is_vehicle_digit(digit: u64) -> bool
    ensures answer { result ≡ vehicle_digit digit }
{
    !matches!(digit, 18 | 24 | 26)
}

#[cfg(test)]
mod tests {
    use super::*;

    // 36 to the ninth and to the eighth: one more than the greatest numbers of nine and of eight characters.
    const NINE_PAST: u64 = 101_559_956_668_416;

    const EIGHT_PAST: u64 = 2_821_109_907_456;

    fn made(first: u64, second: u64) -> bool {
        VehicleKey::from_numbers(first, second).is_some()
    }

    #[test]
    fn least_and_greatest(rt: HostRuntime) {
        assert!(rt; made(0, 0));
        assert!(rt; made(NINE_PAST - 1, EIGHT_PAST - 1));
        assert!(rt; !made(NINE_PAST, 0));
        assert!(rt; !made(0, EIGHT_PAST));
    }

    #[test]
    fn letters_left_out(rt: HostRuntime) {
        assert!(rt; made(17, 19) && !made(18, 0) && !made(0, 18));
        assert!(rt; made(23, 25) && !made(24, 0) && !made(0, 24));
        assert!(rt; made(25, 27) && !made(26, 0) && !made(0, 26 * BASE));
    }
}
