// Vehicle keys as text: seventeen vehicle characters, the first nine and the last eight each a number in base 36.
// Every key has its text; two numbers that no text gives are no key, and are refused with 12.
ghost use Rattle.keys.specs.Refusals.{plain};
ghost use Rattle.keys.specs.VehicleDigits.{spelled};
ghost use Rattle.keys.specs.Vehicles.{numbers};
ghost use Rattle.std.specs.Option.{option_map, ok_or};
ghost use Rattle.std.specs.Prelude.{◌≡◌, ℕ, List, length, if◌then◌else◌, Some, None, MatchResult, ◌≢◌};
ghost use Rattle.text.specs.Own.{Own};
ghost use Rattle.text.specs.VehicleKeys.{numbered, vehicle_key_of, vehicle_key_text, vehicle_of};

use crate::digits::{number, write_digits};
use crate::from_text::FromText;
use crate::refusal::TextRefusal;
use keys::VehicleKey;

const BASE: u64 = 36;

// Characters of a text, and of the first number in it.
const LENGTH: usize = 17;

const FIRST_LENGTH: usize = 9;

// Nine characters for the first number and eight for the second; every key has a text, so none is out of range.
#[tactic(auto, using(crate::proofs::VehicleTexts::key_laws), unfolding(crate::specs::VehicleKeys::vehicle_key_of))]
impl FromText for VehicleKey {
    ghost text = { vehicle_key_text };

    ghost Fits = { λ _. Unit {0} };

    ghost value = { vehicle_of };

    fn from_text(s: &[u8]) -> Option<VehicleKey>
        ensures answer { result ≡ vehicle_of s.now }
        ensures own { Own vehicle_of vehicle_key_text (λ _. Unit {0}) }
        ensures numbers { option_map numbers result ≡ vehicle_key_of s.now }
    {
        if s.len() != LENGTH {
            return None;
        }
        let (first, second) = s.split_at(FIRST_LENGTH);
        Some(VehicleKey {
            first: number(first, BASE, u64::MAX)?,
            second: number(second, BASE, u64::MAX)?,
        })
    }
}

// The text of a key. An array and no Display, since the trait and the key are both another crate's, and nothing is allocated.
#[tactic(auto, unfolding(crate::specs::VehicleKeys::vehicle_key_text))]
pub fn write_vehicle_key(key: VehicleKey) -> [u8; LENGTH]
    ensures answer { result ≡ vehicle_key_text key }
{
    let mut text = [0; LENGTH];
    let (first, second) = text.split_at_mut(FIRST_LENGTH);
    write_digits(first, BASE, key.first);
    write_digits(second, BASE, key.second);
    text
}

// The key with these two numbers. A function and no TryFrom, since the trait and the key are both another crate's.
pub fn vehicle_key_from_numbers(first: u64, second: u64) -> Result<VehicleKey, TextRefusal>
    ensures answer { numbered result ≡ ok_or (if spelled first second then Some (first, second) else None) (plain 12) }
    ensures texts { MatchResult result (λ key. vehicle_key_of (vehicle_key_text key) ≡ Some (first, second)) (λ e. (s : List ℕ) → vehicle_key_of s ≢ Some (first, second)) }
{
    VehicleKey::from_numbers(first, second).ok_or(TextRefusal::Malformed)
}
