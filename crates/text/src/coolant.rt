// Coolant temperatures: from -40 to 215 degrees Celsius, which are just the values of a byte.
// Their text is the degrees in decimal, with a minus sign below zero.
ghost use Rattle.std.specs.Option.{option_map};
ghost use Rattle.std.specs.Prelude.{◌≡◌, if◌then◌else◌, Some, None};
ghost use Rattle.text.specs.Coolants.{CoolantFits, below_zero, celsius, coolant_of, coolant_text, from_zero, in_range};
ghost use Rattle.text.specs.Decimals.{decimal_of};

use crate::decimal::decimal;
use crate::from_text::FromText;
use std::fmt;

// A temperature as a control unit sends it.
#[derive(Clone, Copy)]
pub struct Coolant {
    // degrees above -40
    pub raw: u8,
}

// The lowest and the highest temperature in degrees, and the raw value of zero degrees.
const LOWEST: i16 = -40;

const HIGHEST: i16 = 215;

const ZERO: u8 = 40;

impl Coolant {
    // The temperature of so many degrees; none outside the range.
    // It is no TryFrom, since its name says that the number is in degrees.
    pub fn from_celsius(degrees: i16) -> Option<Coolant>
        ensures answer { option_map celsius result ≡ (if in_range degrees then Some degrees else None) }
    {
        if !(LOWEST..=HIGHEST).contains(&degrees) {
            return None;
        }
        Some(Coolant {
            raw: (degrees - LOWEST) as u8,
        })
    }

    // The temperature in degrees. By this name and no From, which would not say what the number counts.
    pub fn celsius(self) -> i16
        ensures answer { result ≡ celsius self }
    {
        i16::from(self.raw) + LOWEST
    }
}

#[tactic(auto, using(std::proofs::lemmas::Int::wraps), unfolding(crate::specs::Coolants::coolant_text))]
impl fmt::Display for Coolant {
    ghost output = { λ coolant. Some (coolant_text coolant) };

    fn fmt<W: fmt::Write>(&self, f: &mut fmt::Formatter<W>) -> fmt::Result {
        write!(f, "{}", self.celsius())
    }
}

// Below zero the degrees stand behind a minus sign.
#[tactic(auto, using(crate::proofs::CoolantTexts::own_coolant), unfolding(crate::specs::Coolants::coolant_of))]
impl FromText for Coolant {
    ghost text = { coolant_text };

    ghost Fits = { CoolantFits };

    ghost value = { coolant_of };

    fn from_text(s: &[u8]) -> Option<Coolant> {
        match s {
            [b'-', degrees @ ..] => below_zero(degrees),
            _ => from_zero(s),
        }
    }
}

// The temperature of so many degrees below zero, from 1 to 40; -0 is none.
fn below_zero(s: &[u8]) -> Option<Coolant>
    ensures answer { result ≡ below_zero (decimal_of 40 s.now) }
{
    match decimal(s, ZERO.into())? {
        0 => None,
        degrees => Some(Coolant {
            raw: ZERO - degrees as u8,
        }),
    }
}

// The temperature of so many degrees from zero up, to 215.
fn from_zero(s: &[u8]) -> Option<Coolant>
    ensures answer { result ≡ from_zero (decimal_of 215 s.now) }
{
    let degrees = decimal(s, u64::from(u8::MAX - ZERO))?;
    Some(Coolant {
        raw: ZERO + degrees as u8,
    })
}
