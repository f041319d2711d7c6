// Trouble codes and code keys as text.
// A code text is a letter, a digit from 0 to 3 and three hexadecimal digits in capitals; a code key's is four such digits for the unit, a colon and the code text.
ghost use Rattle.std.specs.Prelude.{◌≡◌, ◌<◌, IfSome};
ghost use Rattle.text.specs.Codes.{CodeKeyFits, TroubleCodeFits, code_key_of, code_key_text, code_text, letter_of, letter_value, trouble_code_of};
ghost use Rattle.text.specs.Digits.{last_digits};

use crate::digits::{number, write_digits};
use crate::from_text::FromText;
use keys::CodeKey;

// A trouble code: two bits for which its letter stands, and fourteen more.
#[derive(Clone, Copy, PartialEq, Eq, Debug)]
pub struct TroubleCode {
    pub bits: u16,
}

const BASE: u64 = 16;

// Digits behind a code's letter, and of a unit.
const LOW_DIGITS: usize = 4;

const UNIT_DIGITS: usize = 4;

// What parts unit and code in a code key's text.
const COLON: u8 = b':';

// How many values a code's low fourteen bits have, those below the two that its letter stands for.
const LOW_VALUES: u16 = 0x4000;

// What a letter stands for in the top two bits.
fn letter_value(b: u8) -> Option<u16>
    ensures answer { result ≡ letter_value b }
    ensures range { IfSome result (λ n. n < 4) }
{
    match b as char {
        'P' => Some(0),
        'C' => Some(1),
        'B' => Some(2),
        'U' => Some(3),
        _ => None,
    }
}

// The letter that stands for the top two bits.
fn letter_of(n: u16) -> u8
    ensures answer { result ≡ letter_of n }
{
    let letter = match n {
        0 => 'P',
        1 => 'C',
        2 => 'B',
        _ => 'U',
    };
    letter as u8
}

// A letter and four digits, of which the first is at most 3.
#[tactic(auto, using(crate::proofs::CodeTexts::own_trouble_code), unfolding(crate::specs::Codes::code_of))]
impl FromText for TroubleCode {
    ghost text = { λ code. code_text code.bits };

    ghost Fits = { TroubleCodeFits };

    ghost value = { trouble_code_of };

    fn from_text(s: &[u8]) -> Option<TroubleCode> {
        let (letter, digits) = s.split_first()?;
        if digits.len() != LOW_DIGITS {
            return None;
        }
        let top = letter_value(*letter)?;
        let low = number(digits, BASE, u64::from(LOW_VALUES - 1))?;
        Some(TroubleCode {
            bits: top * LOW_VALUES + low as u16,
        })
    }
}

// Four digits for the unit, a colon and the text of the code.
#[tactic(auto, using(crate::proofs::CodeTexts::key_laws), unfolding(crate::specs::Codes::code_key_of))]
impl FromText for CodeKey {
    ghost text = { code_key_text };

    ghost Fits = { CodeKeyFits };

    ghost value = { code_key_of };

    fn from_text(s: &[u8]) -> Option<CodeKey> {
        let (unit, [COLON, code @ ..]) = s.split_first_chunk::<UNIT_DIGITS>()? else {
            return None;
        };
        // the code first: it tells by its length alone whether the whole is of the right one
        let code = TroubleCode::from_text(code)?;
        let unit = number(unit, BASE, u16::MAX.into())? as u16;
        Some(code_key(unit, code))
    }
}

// The key of a unit and a code.
fn code_key(unit: u16, code: TroubleCode) -> CodeKey
    ensures answer { result ≡ record { unit = unit; code = code.bits } }
{
    CodeKey {
        unit,
        code: code.bits,
    }
}

// The text of a code. An array and no Display: nothing is allocated, and a code key's text below ends in it.
#[tactic(auto, unfolding(crate::specs::Codes::code_text))]
pub fn write_code(code: u16) -> [u8; 5]
    ensures answer { result ≡ code_text code }
{
    let mut text = [letter_of(code / LOW_VALUES); 5];
    write_digits(&mut text[1..], BASE, u64::from(code % LOW_VALUES));
    text
}

// The text of a code key. An array and no Display, since the trait and the key are both another crate's, and nothing is allocated.
#[tactic(auto, using(crate::proofs::NumberTexts::length_last_digits), unfolding(crate::specs::Codes::code_key_text))]
pub fn write_code_key(key: CodeKey) -> [u8; 10]
    ensures answer { result ≡ code_key_text key }
{
    let mut text = [COLON; 10];
    let (unit, rest) = text.split_at_mut(UNIT_DIGITS);
    write_digits(unit, BASE, key.unit.into());
    rest[1..].copy_from_slice(&write_code(key.code));
    text
}
