// Decimal numbers as text: digits without sign and without leading zeros, up to the limit of the type asked for.
// An empty text is no number.
ghost use Rattle.std.specs.Prelude.{◌≡◌, ◌≤◌, IfSome, decimal};
ghost use Rattle.text.specs.Decimals.{decimal_of};

use crate::digits::number;
use crate::from_text::FromText;

const BASE: u64 = 10;

// The number that a text stands for, up to a limit.
#[tactic(auto, unfolding(crate::specs::Decimals::decimal_of))]
pub(crate) fn decimal(s: &[u8], limit: u64) -> Option<u64>
    ensures answer { result ≡ decimal_of limit s.now }
    ensures range { IfSome result (λ n. n ≤ limit) }
{
    match s {
        // nothing, or a leading zero
        [] | [b'0', _, ..] => None,
        _ => number(s, BASE, limit),
    }
}

// One impl for each width: a generic one could promise of its result only what a conversion relates it to, and not the number itself.
#[tactic(auto, using(crate::proofs::DecimalTexts::own_u8))]
impl FromText for u8 {
    ghost text = { decimal };

    ghost Fits = { λ n. n ≤ 255 };

    ghost value = { decimal_of 255 };

    fn from_text(s: &[u8]) -> Option<u8> {
        Some(decimal(s, u8::MAX.into())? as u8)
    }
}

#[tactic(auto, using(crate::proofs::DecimalTexts::own_u16))]
impl FromText for u16 {
    ghost text = { decimal };

    ghost Fits = { λ n. n ≤ 65535 };

    ghost value = { decimal_of 65535 };

    fn from_text(s: &[u8]) -> Option<u16> {
        Some(decimal(s, u16::MAX.into())? as u16)
    }
}

#[tactic(auto, using(crate::proofs::DecimalTexts::own_u32))]
impl FromText for u32 {
    ghost text = { decimal };

    ghost Fits = { λ n. n ≤ 4294967295 };

    ghost value = { decimal_of 4294967295 };

    fn from_text(s: &[u8]) -> Option<u32> {
        Some(decimal(s, u32::MAX.into())? as u32)
    }
}
