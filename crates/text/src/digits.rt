// Digits: what each byte stands for, and numbers in a base, read and written.
// One table serves every base: a digit counts where it is below the base.
ghost use Rattle.std.specs.Prelude.{◌≡◌, ◌<◌, ◌≤◌, length, IfSome, Some};
ghost use Rattle.text.specs.Digits.{at_most, digit_byte, digit_of, last_digits, number_of, with_digit};

// The digit of each byte, 255 for a byte that is no vehicle character: it is below no base, so one test tells all that are no digits.
#[rattlefmt::skip]
const DIGITS: [u8; 256] = [
    255, 255, 255, 255, 255, 255, 255, 255, 255, 255, 255, 255, 255, 255, 255, 255,
    255, 255, 255, 255, 255, 255, 255, 255, 255, 255, 255, 255, 255, 255, 255, 255,
    255, 255, 255, 255, 255, 255, 255, 255, 255, 255, 255, 255, 255, 255, 255, 255,
    0, 1, 2, 3, 4, 5, 6, 7, 8, 9, 255, 255, 255, 255, 255, 255,
    255, 10, 11, 12, 13, 14, 15, 16, 17, 255, 19, 20, 21, 22, 23, 255,
    25, 255, 27, 28, 29, 30, 31, 32, 33, 34, 35, 255, 255, 255, 255, 255,
    255, 255, 255, 255, 255, 255, 255, 255, 255, 255, 255, 255, 255, 255, 255, 255,
    255, 255, 255, 255, 255, 255, 255, 255, 255, 255, 255, 255, 255, 255, 255, 255,
    255, 255, 255, 255, 255, 255, 255, 255, 255, 255, 255, 255, 255, 255, 255, 255,
    255, 255, 255, 255, 255, 255, 255, 255, 255, 255, 255, 255, 255, 255, 255, 255,
    255, 255, 255, 255, 255, 255, 255, 255, 255, 255, 255, 255, 255, 255, 255, 255,
    255, 255, 255, 255, 255, 255, 255, 255, 255, 255, 255, 255, 255, 255, 255, 255,
    255, 255, 255, 255, 255, 255, 255, 255, 255, 255, 255, 255, 255, 255, 255, 255,
    255, 255, 255, 255, 255, 255, 255, 255, 255, 255, 255, 255, 255, 255, 255, 255,
    255, 255, 255, 255, 255, 255, 255, 255, 255, 255, 255, 255, 255, 255, 255, 255,
    255, 255, 255, 255, 255, 255, 255, 255, 255, 255, 255, 255, 255, 255, 255, 255,
];

// The digit that a byte stands for.
fn digit(b: u8) -> u8
    ensures answer { result ≡ digit_of b }
{
    DIGITS[usize::from(b)]
}

// A number with one more digit behind it, up to a limit.
fn with_digit(n: u64, d: u8, base: u64, limit: u64) -> Option<u64>
    ensures answer { result ≡ at_most limit (with_digit base (Some n) d) }
{
    let d = u64::from(d);
    if d >= base {
        return None;
    }
    let more = n.checked_mul(base)?.checked_add(d)?;
    (more <= limit).then_some(more)
}

// The number that a text writes in a base, up to a limit.
// A loop with `?`: with try_fold the check leaves the answer open.
#[tactic(auto, using(crate::proofs::Reading::turns))]
pub(crate) fn number(s: &[u8], base: u64, limit: u64) -> Option<u64>
    ensures answer { result ≡ at_most limit (number_of base s.now) }
    ensures range { IfSome result (λ n. n ≤ limit) }
{
    let mut n: u64 = 0;
    for b in s {
        n = with_digit(n, digit(*b), base, limit)?;
    }
    Some(n)
}

// The byte that stands for a digit.
fn digit_byte(d: u64) -> u8
    requires { d < 36 }
    ensures answer { result ≡ digit_byte d }
{
    if d < 10 {
        b'0' + d as u8
    } else {
        b'A' + (d - 10) as u8
    }
}

// Fills the bytes with the last digits of a number in a base.
// By recursion from the last byte: of what a reversed `iter_mut` has written nothing is known.
#[tactic(auto, using(crate::proofs::NumberTexts::written))]
pub(crate) fn write_digits(out: &mut [u8], base: u64, number: u64)
    requires { (0 < base) × (base ≤ 36) }
    ensures after { out.new ≡ last_digits base (length out.old) number }
{
    if let Some((last, front)) = out.split_last_mut() {
        *last = digit_byte(number % base);
        write_digits(front, base, number / base);
    }
}
