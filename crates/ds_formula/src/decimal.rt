//! Whole numbers in decimal digits.

ghost use Rattle.std.specs.Prelude.{◌≡◌, ◌≤◌, ◌-◌, ◌^◌, min, length};
ghost use Rattle.ds_formula.specs.Bytes.{number_from};

/// The number of the digits at the front, 0 where there are none, or the greatest one of 64 bits where it is greater;
/// and what is after them.
#[inline(always)]
pub fn digits(text: &[u8]) -> (u64, &[u8])
    ensures value { result.0 ≡ min (number_from 0 text.now).0 (2 ^ 64 - 1) }
    ensures rest { result.1.now ≡ (number_from 0 text.now).1 }
    ensures shorter { length result.1.now ≤ length text.now }
{
    let mut value = 0u64;
    let mut rest = text;
    while let [digit, after @ ..] = rest
        && digit.is_ascii_digit()
    {
        value = value
            .saturating_mul(10)
            .saturating_add((digit - b'0') as u64);
        rest = after;
    }
    (value, rest)
}
