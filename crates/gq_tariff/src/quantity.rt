// Quantities of bytes, as scenarios write them.
ghost use Rattle.std.specs.Prelude.{◌≡◌};
ghost use Rattle.gq_tariff.specs.Quantities.{quantity_on, at_most_40_bits, quantity_of, StartsWithNoDigit};

use thiserror::Error;

/// Why a text is no quantity.
#[derive(Clone, Copy, Debug, PartialEq, Eq, Error)]
pub enum QuantityFault {
    #[error("Q1 Empty")]
    Empty,
    #[error("Q2 BadCharacter")]
    BadCharacter,
    #[error("Q3 TooLarge")]
    TooLarge,
}

/// The greatest quantity.
const GREATEST: u64 = 1 << 40;

/// The quantity that the text writes, in bytes: decimal digits, and then at most one of `K`, `M` and `G`, which stand
/// for 1024, its square and its cube.
///
/// A text with nothing in it is refused as `Empty`, one of another form (a suffix alone too) as `BadCharacter`, and one
/// of this form for more than 2^40 bytes as `TooLarge`.
pub fn read_quantity(text: &[u8]) -> Result<u64, QuantityFault>
    ensures { result ≡ quantity_of text.now }
{
    match text {
        [] => Err(QuantityFault::Empty),
        [b'0'..=b'9', ..] => {
            let (number, suffix) = leading_number(text);
            scaled(number, suffix)
        }
        _ => Err(QuantityFault::BadCharacter),
    }
}

// The number that the digits at the start write, `u64::MAX` in place of a greater one, and the text after them.
fn leading_number(text: &[u8]) -> (u64, &[u8])
    ensures same { at_most_40_bits (quantity_on result.0 result.1.now) ≡ at_most_40_bits (quantity_on 0 text.now) }
    ensures no_digit { StartsWithNoDigit result.1.now }
{
    let mut number: u64 = 0;
    for (i, c) in text.iter().enumerate() {
        if !c.is_ascii_digit() {
            return (number, &text[i..]);
        }
        number = number
            .saturating_mul(10)
            .saturating_add(u64::from(*c - b'0'));
    }
    (number, &[])
}

// The number times what the suffix stands for, if that is a quantity.
fn scaled(number: u64, suffix: &[u8]) -> Result<u64, QuantityFault>
    requires { StartsWithNoDigit suffix.now }
    ensures { result ≡ at_most_40_bits (quantity_on number suffix.now) }
{
    let factor = match suffix {
        [] => 1,
        [b'K'] => 1 << 10,
        [b'M'] => 1 << 20,
        [b'G'] => 1 << 30,
        _ => return Err(QuantityFault::BadCharacter),
    };
    let bytes = number.saturating_mul(factor);
    if bytes <= GREATEST {
        Ok(bytes)
    } else {
        Err(QuantityFault::TooLarge)
    }
}
