// Bytes that a text spells in hexadecimal digits of either case, two for each byte.
ghost use Rattle.std.specs.Prelude.{◌≡◌, true, is_some, IfOk, Some};
ghost use Rattle.std.specs.Char.{is_ascii_hexdigit};
ghost use Rattle.gq_model.specs.machine.Lists.{all_of};
ghost use Rattle.gq_scenario.specs.Table_keys.{unhex};

use hex::FromHexError;
use std::alloc::{AllocError, Global};

// Whether each byte is a digit. All are looked at, several at a time.
fn are_digits(text: &[u8]) -> bool
    ensures { result ≡ all_of is_ascii_hexdigit text.now }
{
    let mut are = true;
    for byte in text {
        are &= byte.is_ascii_hexdigit();
    }
    are
}

/// Whether a text spells bytes.
pub fn is_hex(text: &[u8]) -> bool
    ensures { result ≡ is_some (unhex text.now) }
{
    text.len() % 2 == 0 && are_digits(text)
}

/// The bytes that a text spells.
pub fn unhex(alloc: Global, text: &[u8]) -> Result<Vec<u8>, AllocError>
    requires { is_some (unhex text.now) ≡ true }
    ensures { IfOk result (λ bytes. unhex text.now ≡ Some bytes.items) }
{
    match hex::decode(alloc, text) {
        Ok(bytes) => Ok(bytes),
        Err(error) => match error {
            FromHexError::OutOfMemory => Err(AllocError),
            _ => unreachable!(),
        },
    }
}
