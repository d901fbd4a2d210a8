// Numbers and texts as bytes of a key.
ghost use Rattle.std.specs.Prelude.{◌≡◌, ◌++◌, ◌∷◌, [], OnOk};
ghost use Rattle.gq_outcomes.specs.internal.Keys.{number_key, text_key};

use std::alloc::AllocError;

/// Puts a byte.
pub(crate) fn push_byte(key: &mut Vec<u8>, byte: u8) -> Result<(), AllocError>
    ensures { OnOk result (key.new.items ≡ key.old.items ++ byte ∷ []) }
{
    key.push(byte)?;
    Ok(())
}

/// Puts a number: seven bits a byte, the lowest first. Each byte but the last is 128 or more.
#[tactic(auto, using(crate::proofs::keys::Numbers::number_large, crate::proofs::keys::Numbers::number_small))]
pub(crate) fn push_number(key: &mut Vec<u8>, number: u64) -> Result<(), AllocError>
    ensures { OnOk result (key.new.items ≡ key.old.items ++ number_key number) }
{
    let mut left = number;
    while left >= 128 {
        key.push((left % 128) as u8 + 128)?;
        left /= 128;
    }
    key.push(left as u8)?;
    Ok(())
}

/// Puts a text behind its length.
#[tactic(auto, using(crate::proofs::keys::Numbers::each_here))]
pub(crate) fn push_text(key: &mut Vec<u8>, text: &[u8]) -> Result<(), AllocError>
    ensures { OnOk result (key.new.items ≡ key.old.items ++ text_key text.now) }
{
    push_number(key, text.len() as u64)?;
    for byte in text {
        push_number(key, u64::from(*byte))?;
    }
    Ok(())
}

/// Puts numbers behind their count.
#[tactic(auto, using(crate::proofs::keys::Numbers::each_here))]
pub(crate) fn push_numbers(key: &mut Vec<u8>, numbers: &[u32]) -> Result<(), AllocError>
    ensures { OnOk result (key.new.items ≡ key.old.items ++ text_key numbers.now) }
{
    push_number(key, numbers.len() as u64)?;
    for number in numbers {
        push_number(key, u64::from(*number))?;
    }
    Ok(())
}
