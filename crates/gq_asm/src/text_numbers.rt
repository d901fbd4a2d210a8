// Numbers of a text.
ghost use Rattle.std.specs.Prelude.{◌≡◌, ◌≤◌, if◌then◌else◌, length, Some, None, IfSome};
ghost use Rattle.gq_model.specs.machine.Lists.{all_of};
ghost use Rattle.gq_model.specs.texts.Letters.{is_digit, spelled_on, number_in};

use gq_model::letters::is_digit;

/// The number that these digits spell, if they are digits.
fn spelled(text: &[u8]) -> Option<u64>
    requires { length text.now ≤ 10 }
    ensures { result ≡ (if all_of is_digit text.now then Some (spelled_on 0 text.now) else None) }
{
    let mut number: u64 = 0;
    for byte in text {
        if !is_digit(*byte) {
            return None;
        }
        number = 10 * number + (*byte - b'0') as u64;
    }
    Some(number)
}

/// The number that one to so many digits spell, if it is from low to high.
pub fn number_in(text: &[u8], digits: usize, low: u32, high: u32) -> Option<u32>
    requires { digits ≤ 10 }
    ensures number { result ≡ number_in digits low high text.now }
    ensures high { IfSome result (λ n. n ≤ high) }
{
    if text.is_empty() || text.len() > digits {
        return None;
    }
    let number = spelled(text)?;
    if number < low as u64 || number > high as u64 {
        return None;
    }
    Some(number as u32)
}
