// Bytes of texts and names.
ghost use Rattle.std.specs.Prelude.{◌≡◌};
ghost use Rattle.gq_tariff.specs.Byte_tests.{is_digit};
ghost use Rattle.gq_model.specs.texts.Letters.{is_name_byte, is_name, is_said_byte, is_said};

/// Whether a byte is a digit.
pub fn is_digit(byte: u8) -> bool
    ensures { result ≡ is_digit byte }
{
    byte.is_ascii_digit()
}

/// Whether a byte can stand in a name: a to z, A to Z, 0 to 9, the hyphen and the underscore.
pub fn is_name_byte(byte: u8) -> bool
    ensures { result ≡ is_name_byte byte }
{
    matches!(byte, b'a'..=b'z' | b'A'..=b'Z' | b'0'..=b'9' | b'-' | b'_')
}

/// Whether a byte can stand in a text to say: 0x20 to 0x7e, but no quotation mark.
pub fn is_said_byte(byte: u8) -> bool
    ensures { result ≡ is_said_byte byte }
{
    matches!(byte, b' '..=b'~') && byte != b'"'
}

/// Whether these bytes are a name: 1 to 16 bytes that can stand in one.
pub fn is_name(bytes: &[u8]) -> bool
    ensures { result ≡ is_name bytes.now }
{
    if bytes.is_empty() || bytes.len() > 16 {
        return false;
    }
    for byte in bytes {
        if !is_name_byte(*byte) {
            return false;
        }
    }
    true
}

/// Whether these bytes are a text to say: at most 64 bytes that can stand in one.
pub fn is_said(bytes: &[u8]) -> bool
    ensures { result ≡ is_said bytes.now }
{
    if bytes.len() > 64 {
        return false;
    }
    for byte in bytes {
        if !is_said_byte(*byte) {
            return false;
        }
    }
    true
}
