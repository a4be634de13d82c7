//! Reads hexadecimal numbers of the recorded lines.
/// The value of a hexadecimal digit.
fn digit(byte: u8) -> Option<u32> {
    match byte {
        b'0'..=b'9' => Some(u32::from(byte - b'0')),
        b'a'..=b'f' => Some(u32::from(byte - b'a') + 10),
        _ => None,
    }
}

/// A hexadecimal number of 32 bits.
pub fn number(text: &[u8]) -> Option<u32> {
    let mut number = 0u32;
    for byte in text {
        number = number.checked_mul(16)?.checked_add(digit(*byte)?)?;
    }
    Some(number)
}

/// A hexadecimal number of 8 bits.
pub fn byte(text: &[u8]) -> Option<u8> {
    u8::try_from(number(text)?).ok()
}
