// Decimal numbers in texts that were expanded.

ghost use Rattle.std.specs.Prelude.{◌≡◌};
ghost use Rattle.cursor_steps.specs.Numeral.{decimal_number};

/// The number that a text of decimal digits writes, at most the greatest of 32 bits. There is none where the text has
/// another byte, or no digit.
pub fn decimal_number(text: &[u8]) -> Option<u32>
    ensures { result ≡ decimal_number text.now }
{
    if text.is_empty() {
        return None;
    }
    let mut number: u64 = 0;
    for byte in text {
        if !byte.is_ascii_digit() {
            return None;
        }
        number = (number * 10 + u64::from(*byte - b'0')).min(u64::from(u32::MAX));
    }
    Some(number as u32)
}
