// Numbers as they are written: digits of a base, and nothing else, so no sign, which the library's parsing takes.
ghost use Rattle.std.specs.Prelude.{◌≡◌, ◌≤◌, IfSome};
ghost use Rattle.inquiry.specs.Numbers.{number_of};

// The number that the text writes in the base, if it is one and is at most `largest`.
pub fn number(text: &[u8], base: u8, largest: u16) -> Option<u16>
    ensures value { result ≡ number_of base largest text.now }
    ensures within { IfSome result (λ n. n ≤ largest) }
{
    if text.is_empty() {
        return None;
    }
    let mut value: u32 = 0;
    for byte in text {
        let digit = byte.checked_sub(b'0').filter(|digit| *digit < base)?;
        value = value * u32::from(base) + u32::from(digit);
        if value > u32::from(largest) {
            return None;
        }
    }
    Some(value as u16)
}
