//! Numbers that digits write.

ghost use Rattle.std.specs.Prelude.{◌≡◌, ◌<◌, ◌≤◌, ◌^◌, MatchOption};
ghost use Rattle.rtl_lex.specs.Numbers.{decimal, octal, int_of};

/// The number that decimal digits stand for. None where it does not fit.
pub fn decimal(digits: &[u8]) -> Option<u32>
    ensures { MatchOption result (2 ^ 32 ≤ decimal digits.now) (λ n. n ≡ decimal digits.now) }
{
    let mut number: u64 = 0;
    for digit in digits {
        number = number * 10 + u64::from(digit.saturating_sub(b'0'));
        if number >= 1 << 32 {
            return None;
        }
    }
    Some(number as u32)
}

/// The number that octal digits stand for. None where it passes 255.
pub fn octal(digits: &[u8]) -> Option<u8>
    ensures { MatchOption result (2 ^ 8 ≤ octal digits.now) (λ n. n ≡ octal digits.now) }
{
    let mut number: u32 = 0;
    for digit in digits {
        number = number * 8 + u32::from(digit.saturating_sub(b'0'));
        if number >= 1 << 8 {
            return None;
        }
    }
    Some(number as u8)
}

/// The integer that the text of an integer token stands for: decimal digits behind an optional `-`.
///
/// None where it lies outside -2147483648 to 2147483647. No such token comes from `next_token`,
/// which answers `LexFault::Int` there.
pub fn int_of(text: &[u8]) -> Option<i32>
    ensures value { result ≡ int_of text.now }
{
    if text.is_empty() || text[0] != b'-' {
        return i32::try_from(decimal(text)?).ok();
    }
    i32::try_from(-i64::from(decimal(&text[1..])?)).ok()
}
