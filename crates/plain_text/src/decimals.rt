//! Numbers that are written in decimal digits.

ghost use Rattle.std.specs.Prelude.{◌≡◌, ◌≤◌, IfSome};
ghost use Rattle.std.specs.Char.{is_ascii_digit};
ghost use Rattle.std.specs.List.{list_all};
ghost use Rattle.plain_text.specs.Decimals.{number_up_to};

/// Whether each byte is a decimal digit.
fn are_digits(bytes: &[u8]) -> bool
    ensures { result ≡ list_all is_ascii_digit bytes.now }
{
    bytes.iter().all(|byte| byte.is_ascii_digit())
}

/// The number that the bytes write in decimal digits, if it is at most `limit`. `None` where there are none, or
/// anything but digits, a sign too, or where the number is greater. Leading zeros are allowed. The time is linear in
/// the bytes, and no memory is taken.
pub fn number_up_to(limit: u64, bytes: &[u8]) -> Option<u64>
    ensures value { result ≡ number_up_to limit bytes.now }
    ensures small { IfSome result (λ number. number ≤ limit) }
{
    if !are_digits(bytes) {
        return None;
    }
    let Ok(text) = str::from_utf8(bytes) else {
        return None;
    };
    match text.parse::<u64>() {
        Ok(number) if number <= limit => Some(number),
        _ => None,
    }
}
