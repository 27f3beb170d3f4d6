ghost use Rattle.std.specs.Prelude.{◌≡◌};
ghost use Rattle.std.specs.Char.{is_ascii_digit};
ghost use Rattle.std.specs.List.{list_all};
ghost use Rattle.cos_source.specs.Numbers.{has_no_leading_zero, is_digits, number, plain_number};

/// The number that a text writes in decimal digits, where it is at most `limit`. `None` for a text that is empty or has
/// another byte than digits, and for a number past the limit. Leading zeros count for nothing. It takes no memory.
pub fn number(text: &str, limit: u32) -> Option<u32>
    ensures { result ≡ number limit text.now }
{
    if !is_digits(text.as_bytes()) {
        return None;
    }
    let Ok(n) = text.parse::<u32>() else {
        return None;
    };
    if n <= limit { Some(n) } else { None }
}

/// The number that a text writes in decimal digits without leading zeros, where it is at most `limit`; else `None`. It
/// takes no memory.
pub fn plain_number(text: &str, limit: u32) -> Option<u32>
    ensures { result ≡ plain_number limit text.now }
{
    if has_no_leading_zero(text.as_bytes()) {
        number(text, limit)
    } else {
        None
    }
}

/// Whether a text is one digit or more, and nothing else.
pub fn is_digits(text: &[u8]) -> bool
    ensures { result ≡ is_digits text.now }
{
    !text.is_empty() && are_digits(text)
}

fn are_digits(text: &[u8]) -> bool
    ensures { result ≡ list_all is_ascii_digit text.now }
{
    text.iter().all(|byte| byte.is_ascii_digit())
}

fn has_no_leading_zero(text: &[u8]) -> bool
    ensures { result ≡ has_no_leading_zero text.now }
{
    match text {
        [first, _, ..] => *first != b'0',
        _ => true,
    }
}
