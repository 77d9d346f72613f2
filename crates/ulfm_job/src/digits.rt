//! Numbers as texts have them.
ghost use Rattle.std.specs.Prelude.{◌≡◌, ◌≤◌, true, IfSome};
ghost use Rattle.std.specs.Char.{is_ascii_digit};
ghost use Rattle.std.specs.List.{list_all};
ghost use Rattle.ulfm_job.specs.Digits.{is_number, number_in};

/// Whether each of these bytes is a digit.
pub(crate) fn are_digits(bytes: &[u8]) -> bool
    ensures { result ≡ list_all is_ascii_digit bytes.now }
{
    bytes.iter().all(|byte| byte.is_ascii_digit())
}

/// Whether a text is a number: digits alone, of which there are some.
pub fn is_number(text: &str) -> bool
    ensures { result ≡ is_number text.now }
{
    !text.is_empty() && are_digits(text.as_bytes())
}

/// The number of a text of digits alone, if it is at most so much. Zeros may stand before it.
pub fn number_in(text: &str, most: u32) -> Option<u32>
    ensures exact { result ≡ number_in most text.now }
    ensures range { IfSome result (λ n. n ≤ most) }
{
    if is_number(text) {
        read_in(text, most)
    } else {
        None
    }
}

/// The number of these digits, if it is at most so much.
fn read_in(text: &str, most: u32) -> Option<u32>
    requires { is_number text.now ≡ true }
    ensures exact { result ≡ number_in most text.now }
    ensures range { IfSome result (λ n. n ≤ most) }
{
    match text.parse::<u32>() {
        Ok(number) => { if number <= most { Some(number) } else { None } }
        Err(_) => None,
    }
}
