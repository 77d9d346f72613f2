//! Numbers that options are given.
ghost use Rattle.std.specs.Prelude.{◌≡◌, ◌<◌, ◌≤◌, Some, option_map, IfSome};
ghost use Rattle.ulfm_command_line.specs.CommandLine.{number_given};

/// The number that an option was given. The command line refuses all others.
pub fn number_given(text: Option<&str>, most: u32) -> Option<u32>
    ensures exact { result ≡ number_given most (option_map (λ s. s.now) text.entry) }
    ensures ranges { IfSome result (λ n. (0 < n) × (n ≤ most)) }
{
    match text {
        Some(text) => number_in(text, most),
        None => None,
    }
}

/// The number of a text, from 1 to the most.
fn number_in(text: &str, most: u32) -> Option<u32>
    ensures exact { result ≡ number_given most (Some text.now) }
    ensures ranges { IfSome result (λ n. (0 < n) × (n ≤ most)) }
{
    match text.parse::<u32>() {
        Ok(number) => {
            if 1 <= number && number <= most {
                Some(number)
            } else {
                None
            }
        }
        Err(_) => None,
    }
}
