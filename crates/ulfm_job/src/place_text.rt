//! Places as they are read.
ghost use Rattle.std.specs.Prelude.{◌≡◌, ◌≤◌, IfSome};
ghost use Rattle.ulfm_job.specs.Text.{is_starred, number_of_text, place_of_text, stop_by, stop_of_parts, stop_of_text, unstarred};
ghost use Rattle.ulfm_job.specs.inside.Shortest.{is_shortest};

use crate::digits::{are_digits, number_in};
use crate::place::Place;
use crate::stop::Stop;

/// The place of a text.
pub fn place_of_text(text: &str) -> Option<Place>
    ensures { result ≡ place_of_text text.now }
{
    if text == "-" {
        return Some(Place::Nowhere);
    }
    let Some((first, second)) = text.split_once('+') else {
        return match stop_of_text(text) {
            Some(stop) => Some(Place::One(stop)),
            None => None,
        };
    };
    match (stop_of_text(first), stop_of_text(second)) {
        (Some(first), Some(second)) if first.rank < second.rank => Some(Place::Two(first, second)),
        _ => None,
    }
}

/// The stop of a text: a rank, a dot, and the number of a step, with a star behind it where the rank dies inside that.
fn stop_of_text(text: &str) -> Option<Stop>
    ensures { result ≡ stop_of_text text.now }
{
    match text.split_once('.') {
        Some((rank, step)) => stop_of_parts(rank, step),
        None => None,
    }
}

/// The stop of a rank's text and a step's.
fn stop_of_parts(rank: &str, step: &str) -> Option<Stop>
    ensures { result ≡ stop_of_parts rank.now step.now }
{
    let (number, dies) = unstarred(step);
    stop_by(
        number_of_text(rank, 255),
        number_of_text(number, 65_535),
        dies,
    )
}

/// What stands before the star with which a text ends, if it ends with one, and whether it does.
pub fn unstarred(text: &str) -> (&str, bool)
    ensures kept { result.0.now ≡ unstarred text.now }
    ensures starred { result.1 ≡ is_starred text.now }
{
    match text.split_once('*') {
        Some((front, rest)) => {
            if rest.is_empty() {
                return (front, true);
            }
            (text, false)
        }
        None => (text, false),
    }
}

/// A stop of these numbers, if they are some.
fn stop_by(rank: Option<u16>, at: Option<u16>, dies: bool) -> Option<Stop>
    requires { IfSome rank (λ n. n ≤ 255) }
    ensures { result ≡ stop_by rank at dies }
{
    match (rank, at) {
        (Some(rank), Some(at)) => Some(Stop {
            rank: rank as u8,
            at,
            dies,
        }),
        _ => None,
    }
}

/// The number of a text, at most so much, in the digits in which it is written.
fn number_of_text(text: &str, most: u16) -> Option<u16>
    ensures exact { result ≡ number_of_text most text.now }
    ensures range { IfSome result (λ n. n ≤ most) }
{
    if !is_shortest(text) {
        return None;
    }
    match number_in(text, u32::from(most)) {
        Some(number) => Some(number as u16),
        None => None,
    }
}

/// Whether a text is a number with no 0 before its other digits.
fn is_shortest(text: &str) -> bool
    ensures { result ≡ is_shortest text.now }
{
    match text.as_bytes() {
        [] => false,
        [first, rest @ ..] => {
            first.is_ascii_digit() && are_digits(rest) && (*first != b'0' || rest.is_empty())
        }
    }
}
