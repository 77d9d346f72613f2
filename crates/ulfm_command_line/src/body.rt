//! What is written with a status: a value, which is printed at the end.
ghost use Rattle.std.specs.Prelude.{◌≡◌, IfOk, string_bytes};
ghost use Rattle.ulfm_command_line.specs.Body.{body_in};

use crate::failure::{Failure, failed_line};
use crate::place_lines::places_in;
use crate::reply::{good_in, refused_in};
use crate::unknown::{no_goal, no_name, no_place_in, unnamed_in};
use std::alloc::{AllocError, Global};
use ulfm_forms::Form;
use ulfm_job::{JobFault, Place};

/// What is written with a status.
#[derive(Drop)]
pub enum Body {
    /// A job is good: it has so many ranks and steps.
    Good(u8, usize),
    /// A job is refused.
    Refused(JobFault),
    /// A job hasn't this place.
    NoPlace(Place),
    /// A job hasn't the place of this text, which names steps.
    Unnamed(String),
    /// This text names no answer of a job.
    NoGoal(String),
    /// No step of a job has this name.
    NoName(String),
    /// A run failed.
    Failed(Failure),
    /// The places of a job.
    Places(Vec<Place>),
    /// A text that is written already.
    Text(String),
}

impl Body {
    /// Its text in this form.
    ///
    /// # Errors
    ///
    /// `AllocError` where a growth was refused.
    pub fn text(&self, alloc: Global, form: Form) -> Result<String, AllocError>
        ensures { IfOk result (λ text. string_bytes text ≡ body_in form self.now) }
    {
        match self {
            Body::Good(ranks, steps) => good_in(alloc, form, *ranks, *steps),
            Body::Refused(fault) => refused_in(alloc, form, *fault),
            Body::NoPlace(place) => no_place_in(alloc, form, *place),
            Body::Unnamed(text) => unnamed_in(alloc, form, text.as_str()),
            Body::NoGoal(text) => no_goal(alloc, text.as_str()),
            Body::NoName(name) => no_name(alloc, name.as_str()),
            Body::Failed(failure) => String::from_str(alloc, failed_line(form, *failure)),
            Body::Places(places) => places_in(alloc, form, places.as_slice()),
            Body::Text(text) => String::from_str(alloc, text.as_str()),
        }
    }
}
