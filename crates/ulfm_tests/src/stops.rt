//! Places as they are written, those of a job, and the job at one.

use std::alloc::Global;
use std::test::Fail;
use ulfm_job::{Job, Place, Step, places};
use ulfm_reader::ReadJob;

/// Texts, each with the place that it is as it is written once more.
const TEXTS: [(&str, Option<&str>); 30] = [
    ("-", Some("-")),
    ("0.2", Some("0.2")),
    ("7.255", Some("7.255")),
    ("255.65535", Some("255.65535")),
    ("0.2+1.3", Some("0.2+1.3")),
    ("0.10+7.0", Some("0.10+7.0")),
    ("1.5*", Some("1.5*")),
    ("0.2*+1.3", Some("0.2*+1.3")),
    ("0.2+1.3*", Some("0.2+1.3*")),
    ("0.*", None),
    ("0*.2", None),
    ("0.2**", None),
    ("0.2*3", None),
    ("*", None),
    ("", None),
    ("+", None),
    (".", None),
    ("0", None),
    ("0.", None),
    (".0", None),
    ("0.+2", None),
    ("0.2 ", None),
    ("01.2", None),
    ("0.00", None),
    ("256.0", None),
    ("0.65536", None),
    ("1.2+0.3", None),
    ("1.2+1.3", None),
    ("0.2+1.3+2.0", None),
    ("0.2.3", None),
];

/// Whether a text is read as the place of the other one, or as none.
fn reads(alloc: Global, text: &str, wants: Option<&str>) -> Result<bool, Fail> {
    match (Place::parse(text), wants) {
        (Some(place), Some(wants)) => {
            let written = format!(in alloc; "{place}")?;
            Ok(written.as_str() == wants)
        }
        (None, None) => Ok(true),
        _ => Ok(false),
    }
}

#[test]
fn places_are_read_as_they_are_written(rt: HostRuntime) -> Result<(), Fail> {
    for row in &TEXTS {
        let (text, wants) = *row;
        let is_read = reads(rt.alloc(), text, wants)?;
        assert!(rt; is_read, "{text}");
    }
    Ok(())
}

/// Rank 0 waits for a letter. Rank 1 stops after its second step, and rank 2 if its shrink is refused.
const JOB: &str = r#"
ranks = 3
capacity = 2
turns = 4
step = [
    { rank = 0, op = "recv" },
    { rank = 0, op = "wait", req = 0 },
    { rank = 1, op = "send", to = 0, tag = 1, body = "a" },
    { rank = 1, op = "send", to = 0, tag = 2, body = "b" },
    { rank = 1, op = "stop" },
    { rank = 1, op = "failed" },
    { rank = 2, op = "shrink" },
    { rank = 2, op = "stop", if = { step = 0, is = ["refused"] } },
]
"#;

/// The places of that job with at most so many stops, with a space behind each.
fn written(alloc: Global, stops: u8) -> Result<String, Fail> {
    let job = Job::read(alloc, JOB.as_bytes())?;
    let mut text = String::new(alloc);
    for place in &places(alloc, &job, stops)? {
        let place = *place;
        write!(text, "{place} ")?;
    }
    Ok(text)
}

#[test]
fn a_job_has_these_places(rt: HostRuntime) -> Result<(), Fail> {
    let none = written(rt.alloc(), 0)?;
    assert_eq!(rt; none.as_str(), "- ");
    let one = written(rt.alloc(), 1)?;
    assert_eq!(rt; one.as_str(), "- 0.0 0.1 0.2 1.0 1.1 1.2 2.0 2.0* 2.1 2.2 ");
    let two = written(rt.alloc(), 2)?;
    assert_eq!(rt;
        two.as_str(),
        concat!(
            "- 0.0 0.1 0.2 1.0 1.1 1.2 2.0 2.0* 2.1 2.2 ",
            "0.0+1.0 0.0+1.1 0.0+1.2 0.0+2.0 0.0+2.0* 0.0+2.1 0.0+2.2 ",
            "0.1+1.0 0.1+1.1 0.1+1.2 0.1+2.0 0.1+2.0* 0.1+2.1 0.1+2.2 ",
            "0.2+1.0 0.2+1.1 0.2+1.2 0.2+2.0 0.2+2.0* 0.2+2.1 0.2+2.2 ",
            "1.0+2.0 1.0+2.0* 1.0+2.1 1.0+2.2 1.1+2.0 1.1+2.0* 1.1+2.1 1.1+2.2 ",
            "1.2+2.0 1.2+2.0* 1.2+2.1 1.2+2.2 ",
        )
    );
    Ok(())
}

/// Whether the wait of rank 0 has this number, and names this receive, where ranks stop at a place of a job.
fn waits_in(
    alloc: Global,
    job: &Job,
    place: Place,
    number: usize,
    names: u16,
) -> Result<bool, Fail> {
    if !place.is_inside(job) {
        return Ok(false);
    }
    let made = place.job(alloc, job)?;
    let is_longer = made.len() == job.len() + place.len();
    Ok(is_longer && matches!(made.step(0, number), Some(Step::Wait { req }) if *req == names))
}

/// Whether the wait of rank 0 has this number, and names this receive, where ranks stop at the place of this text.
fn waits_at(alloc: Global, place: &str, number: usize, names: u16) -> Result<bool, Fail> {
    let Some(place) = Place::parse(place) else {
        return Ok(false);
    };
    let job = Job::read(alloc, JOB.as_bytes())?;
    waits_in(alloc, &job, place, number, names)
}

#[test]
fn a_job_at_a_place_names_steps_by_their_new_numbers(rt: HostRuntime) -> Result<(), Fail> {
    let alloc = rt.alloc();
    let rows: [(&str, usize, u16, bool); 8] = [
        ("-", 1, 0, true),
        ("0.0", 2, 1, true),
        ("0.1", 2, 0, true),
        ("0.2+2.1", 1, 0, true),
        ("0.0+1.4", 2, 1, true),
        ("0.3", 1, 0, false),
        ("0.0+2.0*", 2, 1, true),
        ("0.1*", 1, 0, false),
    ];
    for row in &rows {
        let (place, number, names, wants) = *row;
        let waits = waits_at(alloc, place, number, names)?;
        assert_eq!(rt; waits, wants, "{place}");
    }
    Ok(())
}
