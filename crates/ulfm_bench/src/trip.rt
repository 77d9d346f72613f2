//! Trips of letters, and the time that they took.
use crate::post::Post;
use std::sync::Wait;
use std::thread::Threads;
use std::time::{Clock, CpuClock, Duration, Instant};
use std::{io, thread};

/// So many letters of so many bytes, at most 1,024.
#[derive(Clone, Copy)]
pub struct Load {
    pub bytes: usize,
    pub count: u32,
}

/// What the letters are made of: the bytes of each are its first.
const FILLED: [u8; 1024] = [b'x'; 1024];

/// Sends the letters: whether each went out.
fn send_all<R: Wait, P: Post>(rt: &R, post: &mut P, load: Load) -> bool {
    let filled = FILLED;
    let bytes = filled.get(..load.bytes).unwrap_or(&[]);
    for _ in 0..load.count {
        if !post.send(rt, bytes) {
            return false;
        }
    }
    true
}

/// Receives the letters: whether each came whole.
fn receive_all<R: Wait, P: Post>(rt: &R, post: &mut P, load: Load) -> bool {
    let mut room = [0; 1024];
    for _ in 0..load.count {
        if post.receive(rt, &mut room) != Some(load.bytes) {
            return false;
        }
    }
    room.get(..load.bytes) == FILLED.get(..load.bytes)
}

/// Sends the letters, each after the answer to the one before: whether each came back whole.
fn ask_all<R: Wait, P: Post>(rt: &R, post: &mut P, load: Load) -> bool {
    let filled = FILLED;
    let bytes = filled.get(..load.bytes).unwrap_or(&[]);
    let mut room = [0; 1024];
    for _ in 0..load.count {
        if !post.send(rt, bytes) || post.receive(rt, &mut room) != Some(load.bytes) {
            return false;
        }
    }
    room.get(..load.bytes) == FILLED.get(..load.bytes)
}

/// Answers the letters with what they brought: whether each answer went back.
fn answer_all<R: Wait, P: Post>(rt: &R, post: &mut P, load: Load) -> bool {
    let mut room = [0; 1024];
    for _ in 0..load.count {
        if post.receive(rt, &mut room) != Some(load.bytes)
            || !post.send(rt, room.get(..load.bytes).unwrap_or(&[]))
        {
            return false;
        }
    }
    true
}

/// How long the letters took from one thread to another, if all came.
///
/// # Errors
///
/// Those of the clock, and of a thread that can't be started.
pub fn one_way<R: Threads + Wait + Clock + Copy + Send + 'static, P: Post + Send + 'static>(
    rt: &R,
    sender: P,
    receiver: P,
    load: Load,
) -> io::Result<Option<Duration>> {
    let mut receiver = receiver;
    let theirs = *rt;
    let start = Instant::now(rt)?;
    let child = thread::spawn(rt, move || {
        let mut sender = sender;
        send_all(&theirs, &mut sender, load)
    })?;
    let came = receive_all(rt, &mut receiver, load);
    let went = child.join(rt);
    let time = start.elapsed(rt)?;
    Ok(if came && went { Some(time) } else { None })
}

/// How long the letters took there and back, each after the one before, if all came back.
///
/// # Errors
///
/// Those of the clock, and of a thread that can't be started.
pub fn there_and_back<R: Threads + Wait + Clock + Copy + Send + 'static, P: Post + Send + 'static>(
    rt: &R,
    asker: P,
    answerer: P,
    load: Load,
) -> io::Result<Option<Duration>> {
    let mut asker = asker;
    let theirs = *rt;
    let start = Instant::now(rt)?;
    let child = thread::spawn(rt, move || {
        let mut answerer = answerer;
        answer_all(&theirs, &mut answerer, load)
    })?;
    let came = ask_all(rt, &mut asker, load);
    let went = child.join(rt);
    let time = start.elapsed(rt)?;
    Ok(if came && went { Some(time) } else { None })
}

/// How much processor time the letters took where one thread sends and receives each, if all came.
///
/// # Errors
///
/// Those of the clock.
pub fn in_one_thread<R: Wait + CpuClock, P: Post>(
    rt: &R,
    both: P,
    load: Load,
) -> io::Result<Option<Duration>> {
    let mut both = both;
    let start = rt.thread_cpu_time()?;
    let came = ask_all(rt, &mut both, load);
    let end = rt.thread_cpu_time()?;
    Ok(if came {
        Some(end.saturating_sub(start))
    } else {
        None
    })
}
