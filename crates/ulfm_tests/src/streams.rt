//! All of an input and all of a text, by streams that give or take a little at a time, end, or fail.

use std::alloc::Global;
use std::io;
use std::io::{ErrorKind, Read, Write};
use std::test::Fail;
use ulfm_reader::{InputFault, read_front, write_whole};

/// What is read and written.
const TEXT: &str = "0 0 send 1 tag 5 comm 0: sent\n";

/// A reader that gives so many bytes at a time. Behind them it ends, or fails.
struct Gives<'a> {
    left: &'a [u8],
    most: usize,
    fails: bool,
}

impl Read for Gives<'_> {
    fn read(&mut self, buf: &mut [u8]) -> io::Result<usize> {
        if self.fails && self.left.is_empty() {
            return Err(io::Error::from(ErrorKind::Interrupted));
        }
        let n = buf.len().min(self.most);
        self.left.read(&mut buf[..n])
    }
}

/// A writer that takes so many bytes at a time, and so many in all. Behind them it takes nothing, or fails.
struct Takes {
    taken: Vec<u8>,
    most: usize,
    room: usize,
    fails: bool,
}

impl Write for Takes {
    fn write(&mut self, buf: &[u8]) -> io::Result<usize> {
        if self.fails && self.room == 0 {
            return Err(io::Error::from(ErrorKind::Interrupted));
        }
        let n = buf.len().min(self.most).min(self.room);
        self.taken.extend_from_slice(&buf[..n])?;
        self.room -= n;
        Ok(n)
    }

    fn flush(&mut self) -> io::Result<()> {
        Ok(())
    }
}

#[test]
fn an_input_is_read_to_its_end(rt: HostRuntime) -> Result<(), Fail> {
    for most in [1, 7, usize::MAX] {
        for fails in [false, true] {
            let mut input = Gives {
                left: TEXT.as_bytes(),
                most,
                fails,
            };
            let read = read_front(rt.alloc(), &mut input);
            let Gives {
                left,
                most: _,
                fails: _,
            } = input;
            assert!(rt; left.is_empty(), "{most}");
            match read {
                Ok(bytes) => assert!(rt; !fails && bytes.as_slice() == TEXT.as_bytes(), "{most}"),
                Err(fault) => assert!(rt; fails && fault == InputFault::Failed, "{most}"),
            }
        }
    }
    Ok(())
}

/// What a writer of so much room has of the text in the end, where it takes so many bytes at a time, and whether all was written.
fn written(alloc: Global, most: usize, room: usize, fails: bool) -> (bool, Vec<u8>) {
    let mut output = Takes {
        taken: Vec::new(alloc),
        most,
        room,
        fails,
    };
    let is_whole = write_whole(&mut output, TEXT.as_bytes());
    let Takes {
        taken,
        most: _,
        room: _,
        fails: _,
    } = output;
    (is_whole, taken)
}

#[test]
fn a_text_is_written_up_to_the_room(rt: HostRuntime) {
    for most in [1, 10, usize::MAX] {
        for fails in [false, true] {
            for room in [0, 10, TEXT.len(), TEXT.len() + 1] {
                let (is_whole, taken) = written(rt.alloc(), most, room, fails);
                let n = room.min(TEXT.len());
                assert!(rt; is_whole == (n == TEXT.len()), "{most} {room}");
                assert!(rt; taken.as_slice() == &TEXT.as_bytes()[..n], "{most} {room}");
            }
        }
    }
}
