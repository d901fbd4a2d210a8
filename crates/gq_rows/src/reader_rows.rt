// What a reader gives, a byte at a time or for ever.
use gq_command::input::{InputError, read_input};
use gq_model::limits::GREATEST_INPUT;
use std::alloc::Global;
use std::io;
use std::io::Read;
use std::test::Fail;

/// Gives the same byte, so many at a time, and so often before it ends or fails.
#[derive(Drop)]
struct Giver {
    byte: u8,
    at_once: usize,
    left: usize,
    fails: bool,
}

impl Read for Giver {
    fn read(&mut self, buf: &mut [u8]) -> io::Result<usize> {
        if self.left == 0 {
            if self.fails {
                return Err(io::Error::from(io::ErrorKind::Interrupted));
            }
            return Ok(0);
        }
        let count = self.at_once.min(buf.len()).min(self.left);
        buf[..count].fill(self.byte);
        self.left -= count;
        Ok(count)
    }
}

fn reader_of(at_once: usize, left: usize, fails: bool) -> Giver {
    Giver {
        byte: b'x',
        at_once,
        left,
        fails,
    }
}

/// Whether 5,000 bytes that come one at a time are read.
fn is_read(alloc: Global) -> Result<bool, InputError> {
    let input = read_input(alloc, &mut reader_of(1, 5000, false))?;
    Ok(input.len() == 5000 && input.iter().all(|byte| *byte == b'x'))
}

/// Whether a text is read as it is.
fn is_read_whole(alloc: Global, text: &[u8]) -> Result<bool, InputError> {
    let mut left = text;
    let input = read_input(alloc, &mut left)?;
    Ok(input.as_slice() == text)
}

#[test]
fn reads_what_comes_a_byte_at_a_time(rt: HostRuntime) -> Result<(), Fail> {
    let are_read = [
        is_read(rt.alloc())?,
        is_read_whole(rt.alloc(), b"one\ntwo")?,
    ];
    assert_eq!(rt; are_read, [true, true]);
    Ok(())
}

#[test]
fn a_failed_read_is_a_file_fault(rt: HostRuntime) {
    let refused = read_input(rt.alloc(), &mut reader_of(1000, 3000, true));
    assert!(rt; matches!(refused, Err(InputError::Fault)));
}

#[test]
fn stops_after_the_limit_and_one_byte(rt: HostRuntime) {
    let mut endless = reader_of(usize::MAX, usize::MAX, false);
    let refused = read_input(rt.alloc(), &mut endless);
    let is_fault = matches!(refused, Err(InputError::Fault));
    assert!(rt; is_fault && endless.left == usize::MAX - GREATEST_INPUT - 1);
}
