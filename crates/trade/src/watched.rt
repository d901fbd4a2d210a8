// Streams that note why they failed, so that `main` can say so.
use std::cell::Cell;
use std::io::{self, ErrorKind, Read, Write};

/// What was noted of a stream: why its last call failed that did, and how many bytes it gave.
#[derive(Clone, Copy)]
pub struct Note {
    pub failure: Option<io::Error>,
    pub read: u64,
}

impl Note {
    /// Nothing yet.
    pub fn new() -> Note {
        Note {
            failure: None,
            read: 0,
        }
    }

    /// Whether whoever reads the stream has gone.
    pub fn is_unread(&self) -> bool {
        match &self.failure {
            Some(error) => error.kind() == ErrorKind::BrokenPipe,
            None => false,
        }
    }
}

/// A reader or a writer of which notes are taken.
#[derive(Drop)]
pub struct Watched<'a, T> {
    stream: T,
    note: &'a Cell<Note>,
}

impl<'a, T> Watched<'a, T> {
    /// A stream of which this note is taken.
    pub fn new(stream: T, note: &'a Cell<Note>) -> Watched<'a, T> {
        Watched { stream, note }
    }
}

// Takes a note of a failure.
pub fn put_down(note: &Cell<Note>, error: io::Error) {
    let mut now = note.get();
    now.failure = Some(error);
    note.set(now);
}

impl<R: Read> Read for Watched<'_, R> {
    fn read(&mut self, buf: &mut [u8]) -> io::Result<usize> {
        let result = self.stream.read(buf);
        match &result {
            Ok(taken) => {
                let mut now = self.note.get();
                now.read = now.read.saturating_add(*taken as u64);
                self.note.set(now);
            }
            Err(error) => put_down(self.note, *error),
        }
        result
    }
}

impl<W: Write> Write for Watched<'_, W> {
    fn write(&mut self, buf: &[u8]) -> io::Result<usize> {
        let result = self.stream.write(buf);
        if let Err(error) = &result {
            put_down(self.note, *error);
        }
        result
    }

    fn flush(&mut self) -> io::Result<()> {
        let result = self.stream.flush();
        if let Err(error) = &result {
            put_down(self.note, *error);
        }
        result
    }
}

/// A writer that takes nothing any more once whoever reads another stream has gone: then nobody is to be reported.
#[derive(Drop)]
pub struct Silenced<'a, W> {
    to: W,
    other: &'a Cell<Note>,
}

impl<'a, W> Silenced<'a, W> {
    /// A writer that falls silent by the note of another stream.
    pub fn new(to: W, other: &'a Cell<Note>) -> Silenced<'a, W> {
        Silenced { to, other }
    }
}

impl<W: Write> Write for Silenced<'_, W> {
    fn write(&mut self, buf: &[u8]) -> io::Result<usize> {
        if self.other.get().is_unread() {
            return Ok(buf.len());
        }
        self.to.write(buf)
    }

    fn flush(&mut self) -> io::Result<()> {
        self.to.flush()
    }
}
