// A writer that counts its failures.
ghost use Rattle.std.specs.Prelude.{◌≡◌, ◌+◌, ◌-◌, ◌^◌, ◌<◌, ◌≤◌, ℕ, length, min, IfOk, IfErr, OnOk, OnErr, MatchResult};
ghost use Rattle.std.specs.Io.{WritesAtMost};
ghost use Rattle.std.specs.Io.KnownBytes.{WriteAppends, Keeps, Appends};
ghost use Rattle.gq_output.specs.Writer_failures.{Writes, writer_of, written_to, failures_of};
ghost use Rattle.gq_output.specs.Writes.{failures_after};

use std::io;
use std::io::Write;

/// A writer that counts how often a write failed: each call of `write` hands the bytes to it once, and adds 1 exactly where
/// it fails, whatever the cause, or takes 0 of some bytes. The count stays at 2^64 - 1 once there.
#[derive(Drop)]
pub struct Counted<W> {
    writer: W,
    failures: u64,
}

impl<W: Write> Counted<W> {
    /// A writer without failures so far.
    pub fn new(writer: W) -> Counted<W>
        ensures writer { writer_of result ≡ writer }
        ensures failures { failures_of result ≡ 0 }
    {
        Counted {
            writer,
            failures: 0,
        }
    }

    /// How often a write failed.
    pub fn failures(&self) -> u64
        ensures { result ≡ failures_of self.now }
    {
        self.failures
    }
}

impl<W: Write> Write for Counted<W> {
    ghost contents = { written_to W.contents };

    fn write(&mut self, buf: &[u8]) -> io::Result<usize>
        ensures bound { WritesAtMost result buf.now }
        ensures bytes { WriteAppends (written_to W.contents self.old) (written_to W.contents self.new) result buf.now }
        ensures failures { failures_of self.new ≡ failures_after (failures_of self.old) result (length buf.now) }
    {
        let outcome = self.writer.write(buf);
        let failed = match &outcome {
            Ok(taken) => *taken == 0 && !buf.is_empty(),
            Err(_) => true,
        };
        if failed {
            self.failures = self.failures.saturating_add(1);
        }
        outcome
    }

    fn flush(&mut self) -> io::Result<()>
        ensures bytes { Keeps (written_to W.contents self.old) (written_to W.contents self.new) }
        ensures failures { failures_of self.new ≡ failures_of self.old }
    {
        self.writer.flush()
    }
}

/// A write failed, or took 0 of some bytes.
#[derive(Clone, Copy, Debug, PartialEq, Eq)]
pub struct WriteFault;

/// Writes these bytes, in as many writes as it takes, up to the first that fails. Then a prefix of them went out.
pub fn put<W: Write>(out: &mut Counted<W>, bytes: &[u8]) -> Result<(), WriteFault>
    ensures { Writes W.contents out.old out.new bytes.now result }
{
    let mut done = 0;
    while done < bytes.len() {
        match out.write(&bytes[done..]) {
            Err(_) => return Err(WriteFault),
            Ok(taken) => {
                if taken == 0 {
                    return Err(WriteFault);
                }
                done += taken;
            }
        }
    }
    Ok(())
}
