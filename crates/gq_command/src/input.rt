//! Reading a scenario or turns whole, up to a limit.
ghost use Rattle.std.specs.Prelude.{◌≡◌, ◌≤◌, IfOk, OnOk, vec_len};
ghost use Rattle.std.specs.Io.KnownBytes.{Consumes, IsAtEnd, ReadConsumes};
ghost use Rattle.std.specs.Io.{ReadsAtMost};
ghost use Rattle.gq_command.specs.Input.{GivesAtMost};

use gq_model::limits::GREATEST_INPUT;
use std::alloc::{AllocError, Global};
use std::io::Read;
use thiserror::Error;

/// The bytes that one read asks for.
pub const CHUNK: usize = 65536;

/// Why an input was not read.
#[derive(Debug, Drop, Error)]
pub enum InputError {
    /// The host has no memory left.
    #[error("host memory refused")]
    Memory(AllocError),
    /// A read failed, or there are more than 18 MiB.
    #[error("file fault")]
    Fault,
}

impl From<AllocError> for InputError {
    ghost use Rattle.gq_command.specs.declared.input.InputError.TheVariants.{Memory};

    ghost from_gives = { λ a e. e ≡ Memory a };

    fn from(refused: AllocError) -> InputError {
        InputError::Memory(refused)
    }
}

/// Reads a reader to its end: the result has all the bytes that it had left.
///
/// It is `Fault` where a read fails, whatever the cause (an interrupted one is not tried again), and
/// where there are more than `GREATEST_INPUT` bytes; `Memory` where the host refuses to hold them. It takes
/// at most `GREATEST_INPUT` and one more byte of the reader, also of one that never ends; after a refusal
/// the bytes taken are lost.
pub fn read_input<R: Read>(alloc: Global, reader: &mut R) -> Result<Vec<u8>, InputError>
    ensures size { IfOk result (λ v. vec_len v ≤ 18874368) }
    ensures bytes { IfOk result (λ v. Consumes (R.remaining reader.old) (R.remaining reader.new) v.items) }
    ensures end { OnOk result (IsAtEnd (R.remaining reader.new)) }
    ensures most { GivesAtMost 18874369 (R.remaining reader.old) (R.remaining reader.new) }
{
    let mut input = Vec::new(alloc);
    let mut buffer = [0; CHUNK];
    while input.len() <= GREATEST_INPUT {
        let asked = CHUNK.min(GREATEST_INPUT + 1 - input.len());
        let taken = read_once(reader, &mut buffer[..asked])?;
        if taken == 0 {
            return Ok(input);
        }
        input.extend_from_slice(&buffer[..taken])?;
    }
    Err(InputError::Fault)
}

/// One read, of which every failure is a file fault. It is the only call of the reader's `read`.
pub fn read_once<R: Read>(reader: &mut R, room: &mut [u8]) -> Result<usize, InputError>
    ensures bound { ReadsAtMost result room.new }
    ensures bytes { ReadConsumes (R.remaining reader.old) (R.remaining reader.new) result room.new }
{
    match reader.read(room) {
        Ok(taken) => Ok(taken),
        Err(_) => Err(InputError::Fault),
    }
}
