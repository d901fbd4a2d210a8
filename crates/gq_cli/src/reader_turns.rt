// A run over the turns of a reader, which are read piece by piece.
ghost use Rattle.std.specs.Prelude.{◌≡◌, ◌++◌, ◌+◌, ◌^◌, ◌<◌, ◌≤◌, ℕ, List, length, false, IfErr, IfOk, OnOk};
ghost use Rattle.std.specs.Io.KnownBytes.{IsAtEnd};
ghost use Rattle.gq_model.specs.machine.Scenario.{components, system};
ghost use Rattle.gq_model.specs.machine.World.{start};
ghost use Rattle.gq_init.specs.TurnReading.{answer};
ghost use Rattle.gq_output.specs.Writer_failures.{written_to};
ghost use Rattle.gq_command.specs.Input.{GivesAtMost};
ghost use Rattle.gq_cli.specs.Executed.{ReadsText};
ghost use Rattle.gq_cli.specs.Early_command_ends.{IsKnown, IsSilent, IsUnread, LeavesWriter};
ghost use Rattle.gq_cli.specs.internal.Running.{EndsAs, HasCome, ReadsTurns};

use crate::execute::{CommandFault, reported};
use gq_command::input::{CHUNK, read_once};
use gq_init::turns::TurnsError;
use gq_init::{NodeTable, TurnItem, TurnReader};
use gq_model::limits::GREATEST_INPUT;
use gq_output::counted::Counted;
use gq_reports::run_fault::RunFault;
use gq_world::run::run_world;
use gq_world::world::World;
use std::alloc::Global;
use std::io::{Read, Write};

/// Runs a world that was loaded over the turns that a reader has.
pub(crate) fn run_loaded<T: Read, W: Write>(
    alloc: Global,
    world: &mut World,
    turns: &mut T,
    out: &mut Counted<W>,
) -> Result<(), CommandFault>
    requires start { world.old.world ≡ start (system world.old.scenario) }
    requires running { world.old.stopped ≡ false }
    requires signals { world.old.signals ≡ 0 }
    ensures ended { IsKnown result → ReadsText (T.remaining turns.old) (T.remaining turns.new) (λ text.
        EndsAs world.old.scenario text result (written_to W.contents out.old) (written_to W.contents out.new)) }
    ensures leaves { LeavesWriter out.old out.new result }
    ensures most { GivesAtMost 18874369 (T.remaining turns.old) (T.remaining turns.new) }
{
    let items = read_turns(alloc, turns, world.table())?;
    match run_world(world, items.as_slice(), out) {
        Ok(()) => Ok(()),
        Err(_) => Err(CommandFault::Write),
    }
}

// Reads the turns of a reader to its end, as `read_input` reads a text: it asks for at most 18 MiB and one more byte.
fn read_turns<R: Read>(
    alloc: Global,
    reader: &mut R,
    table: &NodeTable,
) -> Result<Vec<TurnItem>, CommandFault>
    ensures turns { ReadsTurns table.now (R.remaining reader.old) (R.remaining reader.new) result }
    ensures silent { IfErr result (λ f. IsSilent f) }
    ensures most { GivesAtMost 18874369 (R.remaining reader.old) (R.remaining reader.new) }
{
    let mut turns = TurnReader::new(alloc, table)?;
    if let Err(fault) = read_pieces(reader, &mut turns, table) {
        return Err(fault);
    }
    match turns.finish(table) {
        Ok(items) => Ok(items),
        Err(TurnsError::Memory(_)) => Err(CommandFault::Memory),
        Err(TurnsError::Fault { fault, line }) => {
            let refused = RunFault::Turns { fault, line };
            Err(reported(alloc, refused))
        }
    }
}

// Reads all pieces that a reader has.
fn read_pieces<R: Read>(
    reader: &mut R,
    turns: &mut TurnReader,
    table: &NodeTable,
) -> Result<(), CommandFault>
    requires start { turns.old.size ≡ 0 }
    ensures text { OnOk result (ReadsText (R.remaining reader.old) (R.remaining reader.new) (λ text. (rest : List ℕ) →
        answer table.now turns.new rest ≡ answer table.now turns.old (text ++ rest))) }
    ensures unread { IfErr result (λ f. IsUnread f) }
    ensures most { GivesAtMost 18874369 (R.remaining reader.old) (R.remaining reader.new) }
{
    let mut buffer = [0; CHUNK];
    while turns.size() <= GREATEST_INPUT {
        let asked = CHUNK.min(GREATEST_INPUT + 1 - turns.size());
        let taken = read_piece(reader, &mut buffer[..asked], turns, table)?;
        if taken == 0 {
            return Ok(());
        }
    }
    Err(CommandFault::Read)
}

// Reads a piece that a reader has, and returns how long it is. It is empty at the end alone, where there is room.
fn read_piece<R: Read>(
    reader: &mut R,
    room: &mut [u8],
    turns: &mut TurnReader,
    table: &NodeTable,
) -> Result<usize, CommandFault>
    requires size { turns.old.size + length room.old < 2 ^ 60 }
    ensures come { OnOk result (HasCome table.now (R.remaining reader.old) (R.remaining reader.new) turns.old turns.new) }
    ensures taken { IfOk result (λ n. turns.new.size ≡ turns.old.size + n) }
    ensures bound { IfOk result (λ n. n ≤ length room.old) }
    ensures end { IfOk result (λ n. n ≡ 0 → 0 < length room.old → IsAtEnd (R.remaining reader.new)) }
    ensures unread { IfErr result (λ f. IsUnread f) }
    ensures most { GivesAtMost (length room.old) (R.remaining reader.old) (R.remaining reader.new) }
{
    let taken = read_once(reader, room)?;
    turns.push(&room[..taken], table)?;
    Ok(taken)
}
