// Turns with tests that bring all work to rest: a leaf whose next step is wrong takes none.
ghost use Rattle.std.specs.Prelude.{◌≡◌, ◌-◌, ◌<◌, ◌≤◌, if◌then◌else◌, None, length, IfOk, OnOk, OnErr};
ghost use Rattle.gq_model.specs.machine.Rest.{as_acts, round, to_rest, while_can};
ghost use Rattle.gq_model.specs.machine.Run.{run_on, turns_of};
ghost use Rattle.gq_model.specs.machine.Scenario.{components, system};
ghost use Rattle.gq_output.specs.Writer_failures.{written_to};
ghost use Rattle.gq_unverified.specs.internal.Taking.{CountsFailures, HasCome, HasRoom, IsCut, IsNear};

use crate::tested_turns::take_turn;
use gq_laws::turn_step_laws::turn_laws;
use gq_machine::machine::Machine;
use gq_model::limits::GREATEST_TURNS;
use gq_output::counted::{Counted, WriteFault};
use gq_scenario::scenario::LeafNo;
use std::io::Write;

// More rounds than there are turns, so that in the last of them none is taken.
const ROUNDS: u32 = GREATEST_TURNS + 1;

// A turn of a leaf, with its line, if it can take one that is not wrong. Returns whether it took one.
fn try_turn<W: Write>(
    machine: &mut Machine,
    leaf: LeafNo,
    out: &mut Counted<W>,
) -> Result<bool, WriteFault>
    requires count { length machine.old.world.leaves ≡ length (components machine.old.scenario) }
    requires leaf { leaf < length (components machine.old.scenario) }
    requires room { HasRoom machine.old.world 1 }
    ensures scenario { machine.new.scenario ≡ machine.old.scenario }
    ensures near { IsNear machine.old.world machine.new.world 1 }
    ensures taken { IfOk result (λ taken. while_can 1 (system machine.old.scenario) machine.old.world leaf ≡ (if taken then 1 else 0, machine.new.world)) }
    ensures come { OnOk result (HasCome (turns_of (system machine.old.scenario) leaf (while_can 1 (system machine.old.scenario) machine.old.world leaf).0)
        machine.old.world machine.new.world None (written_to W.contents out.old) (written_to W.contents out.new)) }
    ensures cut { OnErr result (IsCut (turns_of (system machine.old.scenario) leaf (while_can 1 (system machine.old.scenario) machine.old.world leaf).0)
        machine.old.world (written_to W.contents out.old) (written_to W.contents out.new)) }
    ensures failures { CountsFailures out.old out.new result }
{
    turn_laws();
    let before = machine.steps(leaf);
    match take_turn(machine, leaf, out) {
        Ok(None) => Ok(machine.steps(leaf) != before),
        Ok(Some(_)) => Ok(false),
        Err(fault) => Err(fault),
    }
}

// The turns of a leaf as long as it can take one that is not wrong, at most so many. Returns how many it took.
fn take_most<W: Write>(
    machine: &mut Machine,
    leaf: LeafNo,
    most: u32,
    out: &mut Counted<W>,
) -> Result<u32, WriteFault>
    requires count { length machine.old.world.leaves ≡ length (components machine.old.scenario) }
    requires leaf { leaf < length (components machine.old.scenario) }
    requires room { HasRoom machine.old.world most }
    ensures scenario { machine.new.scenario ≡ machine.old.scenario }
    ensures near { IfOk result (λ taken. IsNear machine.old.world machine.new.world taken) }
    ensures leaves { length machine.new.world.leaves ≡ length machine.old.world.leaves }
    ensures few { IfOk result (λ taken. taken ≤ most) }
    ensures taken { IfOk result (λ taken. while_can most (system machine.old.scenario) machine.old.world leaf ≡ (taken, machine.new.world)) }
    ensures come { OnOk result (HasCome (turns_of (system machine.old.scenario) leaf (while_can most (system machine.old.scenario) machine.old.world leaf).0)
        machine.old.world machine.new.world None (written_to W.contents out.old) (written_to W.contents out.new)) }
    ensures cut { OnErr result (IsCut (turns_of (system machine.old.scenario) leaf (while_can most (system machine.old.scenario) machine.old.world leaf).0)
        machine.old.world (written_to W.contents out.old) (written_to W.contents out.new)) }
    ensures failures { CountsFailures out.old out.new result }
{
    for taken in 0..most {
        match try_turn(machine, leaf, out) {
            Ok(true) => {}
            Ok(false) => return Ok(taken),
            Err(fault) => return Err(fault),
        }
    }
    Ok(most)
}

// A round: each leaf in turn takes as many turns as it can, of at most so many together. Returns how many more may be taken.
fn take_round<W: Write>(
    machine: &mut Machine,
    most: u32,
    out: &mut Counted<W>,
) -> Result<u32, WriteFault>
    requires count { length machine.old.world.leaves ≡ length (components machine.old.scenario) }
    requires room { HasRoom machine.old.world most }
    ensures scenario { machine.new.scenario ≡ machine.old.scenario }
    ensures leaves { length machine.new.world.leaves ≡ length machine.old.world.leaves }
    ensures few { IfOk result (λ left. left ≤ most) }
    ensures near { IfOk result (λ left. IsNear machine.old.world machine.new.world (most - left)) }
    ensures left { IfOk result (λ left. left ≡ (round (system machine.old.scenario) most machine.old.world 0 (components machine.old.scenario)).left) }
    ensures world { OnOk result (machine.new.world ≡ (round (system machine.old.scenario) most machine.old.world 0 (components machine.old.scenario)).world) }
    ensures come { OnOk result (HasCome
        (run_on (system machine.old.scenario) (as_acts (round (system machine.old.scenario) most machine.old.world 0 (components machine.old.scenario)).turns))
        machine.old.world machine.new.world None (written_to W.contents out.old) (written_to W.contents out.new)) }
    ensures cut { OnErr result (IsCut
        (run_on (system machine.old.scenario) (as_acts (round (system machine.old.scenario) most machine.old.world 0 (components machine.old.scenario)).turns))
        machine.old.world (written_to W.contents out.old) (written_to W.contents out.new)) }
    ensures failures { CountsFailures out.old out.new result }
{
    let mut left = most;
    for number in 0..machine.table().leaf_count() {
        match take_most(machine, LeafNo::new(number as u32), left, out) {
            Ok(taken) => left -= taken,
            Err(fault) => return Err(fault),
        }
    }
    Ok(left)
}

// Turns round by round, up to one in which no leaf takes one, at most 1,000,000. They allocate no host memory.
pub(crate) fn take_rest<W: Write>(
    machine: &mut Machine,
    out: &mut Counted<W>,
) -> Result<(), WriteFault>
    requires count { length machine.old.world.leaves ≡ length (components machine.old.scenario) }
    requires room { HasRoom machine.old.world 1000000 }
    ensures scenario { machine.new.scenario ≡ machine.old.scenario }
    ensures leaves { length machine.new.world.leaves ≡ length machine.old.world.leaves }
    ensures near { OnOk result (IsNear machine.old.world machine.new.world 1000000) }
    ensures come { OnOk result (HasCome (run_on (system machine.old.scenario) (as_acts (to_rest (system machine.old.scenario) machine.old.world).turns))
        machine.old.world machine.new.world None (written_to W.contents out.old) (written_to W.contents out.new)) }
    ensures cut { OnErr result (IsCut (run_on (system machine.old.scenario) (as_acts (to_rest (system machine.old.scenario) machine.old.world).turns))
        machine.old.world (written_to W.contents out.old) (written_to W.contents out.new)) }
    ensures failures { CountsFailures out.old out.new result }
{
    let mut left = GREATEST_TURNS;
    for _round in 0..ROUNDS {
        match take_round(machine, left, out) {
            Ok(rest) if rest == left => return Ok(()),
            Ok(rest) => left = rest,
            Err(fault) => return Err(fault),
        }
    }
    Ok(())
}
