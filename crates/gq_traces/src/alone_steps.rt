// Steps that a leaf takes alone, many of them in one go.
ghost use Rattle.std.specs.Prelude.{◌≡◌, ℕ, ◌<◌, ◌≤◌, Option, false, length};
ghost use Rattle.gq_bytecode.specs.Nexts.{NoneAlone};
ghost use Rattle.gq_model.specs.machine.Scenario.{components, system};
ghost use Rattle.gq_traces.specs.internal.Alone_positions.{IsStraight, StepsAlone};
ghost use Rattle.gq_traces.specs.internal.Flat.{AllStand, ArePrograms, programs_of};

use crate::noted::counted;
use crate::numbered_program::{Next, NumberedProgram};
use crate::tracker::{Ahead, alone_in, go_to, pass_by, straight_in};
use gq_scenario::scenario::LeafNo;
use gq_world::world::World;

// One step of a leaf, if it takes it alone: it does where an `if`, a `loop` or the end of a body is next. It returns how many there were. It takes no host
// memory.
#[inline(always)]
fn one_alone(
    world: &mut World,
    programs: &[NumberedProgram],
    aheads: &mut [Ahead],
    leaf: LeafNo,
) -> u32
    requires leaf { leaf < length (components world.old.scenario) }
    requires programs { ArePrograms programs.now (programs_of world.old.scenario) }
    requires stand { AllStand programs.now aheads.old }
    requires running { world.old.stopped ≡ false }
    ensures scenario { world.new.scenario ≡ world.old.scenario }
    ensures running { world.new.stopped ≡ false }
    ensures signals { world.new.signals ≡ world.old.signals }
    ensures few { result ≤ 1 }
    ensures steps { StepsAlone (system world.old.scenario) programs.now leaf result world.old.world world.new.world aheads.old aheads.new }
    ensures none { result ≡ 0 → NoneAlone world.new.world leaf }
{
    let top = world.machine().top(leaf);
    if world.turns_alone(leaf, 1) > 0 {
        return 0;
    }
    pass_by(programs, aheads, leaf, top);
    1
}

// Steps of a leaf that it takes alone, at most so many: those of statements with none in them, which stand one after the other and lead on there. It reports
// how many there were. They allocate no host memory.
#[inline(always)]
fn straight_alone(
    world: &mut World,
    programs: &[NumberedProgram],
    aheads: &mut [Ahead],
    leaf: LeafNo,
    count: u32,
    next: Next,
) -> u32
    requires leaf { leaf < length (components world.old.scenario) }
    requires programs { ArePrograms programs.now (programs_of world.old.scenario) }
    requires stand { AllStand programs.now aheads.old }
    requires running { world.old.stopped ≡ false }
    requires some { 0 < count }
    requires straight { IsStraight programs.now aheads.old leaf count next }
    ensures scenario { world.new.scenario ≡ world.old.scenario }
    ensures running { world.new.stopped ≡ false }
    ensures signals { world.new.signals ≡ world.old.signals }
    ensures few { result ≤ count }
    ensures steps { StepsAlone (system world.old.scenario) programs.now leaf result world.old.world world.new.world aheads.old aheads.new }
    ensures none { result ≡ 0 → NoneAlone world.new.world leaf }
{
    let left = world.turns_alone(leaf, count);
    if left == 0 {
        go_to(aheads, leaf, next);
        return count;
    }
    let (taken, next) = straight_in(programs, aheads, leaf, count - left);
    go_to(aheads, leaf, next);
    taken
}

// Steps that a leaf takes alone from where it stands, at most so many, as far as they stand one after the other: at least one, if it can take one. It returns
// how many there were. They allocate no host memory.
#[inline(always)]
fn some_alone(
    world: &mut World,
    programs: &[NumberedProgram],
    aheads: &mut [Ahead],
    leaf: LeafNo,
    most: u32,
) -> u32
    requires leaf { leaf < length (components world.old.scenario) }
    requires programs { ArePrograms programs.now (programs_of world.old.scenario) }
    requires stand { AllStand programs.now aheads.old }
    requires running { world.old.stopped ≡ false }
    requires some { 0 < most }
    ensures scenario { world.new.scenario ≡ world.old.scenario }
    ensures running { world.new.stopped ≡ false }
    ensures signals { world.new.signals ≡ world.old.signals }
    ensures few { result ≤ most }
    ensures steps { StepsAlone (system world.old.scenario) programs.now leaf result world.old.world world.new.world aheads.old aheads.new }
    ensures none { result ≡ 0 → NoneAlone world.new.world leaf }
{
    // The program says how far to look, and no more.
    let most = alone_in(programs, aheads, leaf).max(1).min(most);
    let (count, next) = straight_in(programs, aheads, leaf, most);
    if count == 0 {
        return one_alone(world, programs, aheads, leaf);
    }
    straight_alone(world, programs, aheads, leaf, count, next)
}

/// Steps that a leaf takes alone from where it stands, at most so many. It returns how many there were. Where there were fewer, the leaf can't take its next
/// step alone: others have a part in it, or the leaf can't run. They allocate no host memory.
#[inline(always)]
pub(crate) fn steps_alone(
    world: &mut World,
    programs: &[NumberedProgram],
    aheads: &mut [Ahead],
    leaf: LeafNo,
    most: u32,
) -> u32
    requires leaf { leaf < length (components world.old.scenario) }
    requires programs { ArePrograms programs.now (programs_of world.old.scenario) }
    requires stand { AllStand programs.now aheads.old }
    requires running { world.old.stopped ≡ false }
    ensures scenario { world.new.scenario ≡ world.old.scenario }
    ensures running { world.new.stopped ≡ false }
    ensures signals { world.new.signals ≡ world.old.signals }
    ensures few { result ≤ most }
    ensures steps { StepsAlone (system world.old.scenario) programs.now leaf result world.old.world world.new.world aheads.old aheads.new }
    ensures over { result < most → NoneAlone world.new.world leaf }
{
    counted(world);
    let mut done = 0;
    while done < most {
        let taken = some_alone(world, programs, aheads, leaf, most - done);
        if taken == 0 {
            return done;
        }
        done += taken;
    }
    done
}
