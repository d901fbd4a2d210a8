// The greatest use of each account over a run.
ghost use Rattle.std.specs.Prelude.{◌≡◌, ◌+◌, ◌++◌, ◌<◌, ◌≤◌, codes, length, true, false, IfOk, Ok};
ghost use Rattle.gq_model.specs.machine.Accounts.{entry, reported};
ghost use Rattle.gq_model.specs.machine.Amounts.{Ram, Caps, counts_caps};
ghost use Rattle.gq_init.specs.Turn_items.{IsOf};
ghost use Rattle.gq_model.specs.machine.Rest.{as_acts, can_run, greatest_turns, to_rest, while_can};
ghost use Rattle.gq_model.specs.machine.Run.{act_on, begun, run_on, turns_of};
ghost use Rattle.gq_model.specs.texts.Turns.{acts_from, turns_given};
ghost use Rattle.gq_model.specs.machine.Scenario.{components, system};
ghost use Rattle.gq_model.specs.machine.World.{start};
ghost use Rattle.gq_output.specs.Writer_failures.{Writes};
ghost use Rattle.gq_scenario.specs.Component_trees.{version_number};
ghost use Rattle.gq_reports.specs.Command_outcomes.{WritesAs};
ghost use Rattle.gq_world.specs.World_between_turns.{AreOf, greatest_lines};
ghost use Rattle.gq_traces.specs.Account_peaks.{peak_line, peak_lines, peaks_text, quota_in};
ghost use Rattle.gq_traces.specs.First_turns.{turns_in};
ghost use Rattle.gq_traces.specs.Traces_written.{peaks_from, peaks_written};
ghost use Rattle.gq_traces.specs.internal.Peaking.{AllNow, ArePeaksNow, AreRaised, HasAct, HasAll, HasTurns, IsRaised, Peaked, higher};
ghost use Rattle.gq_traces.specs.internal.Printed_steps.{Goes};
ghost use Rattle.gq_traces.specs.internal.Line_acts.{acts_at};
ghost use Rattle.gq_traces.specs.internal.Lines_given.{AreFew, IsFew};

use crate::line_parts::{TraceLine, extend, extend_entry};
use crate::noted::{counted, use_of};
use crate::rests::next_able;
use crate::session_lines::label_of;
use crate::step_output::write_on;
use crate::trace::turns_of;
use arrayvec::ArrayVec;
use gq_init::{TurnItem, line_turns};
use gq_machine::machine::Machine;
use gq_model::act::{Act, TurnLine};
use gq_model::limits::GREATEST_TURNS;
use gq_output::counted::{Counted, WriteFault};
use gq_reports::RunFault;
use gq_scenario::scenario::{LeafNo, Version};
use gq_tariff::Amount;
use gq_world::world::World;
use std::alloc::{AllocError, Global};
use std::io::Write;

/// A use of a resource by a leaf.
#[derive(Clone, Copy)]
pub struct Peak {
    /// How much the leaf holds: bytes, or capabilities.
    pub used: u64,
    /// Its quota then.
    pub quota: u64,
    /// After how many turns of the run that is.
    pub turn: u64,
}

/// The greatest uses of a leaf.
#[derive(Clone, Copy)]
pub struct LeafPeaks {
    /// That of bytes.
    pub ram: Peak,
    /// That of capabilities.
    pub caps: Peak,
}

// ONE LEAF

// The quota of a leaf.
fn quota_of(machine: &Machine, leaf: LeafNo) -> Amount
    requires leaf { leaf < length (components machine.now.scenario) }
    requires leaves { length machine.now.world.leaves ≡ length (components machine.now.scenario) }
    ensures ram { result.ram ≡ quota_in (system machine.now.scenario) Ram leaf machine.now.world }
    ensures caps { counts_caps machine.now.scenario.version ≡ true → result.caps ≡ quota_in (system machine.now.scenario) Caps leaf machine.now.world }
{
    let node = machine.table().node(leaf);
    machine.quota(node)
}

// What a leaf uses, after so many turns.
fn peaks_now(machine: &Machine, leaf: LeafNo, turn: u64) -> LeafPeaks
    requires leaf { leaf < length (components machine.now.scenario) }
    requires leaves { length machine.now.world.leaves ≡ length (components machine.now.scenario) }
    ensures { ArePeaksNow machine.now.scenario machine.now.world leaf turn result }
{
    let used = use_of(machine, leaf).used;
    let quota = quota_of(machine, leaf);
    LeafPeaks {
        ram: Peak {
            used: used.ram,
            quota: quota.ram,
            turn,
        },
        caps: Peak {
            used: used.caps,
            quota: quota.caps,
            turn,
        },
    }
}

// A use, or a later one that is greater.
fn higher(old: Peak, new: Peak) -> Peak
    ensures { result ≡ higher old new }
{
    if old.used < new.used { new } else { old }
}

// The greatest uses of a leaf so far, by what it uses after so many turns.
fn raised(machine: &Machine, leaf: LeafNo, old: LeafPeaks, turn: u64) -> LeafPeaks
    requires leaf { leaf < length (components machine.now.scenario) }
    requires leaves { length machine.now.world.leaves ≡ length (components machine.now.scenario) }
    ensures { IsRaised machine.now.scenario machine.now.world leaf turn old result }
{
    let used = use_of(machine, leaf).used;
    if used.ram <= old.ram.used && used.caps <= old.caps.used {
        return old;
    }
    let now = peaks_now(machine, leaf, turn);
    LeafPeaks {
        ram: higher(old.ram, now.ram),
        caps: higher(old.caps, now.caps),
    }
}

// ALL LEAVES

// What all leaves use at the start. Refused only if the host refuses memory.
fn first_peaks(alloc: Global, world: &World) -> Result<Vec<LeafPeaks>, AllocError>
    ensures long { IfOk result (λ all. length all.items ≡ length (components world.now.scenario)) }
    ensures now { IfOk result (λ all. AllNow world.now.scenario world.now.world 0 all.items) }
{
    counted(world);
    let count = world.table().leaf_count();
    let mut peaks = Vec::with_capacity(alloc, count)?;
    for number in 0..count {
        peaks.push(peaks_now(world.machine(), LeafNo::new(number as u32), 0))?;
    }
    Ok(peaks)
}

// The greatest uses of all leaves so far, by what they use after so many turns. It allocates no host memory.
fn raise(world: &World, peaks: &mut [LeafPeaks], turn: u64)
    requires { length peaks.old ≡ length (components world.now.scenario) }
    ensures { AreRaised world.now.scenario world.now.world turn peaks.old peaks.new }
{
    counted(world);
    for number in 0..world.table().leaf_count() {
        let leaf = LeafNo::new(number as u32);
        peaks[number] = raised(world.machine(), leaf, peaks[number], turn);
    }
}

// TURNS

// Turns of a leaf, at least one and at most so many, behind so many others: those that it takes alone, which change no account, and one more. It returns how
// many there were. They allocate no host memory.
#[inline(always)]
fn take_some(world: &mut World, peaks: &mut [LeafPeaks], leaf: LeafNo, turns: u64, most: u32) -> u32
    requires leaf { leaf < length (components world.old.scenario) }
    requires some { 0 < most }
    requires few { turns + most ≤ 18446744073709551615 }
    requires running { world.old.stopped ≡ false }
    requires long { length peaks.old ≡ length (components world.old.scenario) }
    ensures some { 0 < result }
    ensures few { result ≤ most }
    ensures peaked { Peaked 0 (λ runs now. HasTurns (system world.old.scenario) leaf runs turns now result) (turns_of (system world.old.scenario) leaf result)
        turns (turns + result) world.old world.new peaks.old peaks.new }
    ensures able { can_run (system world.old.scenario) world.old.world leaf ≡ true
        → while_can result (system world.old.scenario) world.old.world leaf ≡ (result, world.new.world) }
{
    let left = world.turns_alone(leaf, most);
    if left == 0 {
        return most;
    }
    let taken = most - left + 1;
    let mut line = ArrayVec::new();
    let _event = world.step(leaf, &mut line);
    raise(world, peaks, turns + u64::from(taken));
    taken
}

// So many turns of a leaf behind so many others. They allocate no host memory.
fn take_turns(world: &mut World, peaks: &mut [LeafPeaks], leaf: LeafNo, turns: u64, count: u32)
    requires leaf { leaf < length (components world.old.scenario) }
    requires few { turns + count ≤ 18446744073709551615 }
    requires running { world.old.stopped ≡ false }
    requires long { length peaks.old ≡ length (components world.old.scenario) }
    ensures { Peaked 0 (λ runs now. HasTurns (system world.old.scenario) leaf runs turns now count) (turns_of (system world.old.scenario) leaf count)
        turns (turns + count) world.old world.new peaks.old peaks.new }
{
    let mut done = 0;
    while done < count {
        done += take_some(world, peaks, leaf, turns + u64::from(done), count - done);
    }
}

// What a leaf is given behind so many turns: turns, another value of an input, or a signal. It allocates no host memory.
fn take_act(world: &mut World, peaks: &mut [LeafPeaks], leaf: LeafNo, turns: u64, act: Act)
    requires leaf { leaf < length (components world.old.scenario) }
    requires few { turns + turns_given act ≤ 18446744073709551615 }
    requires running { world.old.stopped ≡ false }
    requires signals { world.old.signals < greatest_lines }
    requires long { length peaks.old ≡ length (components world.old.scenario) }
    ensures { Peaked 1 (λ runs now. HasAct (system world.old.scenario) leaf runs turns now act) (act_on (system world.old.scenario) leaf act)
        turns (turns + turns_given act) world.old world.new peaks.old peaks.new }
{
    match act {
        Act::Turns(count) => take_turns(world, peaks, leaf, turns, count),
        Act::Sets(input, number) => {
            let _set = world.set_input(leaf, usize::from(input), number);
        }
        Act::Submits(signal) => {
            let _submitted = world.signal(leaf, usize::from(signal));
        }
    }
}

// Turns of a leaf as long as it can take one, at most so many, behind so many others. It returns how many. They allocate no host memory.
fn take_able(world: &mut World, peaks: &mut [LeafPeaks], leaf: LeafNo, turns: u64, most: u32) -> u32
    requires leaf { leaf < length (components world.old.scenario) }
    requires few { turns + most ≤ 18446744073709551615 }
    requires running { world.old.stopped ≡ false }
    requires long { length peaks.old ≡ length (components world.old.scenario) }
    ensures few { result ≤ most }
    ensures taken { while_can most (system world.old.scenario) world.old.world leaf ≡ (result, world.new.world) }
    ensures peaked { Peaked 0 (λ runs now. HasTurns (system world.old.scenario) leaf runs turns now result) (turns_of (system world.old.scenario) leaf result)
        turns (turns + result) world.old world.new peaks.old peaks.new }
{
    let mut done = 0;
    while done < most && world.can_run(leaf) {
        done += take_some(world, peaks, leaf, turns + u64::from(done), most - done);
    }
    done
}

// Turns that bring all work to rest, behind so many others. It returns how many. They allocate no host memory.
fn take_rest(world: &mut World, peaks: &mut [LeafPeaks], turns: u64) -> u32
    requires few { turns + greatest_turns ≤ 18446744073709551615 }
    requires running { world.old.stopped ≡ false }
    requires long { length peaks.old ≡ length (components world.old.scenario) }
    ensures few { result ≤ greatest_turns }
    ensures count { result ≡ turns_in (as_acts (to_rest (system world.old.scenario) world.old.world).turns) }
    ensures peaked { Peaked 0
        (λ runs now. HasAll (system world.old.scenario) (as_acts (to_rest (system world.old.scenario) world.old.world).turns) runs turns now)
        (run_on (system world.old.scenario) (as_acts (to_rest (system world.old.scenario) world.old.world).turns)) turns (turns + result)
        world.old world.new peaks.old peaks.new }
{
    let mut taken = 0;
    let mut from = 0;
    while taken < GREATEST_TURNS {
        let Some(leaf) = next_able(world, from) else {
            return taken;
        };
        world.laws();
        taken += take_able(
            world,
            peaks,
            leaf,
            turns + u64::from(taken),
            GREATEST_TURNS - taken,
        );
        from = leaf.index() + 1;
    }
    taken
}

// What a line gives behind so many turns. It returns how many turns that are. It allocates no host memory.
fn take_line(world: &mut World, peaks: &mut [LeafPeaks], turns: u64, line: TurnLine) -> u32
    requires leaf { IsOf (length (components world.old.scenario)) line }
    requires few { IsFew line }
    requires turns { turns + greatest_turns ≤ 18446744073709551615 }
    requires running { world.old.stopped ≡ false }
    requires signals { world.old.signals < greatest_lines }
    requires long { length peaks.old ≡ length (components world.old.scenario) }
    ensures few { result ≤ greatest_turns }
    ensures count { result ≡ turns_in (acts_at (system world.old.scenario) world.old.world line) }
    ensures peaked { Peaked 1 (λ runs now. HasAll (system world.old.scenario) (acts_at (system world.old.scenario) world.old.world line) runs turns now)
        (run_on (system world.old.scenario) (acts_at (system world.old.scenario) world.old.world line)) turns (turns + result)
        world.old world.new peaks.old peaks.new }
{
    match line {
        TurnLine::Gives(leaf, act) => {
            take_act(world, peaks, LeafNo::new(leaf), turns, act);
            line_turns(line)
        }
        TurnLine::Rests => take_rest(world, peaks, turns),
    }
}

// What all lines of a list give, from the start. It returns how many turns that are. It allocates no host memory.
fn take_all(world: &mut World, peaks: &mut [LeafPeaks], turns: &[TurnItem]) -> u64
    requires start { world.old.world ≡ start (system world.old.scenario) }
    requires leaves { AreOf (length (components world.old.scenario)) turns.now }
    requires each { AreFew turns.now }
    requires running { world.old.stopped ≡ false }
    requires signals { world.old.signals + length turns.now ≤ greatest_lines }
    requires long { length peaks.old ≡ length (components world.old.scenario) }
    ensures count { result ≡ turns_in (acts_from (system world.old.scenario) (begun (system world.old.scenario)) turns.now) }
    ensures peaked { Peaked (length turns.now)
        (λ runs now. HasAll (system world.old.scenario) (acts_from (system world.old.scenario) (begun (system world.old.scenario)) turns.now) runs 0 now)
        (run_on (system world.old.scenario) (acts_from (system world.old.scenario) (begun (system world.old.scenario)) turns.now)) 0 result
        world.old world.new peaks.old peaks.new }
{
    let mut taken = 0;
    for item in turns {
        taken += u64::from(take_line(world, peaks, taken, item.line()));
    }
    taken
}

// LINES

// Puts the greatest use of bytes at the end of a line.
fn extend_ram(line: &mut TraceLine, peak: Peak)
    requires { length line.old.items + 79 ≤ 400 }
    ensures bytes { line.new.items ≡ line.old.items ++ entry (codes "used") peak.used ++ entry (codes "quota") peak.quota ++ entry (codes "turn") peak.turn }
    ensures long { length line.new.items ≤ length line.old.items + 79 }
{
    extend_entry(line, b" used", peak.used);
    extend_entry(line, b" quota", peak.quota);
    extend_entry(line, b" turn", peak.turn);
}

// Puts the greatest use of capabilities at the end of a line, where they are counted.
fn extend_caps(line: &mut TraceLine, version: Version, peak: Peak)
    requires { length line.old.items + 79 ≤ 400 }
    ensures bytes { line.new.items ≡ line.old.items ++ reported (version_number version)
        (entry (codes "caps") peak.quota ++ entry (codes "taken") peak.used ++ entry (codes "turn") peak.turn) }
    ensures long { length line.new.items ≤ length line.old.items + 79 }
{
    if version.counts_caps() {
        extend_entry(line, b" caps", peak.quota);
        extend_entry(line, b" taken", peak.used);
        extend_entry(line, b" turn", peak.turn);
    }
}

// The line of a leaf of this label.
fn peak_line(version: Version, label: &[u8], peaks: LeafPeaks) -> TraceLine
    requires { length label.now ≤ 96 }
    ensures { result.items ≡ peak_line (version_number version) label.now peaks }
{
    let mut line = ArrayVec::new();
    extend(&mut line, b"peak ");
    extend(&mut line, label);
    extend_ram(&mut line, peaks.ram);
    extend_caps(&mut line, version, peaks.caps);
    extend(&mut line, b"\n");
    line
}

// Writes the lines of all leaves in preorder. It allocates no host memory.
fn write_lines<W: Write>(world: &World, peaks: &[LeafPeaks], out: &mut Counted<W>) -> bool
    requires { length peaks.now ≡ length (components world.now.scenario) }
    ensures { Goes W.contents out.old out.new true result (peak_lines world.now.scenario.version (components world.now.scenario) peaks.now) }
{
    let table = world.table();
    let version = table.scenario().version();
    let mut going = true;
    for number in 0..table.leaf_count() {
        let label = label_of(table, LeafNo::new(number as u32));
        let line = peak_line(version, label, peaks[number]);
        going = write_on(out, going, line.as_slice());
    }
    going
}

// Takes what the lines of a list give from the start of a world, and writes the greatest uses over it. It allocates no host memory.
fn write_peaks<W: Write>(
    world: &mut World,
    peaks: &mut [LeafPeaks],
    turns: &[TurnItem],
    out: &mut Counted<W>,
) -> Result<(), WriteFault>
    requires start { world.old.world ≡ start (system world.old.scenario) }
    requires leaves { AreOf (length (components world.old.scenario)) turns.now }
    requires each { AreFew turns.now }
    requires running { world.old.stopped ≡ false }
    requires signals { world.old.signals + length turns.now ≤ greatest_lines }
    requires long { length peaks.old ≡ length (components world.old.scenario) }
    requires now { AllNow world.old.scenario world.old.world 0 peaks.old }
    ensures { Writes W.contents out.old out.new
        (peaks_text world.old.scenario (acts_from (system world.old.scenario) (begun (system world.old.scenario)) turns.now)) result }
{
    let _taken = take_all(world, peaks, turns);
    if write_lines(world, peaks, out) {
        Ok(())
    } else {
        Err(WriteFault)
    }
}

// Takes what the lines of a list give from the start of a world, and writes the greatest uses over it.
fn peaks_after<W: Write>(
    alloc: Global,
    world: &mut World,
    turns: &[TurnItem],
    out: &mut Counted<W>,
) -> Result<(), RunFault<'static>>
    requires start { world.old.world ≡ start (system world.old.scenario) }
    requires running { world.old.stopped ≡ false }
    requires leaves { AreOf (length (components world.old.scenario)) turns.now }
    requires each { AreFew turns.now }
    requires signals { world.old.signals + length turns.now ≤ greatest_lines }
    ensures { WritesAs W.contents
        (Ok (peaks_text world.old.scenario (acts_from (system world.old.scenario) (begun (system world.old.scenario)) turns.now))) out.old out.new result }
{
    let mut peaks = match first_peaks(alloc, world) {
        Ok(peaks) => peaks,
        Err(_) => return Err(RunFault::Memory),
    };
    match write_peaks(world, peaks.as_mut_slice(), turns, out) {
        Ok(()) => Ok(()),
        Err(_) => Err(RunFault::Write),
    }
}

// Reads turns, settings and signals, takes them from the start of a world, and writes the greatest uses over them.
fn peaks_of_world<W: Write>(
    alloc: Global,
    world: &mut World,
    turns: &[u8],
    out: &mut Counted<W>,
) -> Result<(), RunFault<'static>>
    requires start { world.old.world ≡ start (system world.old.scenario) }
    requires running { world.old.stopped ≡ false }
    requires signals { world.old.signals ≡ 0 }
    ensures { WritesAs W.contents (peaks_from world.old.scenario turns.now) out.old out.new result }
{
    let turns = turns_of(alloc, world, turns)?;
    peaks_after(alloc, world, turns.as_slice(), out)
}

/// Writes the greatest use of each leaf's account over a run, a line for each leaf in preorder.
///
/// - The greatest number of bytes that the leaf holds after any of the turns, or at the start.
/// - Its quota then, and the first turn after which it is so (0 if it is so from the start).
/// - The same for capabilities, if they are counted.
///
/// If the scenario or the turns are refused, or the host refuses memory, nothing is written; turns need none. After a failed write a prefix of the text was
/// written.
pub fn peaks<W: Write>(
    alloc: Global,
    scenario: &[u8],
    turns: &[u8],
    out: &mut Counted<W>,
) -> Result<(), RunFault<'static>>
    ensures { WritesAs W.contents (peaks_written scenario.now turns.now) out.old out.new result }
{
    let mut world = World::load(alloc, scenario)?;
    let written = peaks_of_world(alloc, &mut world, turns, out);
    world.end();
    written
}
