// A world in memory, turn by turn, and writers that fail.
use gq_machine::submitted_signals::NoSignal;
use gq_model::phase::Phase;
use gq_output::counted::Counted;
use gq_reports::RunFault;
use gq_reports::asm::asm;
use gq_scenario::node_numbers::NodeNo;
use gq_world::event::Event;
use gq_world::input_settings::InputFault;
use gq_world::world::{Stop, World};
use std::alloc::Global;
use std::io;
use std::io::{Cursor, ErrorKind, Write};

const HELLO: &[u8] =
    b"version = 1\nram = \"64K\"\n[[start]]\nname = \"hello\"\nquantum = \"4K\"\nprogram = '''\nmain\nsay \"hello\"\nend\n'''\n";

const ECHO_OF_AN_INPUT: &[u8] =
    b"version = 3\nram = \"64K\"\ncaps = 2\n[[start]]\nname = \"a\"\nquantum = \"4K\"\ncaps = 0\ninputs = [100, 7]\nprogram = '''\nmain\nin 0\nout\nend\n'''\n";

const TICKER: &[u8] =
    b"version=4\nram='64K'\ncaps=2\n[[start]]\nname='a'\nquantum='4K'\ncaps=0\nsignals=2\nprogram='''\nmain\nend\non 0\nsay \"tick\"\nend\non 1\nend\n'''\n";

// Whether `hello` says its text once, exits, and then does nothing.
fn does_hello(alloc: Global, world: &mut World) -> bool {
    let Some(hello) = world.leaf(b"hello") else {
        return false;
    };
    let mut text = Vec::new(alloc);
    let mut out = Counted::new(Cursor::new(&mut text));
    let turns = world.turn(hello, &mut out) == Ok(Event::Line)
        && world.turn(hello, &mut out) == Ok(Event::Finished)
        && world.turn(hello, &mut out) == Ok(Event::Idle)
        && out.failures() == 0;
    turns && text.as_slice() == b"[init -> hello] hello\n".as_slice()
}

// Whether inputs are set up to their greatest values, refused above them and where there are none, and read.
fn reads_inputs(alloc: Global, world: &mut World) -> bool {
    let Some(a) = world.leaf(b"a") else {
        return false;
    };
    let mut text = Vec::new(alloc);
    let mut out = Counted::new(Cursor::new(&mut text));
    let sets = world.inputs(a) == [100, 7].as_slice()
        && world.set_input(a, 2, 0) == Err(InputFault::NoInput)
        && world.set_input(a, 0, 101) == Err(InputFault::TooLarge)
        && world.set_input(a, 0, 42) == Ok(())
        && world.set_input(a, 1, 7) == Ok(())
        && world.set_input(a, 0, 101) == Err(InputFault::TooLarge);
    let turns = world.turn(a, &mut out) == Ok(Event::Quiet)
        && world.set_input(a, 0, 0) == Ok(())
        && world.turn(a, &mut out) == Ok(Event::Line)
        && world.turn(a, &mut out) == Ok(Event::Finished)
        && world.set_input(a, 0, 1) == Ok(());
    sets && turns && text.as_slice() == b"[init -> a] 42\n".as_slice()
}

// Whether the bounds of signals are reported: of `on 0` a `say` and two steps more, of `on 1` these two. No other signal is there.
fn reports_reactions(world: &World) -> bool {
    let Some(a) = world.leaf(b"a") else {
        return false;
    };
    let (Some(tick), Some(other)) = (world.reaction(a, 0), world.reaction(a, 1)) else {
        return false;
    };
    world.signals(a) == 2
        && (tick.steps, tick.all) == (3, 3)
        && (other.steps, other.all) == (2, 2)
        && world.reaction(a, 2).is_none()
}

// Whether signals are submitted and refused, count once until they are taken, and are taken one after the other.
fn takes_signals(alloc: Global, world: &mut World) -> bool {
    let Some(a) = world.leaf(b"a") else {
        return false;
    };
    let mut text = Vec::new(alloc);
    let mut out = Counted::new(Cursor::new(&mut text));
    let starts = world.turn(a, &mut out) == Ok(Event::Quiet) && world.is_at_rest();
    let submits = world.signal(a, 1) == Ok(())
        && world.signal(a, 0) == Ok(())
        && world.signal(a, 0) == Ok(())
        && world.signal(a, 2) == Err(NoSignal)
        && !world.is_at_rest();
    let takes = world.turn(a, &mut out) == Ok(Event::Quiet)
        && world.turn(a, &mut out) == Ok(Event::Line)
        && world.turn(a, &mut out) == Ok(Event::Quiet)
        && world.turn(a, &mut out) == Ok(Event::Quiet)
        && world.turn(a, &mut out) == Ok(Event::Quiet)
        && world.is_at_rest()
        && world.turn(a, &mut out) == Ok(Event::Idle);
    starts && submits && takes && text.as_slice() == b"[init -> a] tick\n".as_slice()
}

// Whether a world in which signals can be submitted reports their bounds and takes them.
fn reacts(alloc: Global, world: &mut World) -> bool {
    reports_reactions(world) && takes_signals(alloc, world)
}

// Whether a world is stopped once a line of it has room for four bytes alone.
fn stops(world: &mut World) -> bool {
    let Some(hello) = world.leaf(b"hello") else {
        return false;
    };
    let mut page = [0; 4];
    let mut out = Counted::new(page.as_mut_slice());
    let turns = world.turn(hello, &mut out) == Err(Stop::Write)
        && out.failures() == 1
        && world.turn(hello, &mut out) == Err(Stop::Stopped);
    turns && page == *b"[ini"
}

#[test]
fn a_failed_write_leaves_a_prefix_of_the_code(rt: HostRuntime) {
    let mut page = [0; 4];
    let mut out = Counted::new(page.as_mut_slice());
    let cut = asm(rt.alloc(), HELLO, "hello", &mut out);
    let failures = out.failures();
    let is_write = matches!(cut, Err(RunFault::Write));
    assert!(rt; is_write && failures == 1 && page == *b"0001");
}

/// A writer that first fails, then takes nothing, and then takes all; it counts its writes.
#[derive(Drop)]
struct Unsteady {
    writes: u32,
}

impl Write for Unsteady {
    fn write(&mut self, buf: &[u8]) -> io::Result<usize> {
        self.writes = self.writes.saturating_add(1);
        match self.writes {
            1 => Err(io::Error::from(ErrorKind::Other)),
            2 => Ok(0),
            _ => Ok(buf.len()),
        }
    }

    fn flush(&mut self) -> io::Result<()> {
        Ok(())
    }
}

/// What four writes of a byte, of which the last is of none, are answered in turn, and how many had failed after the first, the second and all of them.
fn answers(writer: &mut Unsteady) -> ([Option<usize>; 4], [u64; 3]) {
    let mut out = Counted::new(writer);
    let first = out.write(b"a").ok();
    let one = out.failures();
    let second = out.write(b"a").ok();
    let two = out.failures();
    let third = out.write(b"a").ok();
    let fourth = out.write(b"").ok();
    ([first, second, third, fourth], [one, two, out.failures()])
}

#[test]
fn hands_each_write_on_once(rt: HostRuntime) {
    let mut writer = Unsteady { writes: 0 };
    let answers = answers(&mut writer);
    assert_eq!(rt;
        (answers, writer.writes),
        (([None, Some(0), Some(1), Some(0)], [1, 2, 2]), 4)
    );
}

// Whether the accounts of a world are those before its first turn.
fn reports_first_accounts(world: &World) -> bool {
    let Some(hello) = world.leaf(b"hello") else {
        return false;
    };
    let node = world.node(hello);
    if world.nodes() != 2 || node != NodeNo::new(1) || world.free_pages() != 16 {
        return false;
    }
    let (root, leaf) = (world.account(NodeNo::new(0)), world.account(node));
    root.quota() == 61440 && root.leaf().is_none() && leaf.quota() == 4096 && leaf.caps() == 0
}

// Whether the accounts of a world are those after `hello` has exited.
fn reports_last_accounts(world: &World) -> bool {
    let Some(hello) = world.leaf(b"hello") else {
        return false;
    };
    if world.nodes() != 2 || world.free_pages() != 16 {
        return false;
    }
    let (root, leaf) = (
        world.account(NodeNo::new(0)),
        world.account(world.node(hello)),
    );
    let Some(reported) = leaf.leaf() else {
        return false;
    };
    root.quota() == 65536
        && leaf.quota() == 0
        && reported.used() == 0
        && reported.caps_used() == 0
        && reported.steps() == 2
        && reported.budget() == 2
        && reported.phase() == Phase::Exited
}

// Whether a world says hello once, exits, and reports its accounts before and after.
fn prints_all(alloc: Global, world: &mut World) -> bool {
    reports_first_accounts(world) && does_hello(alloc, world) && reports_last_accounts(world)
}

/// What is tried in a world.
#[derive(Clone, Copy)]
enum Trial {
    Hello,
    FailedWrite,
    Inputs,
    Signals,
}

impl Trial {
    fn is_well(self, alloc: Global, world: &mut World) -> bool {
        match self {
            Trial::Hello => prints_all(alloc, world),
            Trial::FailedWrite => stops(world),
            Trial::Inputs => reads_inputs(alloc, world),
            Trial::Signals => reacts(alloc, world),
        }
    }

    // The scenario in which it is tried.
    fn scenario(self) -> &'static [u8] {
        match self {
            Trial::Hello | Trial::FailedWrite => HELLO,
            Trial::Inputs => ECHO_OF_AN_INPUT,
            Trial::Signals => TICKER,
        }
    }
}

// Whether a trial in a world of its own goes well; nothing where there is no world.
fn tried(alloc: Global, trial: Trial) -> Option<bool> {
    match World::load(alloc, trial.scenario()) {
        Ok(mut world) => {
            let is_well = trial.is_well(alloc, &mut world);
            drop(world);
            Some(is_well)
        }
        Err(_) => None,
    }
}

#[test]
fn says_hello_once_and_reports_accounts(rt: HostRuntime) {
    assert_eq!(rt; tried(rt.alloc(), Trial::Hello), Some(true));
}

#[test]
fn stops_after_a_write_that_fails(rt: HostRuntime) {
    assert_eq!(rt; tried(rt.alloc(), Trial::FailedWrite), Some(true));
}

#[test]
fn reads_inputs_and_refuses_others(rt: HostRuntime) {
    assert_eq!(rt; tried(rt.alloc(), Trial::Inputs), Some(true));
}

#[test]
fn takes_signals_and_refuses_others(rt: HostRuntime) {
    assert_eq!(rt; tried(rt.alloc(), Trial::Signals), Some(true));
}
