//! What the program can be asked to do.
ghost use Rattle.std.specs.Prelude.{◌≡◌};

use std::alloc::AllocError;
use thiserror::Error;

/// The program and its version, as a line.
pub const VERSION: &str = "trade 2.0.0\n";

/// What is asked of a scenario alone.
#[derive(Clone, Copy, Debug, PartialEq, Eq)]
pub enum ScenarioCommand {
    /// To write the verified budget of each leaf.
    Check,
    /// To write its nodes as a tree.
    Tree,
    /// To write its nodes as a graph for Graphviz.
    Graph,
    /// To write a list of turns that brings all work to rest: in rounds, or by chance from this seed. Then to submit all signals so many times, from 1 to
    /// 100,000, and bring all work to rest after each time.
    Turns(Option<u32>, Option<u32>),
    /// To write the statements by which the outcome could depend on the turns.
    Races,
    /// To write all outcomes, or the turns that lead to the one of this number.
    Outcomes(Option<u32>),
    /// To write what each quantity is at least.
    Size,
}

/// What is fitted of a scenario.
#[derive(Clone, Copy, Debug, PartialEq, Eq)]
pub enum Fitting {
    /// Its quantities.
    Quantities,
    /// Its quantities, and what its programs give.
    Donations,
}

/// What is asked of a leaf of a scenario.
#[derive(Clone, Copy, Debug, PartialEq, Eq)]
pub enum LeafCommand {
    /// To write the code of its program.
    Asm,
    /// To write the text of its program.
    List,
    /// To write it with the numbers of its statements.
    ListNumbers,
    /// To write what its numbers are made of.
    Why,
}

/// What is asked of a scenario and turns.
#[derive(Clone, Copy, Debug, PartialEq, Eq)]
pub enum TurnsCommand {
    /// To run it over them.
    Run,
    /// To write what each turn did, where that is more than a change of registers or bytes.
    Trace,
    /// To write what each turn did.
    TraceAll,
    /// To write what the accounts are made of after the last turn, or after the first so many.
    State(Option<u32>),
    /// To write the greatest use of each account over them.
    Peaks,
}

/// What the words of a command line ask for.
#[derive(Debug, Drop)]
pub enum Command {
    /// Do this with the scenario at this path.
    OfScenario(ScenarioCommand, String),
    /// Do this with a leaf of the scenario at this path; the leaf's name is last.
    OfLeaf(LeafCommand, String, String),
    /// Do this with the scenario at the first path and the turns at the second.
    OfTurns(TurnsCommand, String, String),
    /// Write the scenario at this path with this fitted.
    Fit(Fitting, String),
    /// Report all that is wrong with the scenario at the first path and, where there is a second, with the turns there.
    Faults(String, Option<String>),
    /// Report what this code of a fault means, or without one list all.
    Rule(Option<String>),
    /// Report which version of the program this is.
    Version,
    /// Run the stored form on standard input.
    Stored,
    /// Show this text on standard output.
    Help(String),
}

/// Why words name no command.
#[derive(Debug, Drop, Error)]
pub enum CommandError {
    /// The host has no memory left.
    #[error("host memory refused")]
    Memory(AllocError),
    /// The program has no such command, or it is used with other arguments. The text has the lines that say so, each indented by two blanks: what the
    /// parser found, and the usage of the command that was meant.
    #[error("bad command line")]
    Usage(String),
}

impl From<AllocError> for CommandError {
    ghost use Rattle.gq_command.specs.declared.command.CommandError.TheVariants.{Memory};

    ghost from_gives = { λ a e. e ≡ Memory a };

    fn from(refused: AllocError) -> CommandError {
        CommandError::Memory(refused)
    }
}
