// The commands of the program, as its parser takes them and its help shows them.
ghost use Rattle.std.specs.Prelude.{◌≡◌, ◌++◌, IfOk, false, map, codes};
ghost use Rattle.clap.specs.declared.builder.command.Command.TheViews.{out-Command};
ghost use Rattle.clap.specs.Words.{app_of, new_app, new_rule, rule_of, with_rule, with_subcommand};
ghost use Rattle.gq_command.specs.CommandLine.{of_scenario, trade, with_commands, word_rule};
ghost use Rattle.gq_command.specs.internal.Command_entries.{IsParserOf, entered, option_rule_of, optional, taking};

use crate::command::VERSION;
use clap::builder::ValueParser;
use clap::{Arg, ArgAction, Command};
use std::alloc::{AllocError, Global};

// What help says of a command, and what it takes.
#[derive(Clone, Copy)]
pub(crate) struct CommandEntry<'a> {
    name: &'a str,
    takes: Takes,
    flag: Option<Flag<'a>>,
    also: Option<Flag<'a>>,
    about: &'a str,
    usage: &'a str,
}

// The words that a command takes.
#[derive(Clone, Copy)]
pub(crate) enum Takes {
    // The file of a scenario.
    Scenario,
    // The same, and the name of a leaf.
    Leaf,
    // The file of a scenario, and that of turns.
    Turns,
    // The file of a scenario, and that of turns or nothing.
    MaybeTurns,
    // The code of a fault, or nothing.
    Code,
}

// An option of a command, `--` before its name.
#[derive(Clone, Copy)]
pub(crate) struct Flag<'a> {
    name: &'a str,
    kind: FlagKind,
    help: &'a str,
}

// What stands behind an option.
#[derive(Clone, Copy)]
pub(crate) enum FlagKind {
    // Nothing.
    Switch,
    // A number from 0 to 4294967295.
    Number,
    // A number from 1 to 100000.
    Rounds,
}

const CHECK: CommandEntry<'static> = CommandEntry {
    name: "check",
    takes: Takes::Scenario,
    flag: None,
    also: None,
    about: "Print what each leaf of the scenario in the file SCENARIO uses at most, whatever the turns",
    usage: "trade check <SCENARIO>",
};

const RUN: CommandEntry<'static> = CommandEntry {
    name: "run",
    takes: Takes::Turns,
    flag: None,
    also: None,
    about: "Run the scenario in the file SCENARIO over the turns in the file TURNS",
    usage: "trade run <SCENARIO> <TURNS>",
};

const ASM: CommandEntry<'static> = CommandEntry {
    name: "asm",
    takes: Takes::Leaf,
    flag: None,
    also: None,
    about: "Print the code of the leaf LEAF of the scenario in the file SCENARIO, in hexadecimal",
    usage: "trade asm <SCENARIO> <LEAF>",
};

const LIST: CommandEntry<'static> = CommandEntry {
    name: "list",
    takes: Takes::Leaf,
    flag: Some(Flag {
        name: "numbers",
        kind: FlagKind::Switch,
        help: "Print the number of each statement before it",
    }),
    also: None,
    about: "Print the program of the leaf LEAF of the scenario in the file SCENARIO, as text",
    usage: "trade list [--numbers] <SCENARIO> <LEAF>",
};

const TREE: CommandEntry<'static> = CommandEntry {
    name: "tree",
    takes: Takes::Scenario,
    flag: Some(Flag {
        name: "dot",
        kind: FlagKind::Switch,
        help: "Print a graph for Graphviz in its place",
    }),
    also: None,
    about: "Print the components of the scenario in the file SCENARIO as a tree",
    usage: "trade tree [--dot] <SCENARIO>",
};

const TURNS: CommandEntry<'static> = CommandEntry {
    name: "turns",
    takes: Takes::Scenario,
    flag: Some(Flag {
        name: "seed",
        kind: FlagKind::Number,
        help: "Choose the components by chance: the same N gives the same turns",
    }),
    also: Some(Flag {
        name: "signals",
        kind: FlagKind::Rounds,
        help: "Then submit all signals, and bring all work to rest, N times",
    }),
    about: "Print turns that bring all work of the scenario in the file SCENARIO to rest",
    usage: "trade turns [--seed <N>] [--signals <N>] <SCENARIO>",
};

const RACES: CommandEntry<'static> = CommandEntry {
    name: "races",
    takes: Takes::Scenario,
    flag: None,
    also: None,
    about: "Print the statements by which the outcome of the file SCENARIO could depend on the turns",
    usage: "trade races <SCENARIO>",
};

const OUTCOMES: CommandEntry<'static> = CommandEntry {
    name: "outcomes",
    takes: Takes::Scenario,
    flag: Some(Flag {
        name: "turns",
        kind: FlagKind::Number,
        help: "Print the turns that lead to outcome N in their place",
    }),
    also: None,
    about: "Print all ways in which a run of the scenario in the file SCENARIO can end",
    usage: "trade outcomes [--turns <N>] <SCENARIO>",
};

const TRACE: CommandEntry<'static> = CommandEntry {
    name: "trace",
    takes: Takes::Turns,
    flag: Some(Flag {
        name: "all",
        kind: FlagKind::Switch,
        help: "Print steps on registers and bytes, too",
    }),
    also: None,
    about: "Print what each turn of a run did: lines, accounts and sessions that changed",
    usage: "trade trace [--all] <SCENARIO> <TURNS>",
};

const STATE: CommandEntry<'static> = CommandEntry {
    name: "state",
    takes: Takes::Turns,
    flag: Some(Flag {
        name: "at",
        kind: FlagKind::Number,
        help: "Print it after the first N turns",
    }),
    also: None,
    about: "Print what each account is made of after the last turn of a run",
    usage: "trade state [--at <N>] <SCENARIO> <TURNS>",
};

const PEAKS: CommandEntry<'static> = CommandEntry {
    name: "peaks",
    takes: Takes::Turns,
    flag: None,
    also: None,
    about: "Print the greatest use of each account over a run, and after which turn it is first so",
    usage: "trade peaks <SCENARIO> <TURNS>",
};

const SIZE: CommandEntry<'static> = CommandEntry {
    name: "size",
    takes: Takes::Scenario,
    flag: None,
    also: None,
    about: "Print the least quantities under which the scenario in the file SCENARIO is accepted",
    usage: "trade size <SCENARIO>",
};

const FIT: CommandEntry<'static> = CommandEntry {
    name: "fit",
    takes: Takes::Scenario,
    flag: Some(Flag {
        name: "donations",
        kind: FlagKind::Switch,
        help: "Fit what programs give for sessions, too",
    }),
    also: None,
    about: "Print the file SCENARIO with its least quantities in place of its own",
    usage: "trade fit [--donations] <SCENARIO>",
};

const WHY: CommandEntry<'static> = CommandEntry {
    name: "why",
    takes: Takes::Leaf,
    flag: None,
    also: None,
    about: "Print what the numbers of the leaf LEAF of the scenario in the file SCENARIO are made of",
    usage: "trade why <SCENARIO> <LEAF>",
};

const FAULTS: CommandEntry<'static> = CommandEntry {
    name: "faults",
    takes: Takes::MaybeTurns,
    flag: None,
    also: None,
    about: "Print all that is wrong with the scenario in the file SCENARIO, or with the turns in the file TURNS, each with its place",
    usage: "trade faults <SCENARIO> [TURNS]",
};

const RULE: CommandEntry<'static> = CommandEntry {
    name: "rule",
    takes: Takes::Code,
    flag: None,
    also: None,
    about: "Print what the code of a fault means, as V12, and what to do; or a line for each code",
    usage: "trade rule [CODE]",
};

// All commands.
const ENTRIES: [CommandEntry<'static>; 16] = [
    CHECK, RUN, ASM, LIST, TREE, SIZE, FIT, WHY, TURNS, RACES, OUTCOMES, TRACE, STATE, PEAKS,
    FAULTS, RULE,
];

const ABOUT: &str = "Runs components that trade memory and capabilities under quotas";

const USAGE: &str = "trade <COMMAND> ..\n       trade < STORED";

const AFTER: &str = "\
A check prints a line for each leaf: the bytes of its own quantum and the steps that it uses at most.
A run prints what the components write, and after the last turn a line on the account of each.
Without a command, standard input has both: the scenario, a line that is %%, and the turns.
A refusal has a code, as S13 or V12: `trade rule V12` says what it means and what to do, and
`trade faults` where in the file it stands, with all other faults that can be told at once.

Exit status:
  0  done, also when help or the version was asked for
  1  the scenario or the turns were refused, no leaf has the name, no rule the code or no
     outcome the number
  2  bad command line
  3  the host has no memory left
  4  a file could not be opened or read, is longer than 18 MiB, or output could not be written

Examples:
  trade check hello.toml
  trade faults hello.toml
  trade run hello.toml hello.turns
  trade turns hello.toml > hello.turns
  trade trace hello.toml hello.turns
  trade list hello.toml hello
  trade tree --dot hello.toml | dot -Tsvg > hello.svg";

// How the command of this name is used, if there is one.
pub(crate) fn usage_of(name: &str) -> Option<&'static str> {
    for entry in &ENTRIES {
        if entry.name == name {
            return Some(entry.usage);
        }
    }
    None
}

// The command line that the program takes, for the parser.
pub(crate) fn command_line<'a>(alloc: Global) -> Result<Command<'a>, AllocError>
    ensures { IfOk result (λ line. app_of line ≡ trade) }
{
    let line = Command::new(alloc, "trade")
        .about(ABOUT)
        .version(VERSION)
        .override_usage(USAGE)
        .after_help(AFTER)
        .no_binary_name(true)
        .subcommand_required(true);
    with_entries(alloc, line, &ENTRIES)
}

// A command line with the commands of these entries.
fn with_entries<'a>(
    alloc: Global,
    mut line: Command<'a>,
    entries: &[CommandEntry<'a>],
) -> Result<Command<'a>, AllocError>
    ensures { IfOk result (λ new. app_of new ≡ with_commands (app_of line.entry) (map entered entries.now)) }
{
    for entry in entries {
        line = with_entry(alloc, line, entry)?;
    }
    Ok(line)
}

// A command line with the command of one more entry.
fn with_entry<'a>(
    alloc: Global,
    line: Command<'a>,
    entry: &CommandEntry<'a>,
) -> Result<Command<'a>, AllocError>
    ensures { IfOk result (λ new. app_of new ≡ with_subcommand (app_of line.entry) (entered entry.now).top) }
{
    match command_of(alloc, entry) {
        Ok(command) => line.subcommand(command),
        Err(refused) => Err(refused),
    }
}

// The command of an entry, for the parser.
fn command_of<'a>(alloc: Global, entry: &CommandEntry<'a>) -> Result<Command<'a>, AllocError>
    ensures { IfOk result (λ command. IsParserOf (entered entry.now) command) }
{
    let command = with_words(alloc, entry.name, entry.takes)?;
    let command = command.about(entry.about).override_usage(entry.usage);
    let command = with_option(alloc, command, entry.flag)?;
    with_option(alloc, command, entry.also)
}

// A command with an option, where it has one.
fn with_option<'a>(
    alloc: Global,
    command: Command<'a>,
    flag: Option<Flag<'a>>,
) -> Result<Command<'a>, AllocError>
    requires { (out-Command command).has_globals ≡ false }
    ensures { IfOk result (λ new. IsParserOf (optional flag.entry (app_of command.entry)) new) }
{
    match flag {
        Some(flag) => command.arg(option(alloc, flag)),
        None => Ok(command),
    }
}

// A command of this name that takes these words.
fn with_words<'a>(alloc: Global, name: &'a str, takes: Takes) -> Result<Command<'a>, AllocError>
    ensures { IfOk result (λ command. IsParserOf (taking takes name.entry.now) command) }
{
    match takes {
        Takes::Scenario => of_scenario(alloc, name),
        Takes::Leaf => with_second(alloc, name, "LEAF", "The name of the leaf"),
        Takes::Turns => with_second(alloc, name, "TURNS", "The file of the turns"),
        Takes::MaybeTurns => {
            let command = of_scenario(alloc, name)?;
            let turns = Arg::new(alloc, "TURNS").help("The file of the turns");
            command.arg(turns)
        }
        Takes::Code => {
            let code = Arg::new(alloc, "CODE").help("The code of a fault");
            Command::new(alloc, name).arg(code)
        }
    }
}

// A command on the file of a scenario, with a second word.
fn with_second<'a>(
    alloc: Global,
    name: &'a str,
    second: &'a str,
    help: &'a str,
) -> Result<Command<'a>, AllocError>
    ensures { IfOk result (λ command. IsParserOf (with_rule (of_scenario name.entry.now) (word_rule second.entry.now)) command) }
{
    let command = of_scenario(alloc, name)?;
    let second = word(alloc, second, help);
    command.arg(second)
}

// A command on the file of a scenario.
fn of_scenario<'a>(alloc: Global, name: &'a str) -> Result<Command<'a>, AllocError>
    ensures { IfOk result (λ command. IsParserOf (of_scenario name.entry.now) command) }
{
    let scenario = word(alloc, "SCENARIO", "The file of the scenario");
    Command::new(alloc, name).arg(scenario)
}

// A word that must be there.
fn word<'a>(alloc: Global, name: &'a str, help: &'a str) -> Arg<'a>
    ensures rule { rule_of result ≡ word_rule name.entry.now }
    ensures local { result.global ≡ false }
{
    Arg::new(alloc, name).help(help).required(true)
}

// An option of a command.
fn option(alloc: Global, flag: Flag<'_>) -> Arg<'_>
    ensures rule { rule_of result ≡ option_rule_of flag.entry }
    ensures local { result.global ≡ false }
{
    let option = Arg::new(alloc, flag.name).long(flag.name).help(flag.help);
    match flag.kind {
        FlagKind::Switch => option.action(ArgAction::SetTrue),
        FlagKind::Number => option
            .value_name("N")
            .value_parser(ValueParser::Unsigned(0, 4294967295)),
        FlagKind::Rounds => option
            .value_name("N")
            .value_parser(ValueParser::Unsigned(1, 100000)),
    }
}
