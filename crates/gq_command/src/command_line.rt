//! From the words of a command line to the command that they name.
ghost use Rattle.std.specs.Prelude.{◌≡◌, ◌≢◌, IfOk, IfErr, None, Some, map, option_map, codes, string_bytes};
ghost use Rattle.clap.specs.Words.{first_of, found_of, kind_of, rows_of, subcommand_rows_of};
ghost use Rattle.gq_command.specs.CommandLine.{IsAsked, IsMisused, IsUsage, IsWanted, wanted_in, wanted_of};
ghost use Rattle.gq_command.specs.CommandLine as words;
ghost use Rattle.gq_command.specs.internal.Command_entries.{IsShown};
ghost use Rattle.gq_command.specs.internal.Meant.{meant};

use crate::command::{Command, CommandError, Fitting, LeafCommand, ScenarioCommand, TurnsCommand};
use crate::entries::command_line;
use crate::misuse::misuse;
use clap::ArgMatches;
use clap::error::ErrorKind;
use std::alloc::{AllocError, Global};

/// Returns the command that the words after the program's name ask for. No words are `Stored`. The first word is the command's name.
///
/// - A command of `ScenarioCommand` with a path is `OfScenario`. Its options stand before or after the path, as those of all commands do.
/// - A command of `LeafCommand` with a path and a name is `OfLeaf`.
/// - A command of `TurnsCommand` with two paths is `OfTurns`.
/// - `fit` with a path is `Fit`.
/// - `faults` with a path, and perhaps a second one, is `Faults`.
/// - `rule`, perhaps with a code, is `Rule`.
/// - `--version` and `-V` are `Version`; `help`, `--help` and `-h` are `Help` with the text to show.
///
/// Fails with `Usage` for other words, with the lines that say what is wrong with them. Fails with `Memory` if the host refuses memory, which it can for any
/// words but none.
pub fn command<'a>(alloc: Global, words: &'a [&'a str]) -> Result<Command, CommandError>
    ensures asked { IfOk result (IsAsked (map (λ word. word.now) words.now)) }
    ensures misused { IfErr result (IsMisused (map (λ word. word.now) words.now)) }
{
    if words.is_empty() {
        return Ok(Command::Stored);
    }
    let line = command_line(alloc)?;
    match line.try_get_matches_from(words) {
        Ok(matches) => matched(alloc, &matches),
        Err(error) => shown(alloc, &error, words),
    }
}

// What is wanted, by words that are not owned.
#[derive(Clone, Copy)]
enum Wanted<'a> {
    // Of the file of a scenario.
    OfScenario(ScenarioCommand, &'a str),
    // Of a leaf.
    OfLeaf(LeafCommand, &'a str, &'a str),
    // Of the files of a scenario and of turns.
    OfTurns(TurnsCommand, &'a str, &'a str),
    // The file of a scenario with this fitted.
    Fit(Fitting, &'a str),
    // Of the file of a scenario, and that of turns where there is one.
    Faults(&'a str, Option<&'a str>),
    // What a code means, or without one all codes.
    Rule(Option<&'a str>),
}

// The command that a parse found.
fn matched(alloc: Global, matches: &ArgMatches<'_>) -> Result<Command, CommandError>
    ensures asked { IfOk result (IsWanted (wanted_in (subcommand_rows_of matches.now))) }
    ensures misused { IfErr result (λ e. IsUsage e → wanted_in (subcommand_rows_of matches.now) ≡ None) }
{
    let Some((name, found)) = matches.subcommand() else {
        return Err(CommandError::Usage(String::new(alloc)));
    };
    match wanted_of(name, found) {
        Some(wanted) => command_of(alloc, wanted),
        None => Err(CommandError::Usage(String::new(alloc))),
    }
}

// What the command of this name asks for, by what a parse found of it.
fn wanted_of<'a>(name: &str, found: &ArgMatches<'a>) -> Option<Wanted<'a>>
    ensures { option_map meant result ≡ wanted_of name.now (rows_of (found_of found.now)) }
{
    if name == "rule" {
        return Some(Wanted::Rule(first_named(found, "CODE")));
    }
    let scenario = first_named(found, "SCENARIO")?;
    if name == "faults" {
        return Some(Wanted::Faults(scenario, first_named(found, "TURNS")));
    }
    if name == "fit" {
        return Some(Wanted::Fit(fitting(found), scenario));
    }
    if let Some(command) = scenario_command(name, found) {
        return Some(Wanted::OfScenario(command, scenario));
    }
    if let Some(command) = leaf_command(name, found) {
        let leaf = first_named(found, "LEAF")?;
        return Some(Wanted::OfLeaf(command, scenario, leaf));
    }
    let command = turns_command(name, found)?;
    let turns = first_named(found, "TURNS")?;
    Some(Wanted::OfTurns(command, scenario, turns))
}

// What is to be fitted.
fn fitting(found: &ArgMatches<'_>) -> Fitting
    ensures { result ≡ words.fitting (rows_of (found_of found.now)) }
{
    if is_given(found, "donations") {
        Fitting::Donations
    } else {
        Fitting::Quantities
    }
}

// The command of this name, if it is one on a scenario alone.
fn scenario_command(name: &str, found: &ArgMatches<'_>) -> Option<ScenarioCommand>
    ensures { result ≡ words.scenario_command name.now (rows_of (found_of found.now)) }
{
    match name {
        "check" => Some(ScenarioCommand::Check),
        "tree" if is_given(found, "dot") => Some(ScenarioCommand::Graph),
        "tree" => Some(ScenarioCommand::Tree),
        "turns" => {
            let seed = number_given(found, "seed")?;
            Some(ScenarioCommand::Turns(seed, number_given(found, "signals")?))
        }
        "races" => Some(ScenarioCommand::Races),
        "outcomes" => Some(ScenarioCommand::Outcomes(number_given(found, "turns")?)),
        "size" => Some(ScenarioCommand::Size),
        _ => None,
    }
}

// The command of this name, if it is one on a leaf.
fn leaf_command(name: &str, found: &ArgMatches<'_>) -> Option<LeafCommand>
    ensures { result ≡ words.leaf_command name.now (rows_of (found_of found.now)) }
{
    match name {
        "asm" => Some(LeafCommand::Asm),
        "list" if is_given(found, "numbers") => Some(LeafCommand::ListNumbers),
        "list" => Some(LeafCommand::List),
        "why" => Some(LeafCommand::Why),
        _ => None,
    }
}

// The command of this name, if it is one on turns.
fn turns_command(name: &str, found: &ArgMatches<'_>) -> Option<TurnsCommand>
    ensures { result ≡ words.turns_command name.now (rows_of (found_of found.now)) }
{
    match name {
        "run" => Some(TurnsCommand::Run),
        "trace" if is_given(found, "all") => Some(TurnsCommand::TraceAll),
        "trace" => Some(TurnsCommand::Trace),
        "state" => Some(TurnsCommand::State(number_given(found, "at")?)),
        "peaks" => Some(TurnsCommand::Peaks),
        _ => None,
    }
}

// The command for what is wanted, which owns its words.
fn command_of(alloc: Global, wanted: Wanted<'_>) -> Result<Command, CommandError>
    ensures asked { IfOk result (IsWanted (Some (meant wanted.entry))) }
    ensures refused { IfErr result (λ e. IsUsage e → ⊥) }
{
    match wanted {
        Wanted::OfScenario(command, scenario) => match String::from_str(alloc, scenario) {
            Ok(scenario) => Ok(Command::OfScenario(command, scenario)),
            Err(refused) => Err(CommandError::Memory(refused)),
        },
        Wanted::OfLeaf(command, scenario, leaf) => match both_owned(alloc, scenario, leaf) {
            Ok((scenario, leaf)) => Ok(Command::OfLeaf(command, scenario, leaf)),
            Err(refused) => Err(CommandError::Memory(refused)),
        },
        Wanted::OfTurns(command, scenario, turns) => match both_owned(alloc, scenario, turns) {
            Ok((scenario, turns)) => Ok(Command::OfTurns(command, scenario, turns)),
            Err(refused) => Err(CommandError::Memory(refused)),
        },
        Wanted::Fit(fitting, scenario) => match String::from_str(alloc, scenario) {
            Ok(scenario) => Ok(Command::Fit(fitting, scenario)),
            Err(refused) => Err(CommandError::Memory(refused)),
        },
        Wanted::Faults(scenario, None) => match String::from_str(alloc, scenario) {
            Ok(scenario) => Ok(Command::Faults(scenario, None)),
            Err(refused) => Err(CommandError::Memory(refused)),
        },
        Wanted::Faults(scenario, Some(turns)) => match both_owned(alloc, scenario, turns) {
            Ok((scenario, turns)) => Ok(Command::Faults(scenario, Some(turns))),
            Err(refused) => Err(CommandError::Memory(refused)),
        },
        Wanted::Rule(None) => Ok(Command::Rule(None)),
        Wanted::Rule(Some(code)) => match String::from_str(alloc, code) {
            Ok(code) => Ok(Command::Rule(Some(code))),
            Err(refused) => Err(CommandError::Memory(refused)),
        },
    }
}

// Copies of two words.
fn both_owned(alloc: Global, first: &str, second: &str) -> Result<(String, String), AllocError>
    ensures { IfOk result (λ both. (string_bytes both.0 ≡ first.now) × (string_bytes both.1 ≡ second.now)) }
{
    let first = String::from_str(alloc, first)?;
    match String::from_str(alloc, second) {
        Ok(second) => Ok((first, second)),
        Err(refused) => Err(refused),
    }
}

// Whether an option was given: of one that was, the parser gives the text `true`.
fn is_given(found: &ArgMatches<'_>, name: &str) -> bool
    ensures { result ≡ words.is_given name.now (rows_of (found_of found.now)) }
{
    match first_named(found, name) {
        Some(text) => text == "true",
        None => false,
    }
}

// The number behind an option, where it was given. `None` where the word there is no number.
fn number_given(found: &ArgMatches<'_>, name: &str) -> Option<Option<u32>>
    ensures { result ≡ words.number_given (first_of name.now (rows_of (found_of found.now))) }
{
    match first_named(found, name) {
        None => Some(None),
        Some(text) => Some(Some(number_of(text)?)),
    }
}

// The number that a word is.
fn number_of(text: &str) -> Option<u32>
    ensures { result ≡ words.number_of text.now }
{
    match text.parse::<u32>() {
        Ok(number) => Some(number),
        Err(_) => None,
    }
}

// The first value of an argument.
fn first_named<'a>(found: &ArgMatches<'a>, name: &str) -> Option<&'a str>
    ensures { option_map (λ s. s.now) result ≡ first_of name.now (rows_of (found_of found.now)) }
{
    found.get_str(name)
}

// What the parser's refusal means: help and the version are among its kinds.
fn shown(alloc: Global, error: &clap::Error, words: &[&str]) -> Result<Command, CommandError>
    ensures asked { IfOk result (IsShown (kind_of error.now)) }
    ensures misused { IfErr result (λ e. IsUsage e → (kind_of error.now ≢ ErrorKind.DisplayHelp) × (kind_of error.now ≢ ErrorKind.DisplayVersion)
        × (kind_of error.now ≢ ErrorKind.OutOfMemory)) }
{
    match error.kind() {
        ErrorKind::DisplayHelp => Ok(Command::Help(format!(in alloc; "{error}")?)),
        ErrorKind::DisplayVersion => Ok(Command::Version),
        ErrorKind::OutOfMemory => Err(CommandError::Memory(AllocError)),
        _ => Err(CommandError::Usage(misuse(alloc, error, words)?)),
    }
}
