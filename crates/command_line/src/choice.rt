//! The command line: which command the words name, and which flags they give it.
ghost use Rattle.std.specs.Prelude.{◌≡◌, ◌∷◌, map, codes, false, true, IfOk, IsSome, MatchResult, Some};
ghost use Rattle.std.specs.Prelude.{[], filter, string_bytes, Ok, Result};
ghost use Rattle.std.specs.List.{list_all};
ghost use Rattle.clap.specs.declared.builder.command.Command.TheViews.{out-Command as fields_of};
ghost use Rattle.clap.specs.Words.{Text, app_of, found_of, rows_of, rule_of, subcommand_rows_of, takes};
ghost use Rattle.command_line.specs.Choice.{IsRequestOf, command_app, commands, entry_of, faults_of, json_word, plain_request, program, request_in, request_of, request_with, takes_json};
ghost use Rattle.command_line.specs.ChoiceFault.{Gives};
ghost use Rattle.command_line.specs.GivenFlags.{flag_of, flag_rule};
ghost use Rattle.command_line.specs.Program.{IsRefusalOf};
ghost use Rattle.command_line.specs.declared.choice.word_fault.WordFault.{WordFault};

pub mod coloring;
pub mod commands;
pub mod fault;
mod help;
pub mod options;
pub mod part;
mod plain;
pub mod word_fault;

use clap::error::ErrorKind;
use clap::{Arg, ArgAction, ArgMatches, Command};
use commands::{CommandEntry, CommandName, Flag, Request, Takes, command_named};
use fault::ChoiceFault;
use notices::VERSION_WITH_TEXTS;
use options::Options;
use plain::plain_request;
use std::alloc::{AllocError, Global};

/// The flag as an argument of its command.
fn flag<'a>(alloc: Global, flag: &Flag) -> Arg<'a>
    ensures rule { rule_of result ≡ flag_rule (flag_of flag.now) }
    ensures local { result.global ≡ false }
{
    let named = Arg::new(alloc, flag.name).long(flag.name).help(flag.help);
    match flag.takes {
        Takes::Nothing => named.action(ArgAction::SetTrue),
        Takes::Word => named.action(ArgAction::Set).value_name(flag.word),
        Takes::Words => named.action(ArgAction::Append).value_name(flag.word),
    }
}

/// A command with its flags.
fn command<'a>(alloc: Global, entry: &CommandEntry) -> Result<Command<'a>, AllocError>
    ensures app { IfOk result (λ c. app_of c ≡ command_app (entry_of entry.now)) }
    ensures local { IfOk result (λ c. (fields_of c).has_globals ≡ false) }
{
    let mut command = Command::new(alloc, entry.name)
        .about(entry.about)
        .override_usage(entry.usage)
        .after_help(help::of_command(entry.command));
    for given in entry.flags {
        command = command.arg(flag(alloc, given))?;
    }
    Ok(command)
}

/// The command line of the program, as `clap` reads it.
fn program<'a>(alloc: Global) -> Result<Command<'a>, AllocError>
    ensures app { IfOk result (λ c. app_of c ≡ program) }
    ensures local { IfOk result (λ c. (fields_of c).has_globals ≡ false) }
{
    let mut program = Command::new(alloc, "cmisctl")
        .version(VERSION_WITH_TEXTS)
        .about("Manages pluggable optical modules through their memory map")
        .after_help(help::OF_PROGRAM)
        .subcommand_required(true)
        .disable_help_subcommand(true);
    for entry in commands::commands() {
        program = program.subcommand(command(alloc, entry)?)?;
    }
    Ok(program)
}

/// What a command is asked for, by its matches.
fn request_with(
    alloc: Global,
    command: CommandName,
    given: &ArgMatches<'_>,
) -> Result<Request, ChoiceFault>
    ensures { Gives (request_with command (rows_of (found_of given.now))) result }
{
    Ok(Request {
        command,
        options: Options::of(alloc, given)?,
    })
}

/// What the matches of the program ask for.
fn requested(alloc: Global, matches: &ArgMatches<'_>) -> Result<Request, ChoiceFault>
    requires { IsSome (request_in (subcommand_rows_of matches.now)) }
    ensures { (asked : Result Request WordFault) × (request_in (subcommand_rows_of matches.now) ≡ Some asked) × Gives asked result }
{
    let (name, given) = matches.subcommand().unwrap();
    let entry = command_named(name).unwrap();
    request_with(alloc, entry.command, given)
}

// What the words ask for, as `clap` reads them.
fn parsed(alloc: Global, words: &[String]) -> Result<Request, ChoiceFault>
    ensures { MatchResult result (IsRequestOf (map string_bytes words.now)) (IsRefusalOf (map string_bytes words.now)) }
{
    let matches = program(alloc)?.try_get_matches_from(words)?;
    requested(alloc, &matches)
}

/// What the words ask for, of which the first is the program's name.
pub fn request(alloc: Global, words: &[String]) -> Result<Request, ChoiceFault>
    ensures { MatchResult result (IsRequestOf (map string_bytes words.now)) (IsRefusalOf (map string_bytes words.now)) }
{
    match plain_request(alloc, words) {
        Some(request) => Ok(request),
        None => parsed(alloc, words),
    }
}

/// Each command's name, alone after the program's own, is taken and chooses that command, without a flag; with `--json`, if the
/// command has it, the same as JSON.
pub fn names_choose_their_commands()
    ensures taken { (program_name : Text)
        → list_all (λ entry. takes program (program_name ∷ entry.name ∷ [])) commands ≡ true }
    ensures chosen { (program_name : Text)
        → map (λ entry. request_of (program_name ∷ entry.name ∷ [])) commands
        ≡ map (λ entry. Some (Ok (plain_request false entry.command))) commands }
    ensures json { (program_name : Text)
        → map (λ entry. request_of (program_name ∷ entry.name ∷ json_word ∷ [])) (filter takes_json commands)
        ≡ map (λ entry. Some (Ok (plain_request true entry.command))) (filter takes_json commands) }
{}

/// Help and the version come by their flags alone, `help` is no command, and some command is wanted.
pub fn help_is_a_flag()
    ensures long { (program_name : Text)
        → faults_of (program_name ∷ codes "--help" ∷ []) ≡ ErrorKind.DisplayHelp ∷ [] }
    ensures short { (program_name : Text)
        → faults_of (program_name ∷ codes "-h" ∷ []) ≡ ErrorKind.DisplayHelp ∷ [] }
    ensures word { (program_name : Text) → faults_of (program_name ∷ codes "help" ∷ [])
        ≡ ErrorKind.UnknownArgument ∷ ErrorKind.InvalidSubcommand ∷ [] }
    ensures version { (program_name : Text)
        → faults_of (program_name ∷ codes "--version" ∷ []) ≡ ErrorKind.DisplayVersion ∷ [] }
    ensures nothing { (program_name : Text)
        → faults_of (program_name ∷ []) ≡ ErrorKind.MissingSubcommand ∷ [] }
{}
