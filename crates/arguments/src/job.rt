//! What the words of the command line ask for.

ghost use Rattle.std.specs.Prelude.{◌≡◌, ◌⊎◌, IfErr, IfOk, false, map};
ghost use Rattle.clap.specs.Simple.{with_rule};
ghost use Rattle.clap.specs.Walk.{rule_of};
ghost use Rattle.clap.specs.Words.{app_of, kind_of, new_app};
ghost use Rattle.clap.specs.declared.builder.command.Command.TheViews.{out-Command as fields_of};
ghost use Rattle.arguments.specs.CommandLine.{command_line, file_rule, program, show_app};
ghost use Rattle.arguments.specs.Asked.{AsksNothing, IsAsked};

use crate::help::{
    ANSWERS, CHECK, CHECK_EXAMPLE, CHECK_FILE, CHECK_LONG, PROGRAM, REPLAY, REPLAY_EXAMPLE,
    REPLAY_LONG, SCRIPT_FILE, SERVE, SERVE_EXAMPLE, SERVE_LONG, SHOW, SHOW_EXAMPLE, SHOW_LONG,
    VERSION,
};
use crate::misused::Misused;
use crate::serve_options::{option, with_options};
use crate::serving::{Serving, serving_by};
use clap::error::ErrorKind;
use clap::{Arg, Command, Error};
use std::alloc::{AllocError, Global};

/// Which script is shown, and with which answers.
#[derive(Clone, Copy, Debug, PartialEq, Eq)]
pub struct Showing<'a> {
    /// The file that holds the script; `None` for standard input.
    pub file: Option<&'a str>,
    /// The file that holds what an earlier `replay` printed; `None` where the answers are made anew.
    pub answers: Option<&'a str>,
}

/// What the program is asked to do.
#[derive(Clone, Copy, Debug, PartialEq, Eq)]
pub enum Job<'a> {
    /// Answers the script in this file, or in standard input where there is none.
    Replay(Option<&'a str>),
    /// Tells what is wrong with the settings in this file, or in standard input where there is none.
    Check(Option<&'a str>),
    /// Serves the connections of a listener.
    Serve(Serving<'a>),
    /// Shows a script, and its answers, in words.
    Show(Showing<'a>),
}

/// A subcommand of this name, with its short and its long help; `example` follows the help.
fn described<'a>(
    alloc: Global,
    name: &'a str,
    about: &'a str,
    long_about: &'a str,
    example: &'a str,
) -> Command<'a>
    ensures app { app_of result ≡ new_app name.entry.now }
    ensures local { (fields_of result).has_globals ≡ false }
{
    Command::new(alloc, name)
        .about(about)
        .long_about(long_about)
        .after_help(example)
}

/// The argument FILE, which a command reads in place of standard input.
fn file<'a>(alloc: Global, help: &'a str) -> Arg<'a>
    ensures rule { rule_of result ≡ file_rule }
    ensures local { result.global ≡ false }
{
    Arg::new(alloc, "file").value_name("FILE").help(help)
}

/// The command, with an argument FILE that may be left out.
fn with_file<'a>(
    alloc: Global,
    command: Command<'a>,
    help: &'a str,
) -> Result<Command<'a>, AllocError>
    ensures app { IfOk result (λ made. app_of made ≡ with_rule (app_of command.entry) file_rule) }
    ensures local { IfOk result
        (λ made. (fields_of made).has_globals ≡ (fields_of command.entry).has_globals) }
{
    command.arg(file(alloc, help))
}

/// The subcommand `show`, with its FILE and its option `--answers`.
fn show_command<'a>(alloc: Global) -> Result<Command<'a>, AllocError>
    ensures app { IfOk result (λ made. app_of made ≡ show_app) }
    ensures local { IfOk result (λ made. (fields_of made).has_globals ≡ false) }
{
    let show = described(alloc, "show", SHOW, SHOW_LONG, SHOW_EXAMPLE);
    let show = with_file(alloc, show, SCRIPT_FILE)?;
    show.arg(option(alloc, "answers", "FILE", ANSWERS, false))
}

/// The program `kbroker` with its help and its version, before it has subcommands.
fn bare_program<'a>(alloc: Global) -> Command<'a>
    ensures { app_of result ≡ program }
{
    Command::new(alloc, "kbroker")
        .about(PROGRAM)
        .version(VERSION)
        .subcommand_required(true)
        .arg_required_else_help(true)
}

/// The whole command line: the program with its subcommands `replay`, `check`, `serve` and `show`.
fn command<'a>(alloc: Global) -> Result<Command<'a>, AllocError>
    ensures { IfOk result (λ made. app_of made ≡ command_line) }
{
    let replay = described(alloc, "replay", REPLAY, REPLAY_LONG, REPLAY_EXAMPLE);
    let replay = with_file(alloc, replay, SCRIPT_FILE)?;
    let check = described(alloc, "check", CHECK, CHECK_LONG, CHECK_EXAMPLE);
    let check = with_file(alloc, check, CHECK_FILE)?;
    let serve = described(alloc, "serve", SERVE, SERVE_LONG, SERVE_EXAMPLE);
    let serve = with_options(alloc, serve)?;
    bare_program(alloc)
        .subcommand(replay)?
        .subcommand(check)?
        .subcommand(serve)?
        .subcommand(show_command(alloc)?)
}

/// The error to print where an option of `serve` is misused: a sentence about it, above the usage of `serve`. The outer error is
/// an allocation failure.
fn misuse(alloc: Global, misused: Misused) -> Result<Error, AllocError> {
    let serve = described(alloc, "serve", SERVE, SERVE_LONG, SERVE_EXAMPLE);
    let mut serve = with_options(alloc, serve.bin_name("kbroker serve")?)?;
    serve.error(ErrorKind::ValueValidation, misused.sentence())
}

/// Reads the command line, whose first word is the program's own name, and gives the job that its subcommand asks for. The error
/// holds the text to print: what isn't understood, which option of `serve` is misused, or the help or the version, where these
/// are asked for; after an allocation failure its kind is `OutOfMemory`.
pub fn arguments<'a>(alloc: Global, words: &'a [&'a str]) -> Result<Job<'a>, Error>
    ensures job { IfOk result (λ job. IsAsked (map (λ word. word.now) words.entry.now) job) }
    ensures refusal { IfErr result (λ error. AsksNothing (map (λ word. word.now) words.entry.now)
        ⊎ (kind_of error ≡ ErrorKind.OutOfMemory)) }
{
    let mut command = command(alloc)?;
    let matches = command.try_get_matches_from_mut(words)?;
    if let Some(options) = matches.subcommand_matches("replay") {
        return Ok(Job::Replay(options.get_str("file")));
    }
    if let Some(options) = matches.subcommand_matches("check") {
        return Ok(Job::Check(options.get_str("file")));
    }
    if let Some(options) = matches.subcommand_matches("show") {
        let file = options.get_str("file");
        let answers = options.get_str("answers");
        return Ok(Job::Show(Showing { file, answers }));
    }
    let Some(options) = matches.subcommand_matches("serve") else {
        return Err(command.error(ErrorKind::InvalidSubcommand, "no such command")?);
    };
    match serving_by(options) {
        Ok(serving) => Ok(Job::Serve(serving)),
        Err(misused) => Err(misuse(alloc, misused)?),
    }
}
