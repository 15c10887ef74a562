//! Which options `serve` has.

ghost use Rattle.std.specs.Prelude.{◌≡◌, IfOk, false};
ghost use Rattle.clap.specs.Simple.{app_of};
ghost use Rattle.clap.specs.Walk.{rule_of};
ghost use Rattle.clap.specs.declared.builder.command.Command.TheViews.{out-Command as fields_of};
ghost use Rattle.arguments.specs.CommandLine.{also_named, also_short, flag_rule, listen_rule, option_rule, settings_rule, with_rules, with_two_rules, with_serve_clients, with_serve_deadlines, with_serve_ending, with_serve_numbers, with_serve_options, with_serve_rates, with_serve_reports, with_serve_shares, with_serve_steering, with_serve_switches};

use crate::help::{
    AUDIT, CONNECTIONS, CONTROL, ENDLESS, FOR, FRAME_WITHIN, GRACE, IDLE, LIBRDKAFKA, LISTEN,
    LOG_TIMES, LOGIN_WITHIN, PER_HOST, PER_USER, RATE, RATE_BYTES, SETTINGS, STOP_WITH_INPUT,
    WORKERS,
};
use clap::{Arg, ArgAction, Command};
use std::alloc::{AllocError, Global};

/// An option `--NAME` that takes a value, which the help calls `value`; `must` says whether the option is required.
pub(crate) fn option<'a>(
    alloc: Global,
    name: &'a str,
    value: &'a str,
    help: &'a str,
    must: bool,
) -> Arg<'a>
    ensures rule { rule_of result ≡ option_rule name.entry.now must }
    ensures local { result.global ≡ false }
{
    Arg::new(alloc, name)
        .long(name)
        .value_name(value)
        .help(help)
        .required(must)
}

/// The option with one more name, which help doesn't show.
fn with_alias<'a>(option: Arg<'a>, name: &'a str) -> Result<Arg<'a>, AllocError>
    ensures rule { IfOk result
        (λ made. rule_of made ≡ also_named (rule_of option.entry) name.entry.now) }
    ensures local { IfOk result (λ made. made.global ≡ option.entry.global) }
{
    option.alias(name)
}

/// The option with one more short name, which help doesn't show.
fn with_short_alias<'a>(option: Arg<'a>, name: char) -> Result<Arg<'a>, AllocError>
    ensures rule { IfOk result (λ made. rule_of made ≡ also_short (rule_of option.entry) name) }
    ensures local { IfOk result (λ made. made.global ≡ option.entry.global) }
{
    option.short_alias(name)
}

/// The required option `--listen`, with the address to listen on. `--port` and `-p` are hidden aliases of it, so that who gives a
/// port alone reads what `--listen` takes.
fn listen_option<'a>(alloc: Global) -> Result<Arg<'a>, AllocError>
    ensures rule { IfOk result (λ made. rule_of made ≡ listen_rule) }
    ensures local { IfOk result (λ made. made.global ≡ false) }
{
    let listen = option(alloc, "listen", "ADDR", LISTEN, true);
    with_short_alias(with_alias(listen, "port")?, 'p')
}

/// The option `--settings`, with the file that holds the settings. `--config`, as servers call theirs, is a hidden alias of it.
fn settings_option<'a>(alloc: Global) -> Result<Arg<'a>, AllocError>
    ensures rule { IfOk result (λ made. rule_of made ≡ settings_rule) }
    ensures local { IfOk result (λ made. made.global ≡ false) }
{
    with_alias(option(alloc, "settings", "FILE", SETTINGS, false), "config")
}

/// A switch `--NAME` without a value.
fn flag<'a>(alloc: Global, name: &'a str, help: &'a str) -> Arg<'a>
    ensures rule { rule_of result ≡ flag_rule name.entry.now }
    ensures local { result.global ≡ false }
{
    Arg::new(alloc, name)
        .long(name)
        .action(ArgAction::SetTrue)
        .help(help)
}

/// The command with these two options more, none of them global.
fn with_two<'a>(
    command: Command<'a>,
    first: Arg<'a>,
    second: Arg<'a>,
) -> Result<Command<'a>, AllocError>
    requires first { first.global ≡ false }
    requires second { second.global ≡ false }
    ensures app { IfOk result
        (λ made. app_of made ≡ with_two_rules (app_of command.entry) (rule_of first.entry)
        (rule_of second.entry)) }
    ensures local { IfOk result
        (λ made. (fields_of made).has_globals ≡ (fields_of command.entry).has_globals) }
{
    command.arg(first)?.arg(second)
}

/// The command with these three options more, none of them global.
fn with_three<'a>(
    command: Command<'a>,
    first: Arg<'a>,
    second: Arg<'a>,
    third: Arg<'a>,
) -> Result<Command<'a>, AllocError>
    requires first { first.global ≡ false }
    requires second { second.global ≡ false }
    requires third { third.global ≡ false }
    ensures app { IfOk result
        (λ made. app_of made ≡ with_rules (app_of command.entry) (rule_of first.entry)
        (rule_of second.entry) (rule_of third.entry)) }
    ensures local { IfOk result
        (λ made. (fields_of made).has_globals ≡ (fields_of command.entry).has_globals) }
{
    command.arg(first)?.arg(second)?.arg(third)
}

/// Adds `--listen`, `--workers` and `--connections`: where to listen, and how many connections are served, at once and in all.
fn with_numbers<'a>(alloc: Global, command: Command<'a>) -> Result<Command<'a>, AllocError>
    ensures app { IfOk result (λ made. app_of made ≡ with_serve_numbers (app_of command.entry)) }
    ensures local { IfOk result
        (λ made. (fields_of made).has_globals ≡ (fields_of command.entry).has_globals) }
{
    let listen = listen_option(alloc)?;
    let workers = option(alloc, "workers", "N", WORKERS, false);
    let connections = option(alloc, "connections", "N", CONNECTIONS, false);
    with_three(command, listen, workers, connections)
}

/// Adds `--for` and `--idle`: after how many seconds the server stops, and after how many an idle connection is closed.
fn with_switches<'a>(alloc: Global, command: Command<'a>) -> Result<Command<'a>, AllocError>
    ensures app { IfOk result (λ made. app_of made ≡ with_serve_switches (app_of command.entry)) }
    ensures local { IfOk result
        (λ made. (fields_of made).has_globals ≡ (fields_of command.entry).has_globals) }
{
    let open = option(alloc, "for", "SECONDS", FOR, false);
    let idle = option(alloc, "idle", "SECONDS", IDLE, false);
    with_two(command, open, idle)
}

/// Adds `--audit` and `--log-times`: where refusals are told as they happen, and whether each line of standard error begins with
/// a time.
fn with_reports<'a>(alloc: Global, command: Command<'a>) -> Result<Command<'a>, AllocError>
    ensures app { IfOk result (λ made. app_of made ≡ with_serve_reports (app_of command.entry)) }
    ensures local { IfOk result
        (λ made. (fields_of made).has_globals ≡ (fields_of command.entry).has_globals) }
{
    let audit = option(alloc, "audit", "-", AUDIT, false);
    let log_times = flag(alloc, "log-times", LOG_TIMES);
    with_two(command, audit, log_times)
}

/// Adds `--login-within` and `--frame-within`: how many seconds a client has to log in, and to send a request.
fn with_deadlines<'a>(alloc: Global, command: Command<'a>) -> Result<Command<'a>, AllocError>
    ensures app { IfOk result (λ made. app_of made ≡ with_serve_deadlines (app_of command.entry)) }
    ensures local { IfOk result
        (λ made. (fields_of made).has_globals ≡ (fields_of command.entry).has_globals) }
{
    let login = option(alloc, "login-within", "SECONDS", LOGIN_WITHIN, false);
    let frame = option(alloc, "frame-within", "SECONDS", FRAME_WITHIN, false);
    with_two(command, login, frame)
}

/// Adds `--endless`, `--per-host` and `--per-user`: whether connections are served without end, and how many one host and one
/// user may have at once.
fn with_shares<'a>(alloc: Global, command: Command<'a>) -> Result<Command<'a>, AllocError>
    ensures app { IfOk result (λ made. app_of made ≡ with_serve_shares (app_of command.entry)) }
    ensures local { IfOk result
        (λ made. (fields_of made).has_globals ≡ (fields_of command.entry).has_globals) }
{
    let endless = flag(alloc, "endless", ENDLESS);
    let per_host = option(alloc, "per-host", "N", PER_HOST, false);
    let per_user = option(alloc, "per-user", "N", PER_USER, false);
    with_three(command, endless, per_host, per_user)
}

/// Adds `--rate` and `--rate-bytes`: how many requests, and how many bytes of them, each user may send in a second.
fn with_rates<'a>(alloc: Global, command: Command<'a>) -> Result<Command<'a>, AllocError>
    ensures app { IfOk result (λ made. app_of made ≡ with_serve_rates (app_of command.entry)) }
    ensures local { IfOk result
        (λ made. (fields_of made).has_globals ≡ (fields_of command.entry).has_globals) }
{
    let rate = option(alloc, "rate", "REQUESTS", RATE, false);
    let rate_bytes = option(alloc, "rate-bytes", "BYTES", RATE_BYTES, false);
    with_two(command, rate, rate_bytes)
}

/// Adds `--settings` and `--control`: the file of the settings, and whether lines of standard input steer the broker.
fn with_steering<'a>(alloc: Global, command: Command<'a>) -> Result<Command<'a>, AllocError>
    ensures app { IfOk result (λ made. app_of made ≡ with_serve_steering (app_of command.entry)) }
    ensures local { IfOk result
        (λ made. (fields_of made).has_globals ≡ (fields_of command.entry).has_globals) }
{
    let settings = settings_option(alloc)?;
    let control = flag(alloc, "control", CONTROL);
    with_two(command, settings, control)
}

/// Adds `--grace` and `--stop-with-input`: how many seconds connections stay open after a stop, and whether the end of standard
/// input stops the server.
fn with_ending<'a>(alloc: Global, command: Command<'a>) -> Result<Command<'a>, AllocError>
    ensures app { IfOk result (λ made. app_of made ≡ with_serve_ending (app_of command.entry)) }
    ensures local { IfOk result
        (λ made. (fields_of made).has_globals ≡ (fields_of command.entry).has_globals) }
{
    let grace = option(alloc, "grace", "SECONDS", GRACE, false);
    let with_input = flag(alloc, "stop-with-input", STOP_WITH_INPUT);
    with_two(command, grace, with_input)
}

/// Adds `--librdkafka`: whether ApiVersions lists before a login what librdkafka looks for.
fn with_clients<'a>(alloc: Global, command: Command<'a>) -> Result<Command<'a>, AllocError>
    ensures app { IfOk result (λ made. app_of made ≡ with_serve_clients (app_of command.entry)) }
    ensures local { IfOk result
        (λ made. (fields_of made).has_globals ≡ (fields_of command.entry).has_globals) }
{
    command.arg(flag(alloc, "librdkafka", LIBRDKAFKA))
}

/// The command with all options of `serve`.
pub(crate) fn with_options<'a>(
    alloc: Global,
    command: Command<'a>,
) -> Result<Command<'a>, AllocError>
    ensures app { IfOk result (λ made. app_of made ≡ with_serve_options (app_of command.entry)) }
    ensures local { IfOk result
        (λ made. (fields_of made).has_globals ≡ (fields_of command.entry).has_globals) }
{
    let command = with_numbers(alloc, command)?;
    let command = with_switches(alloc, command)?;
    let command = with_reports(alloc, command)?;
    let command = with_deadlines(alloc, command)?;
    let command = with_shares(alloc, command)?;
    let command = with_rates(alloc, command)?;
    let command = with_steering(alloc, command)?;
    let command = with_ending(alloc, command)?;
    with_clients(alloc, command)
}
