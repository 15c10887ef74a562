//! The broker's program.
#![tactic(auto)]

ghost use Rattle.std.specs.Prelude.{◌≡◌, [], IfOk};

mod awaited;

use crate::awaited::Awaited;
use admission::Rate;
use arguments::{Job, Serving, Showing, ShutdownOptions, VERSION, arguments};
use broker_keeping::Steering;
use broker_server::{ServeOptions, Server, serve};
use commands::{Opened, check, open_and_explain, replay};
use session_pool::{ListedVersions, ShutdownFlag};
use session_workers::{ConnectionOptions, SessionOptions};
use show::{Noted, Reason, explain, explain_by, show_and_explain};
use std::alloc::{AllocError, Global};
use std::hash::RandomState;
use std::io::{BufRead, BufReader, ErrorKind, Input, IsTerminal, Print, Read, Write};
use std::net::{Net, TcpListener, TcpStream};
use std::process::ExitCode;
use std::random::RandomSource;
use std::rt::Files;
use std::sync::Wait;
use std::thread::Threads;
use std::time::Duration;
use std::{fs, io, time};

/// The exit status of a command line that isn't understood.
const MISUSED: u8 = 2;

/// The exit status of a server that was never started, and of a file that can't be opened.
const FAILED: u8 = 1;

/// For how many milliseconds at most the answer to a Fetch without a record is held back with `--librdkafka`.
const PATIENCE: u64 = 100;

/// How many seconds after a stop connections are closed that are still open, unless `--grace` says otherwise.
const GRACE: u64 = 5;

/// What the command line is called in sentences, and standard input.
const COMMAND_LINE: &str = "the command line";

const STANDARD_INPUT: &str = "standard input";

/// Why lines of standard input can't be read.
const NO_MEMORY: &str = "there is not enough memory for its lines";

/// The words of the command line as texts.
fn texts<'a>(alloc: Global, words: &'a [String]) -> Result<Vec<&'a str>, AllocError> {
    words.iter().map(|word| word.as_str()).collect(alloc)
}

/// How long connections stay open after a stop: as long as `--grace` says, or else 5 seconds. `None`, to their end, with
/// `--control` and no `--grace`.
fn grace_of(serving: Serving<'_>) -> Option<Duration> {
    let ShutdownOptions { grace_seconds, .. } = serving.ending;
    match grace_seconds {
        Some(seconds) => Some(Duration::from_secs(seconds)),
        None if serving.control => None,
        None => Some(Duration::from_secs(GRACE)),
    }
}

/// How connections are served, by the options of `serve`. `bindings` is how many ACL bindings the settings have; `log_times` says
/// that a time and a level stand before each line of the log.
fn options_of(serving: Serving<'_>, bindings: usize, log_times: bool) -> ServeOptions {
    let (listed, patience) = if serving.librdkafka {
        (
            ListedVersions::ForLibrdkafka,
            Some(Duration::from_millis(PATIENCE)),
        )
    } else {
        (ListedVersions::AsServed, None)
    };
    ServeOptions {
        version: VERSION,
        bindings,
        connections: ConnectionOptions {
            workers: serving.workers as usize,
            connections: serving.connections,
            endless: serving.endless,
            per_host: serving.per_host,
            open: serving.open_seconds.map(Duration::from_secs),
            grace: grace_of(serving),
            idle: serving.idle_seconds.map(Duration::from_secs),
            login_within: Duration::from_secs(serving.login_seconds),
            frame_within: Duration::from_secs(serving.frame_seconds),
            sessions: SessionOptions {
                listed,
                per_user: serving.per_user,
                rate: Rate {
                    requests: serving.rate,
                    bytes: serving.rate_bytes,
                },
            },
            patience,
        },
        audit: serving.audit,
        log_times,
    }
}

/// Prints `line` to `writer`, and `kbroker: WHAT: WHY` to `errors`: what can't be used, and why. Gives the exit status 1. That a
/// write or an allocation fails isn't reported.
fn fail<W: Write, E: Write>(
    alloc: Global,
    writer: &mut W,
    errors: &mut E,
    line: &str,
    what: &str,
    why: &str,
) -> u8 {
    let _ = writer.write_all(line.as_bytes());
    explain(alloc, errors, what, why);
    FAILED
}

/// As `fail`, but prints `kbroker: WHAT: WHY: REASON`, the last being the system's reason.
fn fail_by<W: Write, E: Write>(
    alloc: Global,
    writer: &mut W,
    errors: &mut E,
    line: &str,
    what: &str,
    why: &str,
    error: &io::Error,
) -> u8 {
    let _ = writer.write_all(line.as_bytes());
    explain_by(alloc, errors, what, why, Reason::of(error));
    FAILED
}

/// Says why the input of this name can't be read, where its last read failed; else nothing.
fn explain_read<R: Read, E: Write>(alloc: Global, errors: &mut E, name: &str, reader: &Noted<R>) {
    let Some(reason) = reader.reason() else {
        return;
    };
    if let Ok(why) = format!(in alloc; "{reason}") {
        explain(alloc, errors, name, why.as_str());
    }
}

/// Says that an argument is not UTF-8, and gives the exit status 2. Any other error is returned.
fn misread<E: Write>(alloc: Global, errors: &mut E, error: io::Error) -> io::Result<ExitCode> {
    if error.kind() != ErrorKind::InvalidData {
        return Err(error);
    }
    explain(alloc, errors, COMMAND_LINE, "an argument is not UTF-8");
    Ok(ExitCode::from(MISUSED))
}

/// Says that this job waits for standard input, if it reads the settings or the script there. The caller looks that standard
/// input is a terminal.
fn prompt<E: Write>(alloc: Global, errors: &mut E, job: Job<'_>) {
    let why = match job {
        Job::Replay(None) | Job::Show(Showing { file: None, .. }) => {
            "waiting for the script, up to Ctrl-D"
        }
        Job::Check(None) | Job::Serve(Serving { settings: None, .. }) => {
            "waiting for the settings, up to Ctrl-D"
        }
        _ => return,
    };
    explain(alloc, errors, STANDARD_INPUT, why);
}

/// What is done with the text of a file, or of standard input, other than to serve.
#[derive(Clone, Copy, Debug, PartialEq, Eq)]
enum Task<'a> {
    /// Its script is answered, as `replay` does.
    Replay,
    /// Its settings are checked, as `check` does.
    Check,
    /// Its script is shown, with the answers in this file, or with those that are made anew where there is none.
    Show(Option<&'a str>),
}

impl Task<'_> {
    /// Does the task with the text that is read from an input of this name, and gives the exit status.
    fn run<T: Files, R: Read + Drop, W: Write, E: Write>(
        self,
        rt: &T,
        alloc: Global,
        name: &str,
        reader: R,
        writer: &mut W,
        errors: &mut E,
    ) -> u8 {
        let mut reader = Noted::new(reader);
        let status = match self {
            Task::Replay => replay(alloc, &mut reader, writer, errors),
            Task::Check => check(alloc, &mut reader, writer, errors),
            Task::Show(answers) => {
                show_and_explain(rt, alloc, name, answers, &mut reader, writer, errors)
            }
        };
        explain_read(alloc, errors, name, &reader);
        status
    }

    /// Does the task with the text of this file, or of standard input for `None`, and gives the exit status, which is 1 where the
    /// file can't be opened.
    fn run_on<T: Input + Files, W: Write, E: Write>(
        self,
        rt: &T,
        alloc: Global,
        file: Option<&str>,
        writer: &mut W,
        errors: &mut E,
    ) -> u8 {
        let Some(path) = file else {
            return self.run(rt, alloc, STANDARD_INPUT, rt.reader(), writer, errors);
        };
        match fs::open(rt, path) {
            Ok(file) => self.run(rt, alloc, path, file, writer, errors),
            Err(error) => {
                let why = "the file can't be opened";
                fail_by(alloc, writer, errors, "", path, why, &error)
            }
        }
    }
}

/// Prints `open failed`, says that the settings' file can't be opened, and gives the exit status 1.
fn fail_to_open<W: Write, E: Write>(
    alloc: Global,
    writer: &mut W,
    errors: &mut E,
    path: &str,
    error: &io::Error,
) -> u8 {
    let why = "the settings' file can't be opened";
    fail_by(alloc, writer, errors, "open failed\n", path, why, error)
}

/// Opens a core with the settings that the input of this name gives, whose tables hash by `hasher`. The error is the exit status;
/// then `writer` and `errors` tell why, as far as they can be written.
fn open_named<R: Read + Drop, W: Write, E: Write>(
    alloc: Global,
    hasher: RandomState,
    name: &str,
    reader: R,
    writer: &mut W,
    errors: &mut E,
) -> Result<Opened, u8>
    ensures { IfOk result (λ opened. opened.core.trail ≡ []) }
{
    let mut reader = Noted::new(reader);
    let opened = open_and_explain(alloc, hasher, &mut reader, writer, errors);
    if opened.is_err() {
        explain_read(alloc, errors, name, &reader);
    }
    opened
}

/// Listens on an address. The error is the exit status, 1; then `writer` and `errors` tell why, as far as they can be written.
fn listen_on<T: Net<Listener = TcpListener, Stream = TcpStream>, W: Write, E: Write>(
    rt: &T,
    alloc: Global,
    address: &str,
    writer: &mut W,
    errors: &mut E,
) -> Result<TcpListener, u8> {
    match TcpListener::bind(rt, address) {
        Ok(listener) => Ok(listener),
        Err(error) => {
            let why = "the address can't be listened on";
            let line = "listen failed\n";
            Err(fail_by(alloc, writer, errors, line, address, why, &error))
        }
    }
}

/// Opens a broker with the settings that `reader` gives, listens, and serves connections, by the clock or as lines steer it.
/// Gives the exit status: 1 also where it never comes to serve; then a line on `writer`, a sentence on `errors`, or both tell of
/// it, as far as they can be written.
fn serve_connections<
    T: Net<Listener = TcpListener, Stream = TcpStream>
        + Threads
        + Wait
        + time::Clock
        + RandomSource
        + Sync,
    R: Read + Drop,
    I: BufRead + Drop + Send,
    O: Write + Drop + Send,
    W: Write,
    E: Write + IsTerminal + Drop + Send,
>(
    rt: &T,
    alloc: Global,
    serving: Serving<'_>,
    reader: R,
    steering: Option<Steering<'_, I, O>>,
    writer: &mut W,
    mut errors: E,
) -> u8 {
    let Ok(hasher) = RandomState::new(rt) else {
        let why = "the system gives none, by which names are hashed";
        return fail(alloc, writer, &mut errors, "", "random bytes", why);
    };
    let name = serving.settings.unwrap_or(STANDARD_INPUT);
    let Opened {
        core,
        users,
        bindings,
    } = match open_named(alloc, hasher, name, reader, writer, &mut errors) {
        Ok(opened) => opened,
        Err(status) => return status,
    };
    let listener = match listen_on(rt, alloc, serving.listen, writer, &mut errors) {
        Ok(listener) => listener,
        Err(status) => return status,
    };
    let log_times = serving.log_times || !errors.is_terminal();
    let server = Server {
        listener: &listener,
        users: &users,
        options: options_of(serving, bindings, log_times),
        steering,
    };
    serve(rt, alloc, core, server, writer, errors)
}

/// Runs `serve` with the settings in the file of `--settings`, or else in standard input, and gives the exit status.
fn serve_by<
    T: Net<Listener = TcpListener, Stream = TcpStream>
        + Threads
        + Wait
        + time::Clock
        + RandomSource
        + Sync
        + Input
        + Print
        + Files,
    W: Write,
    E: Write + IsTerminal + Drop + Send,
>(rt: &T, alloc: Global, serving: Serving<'_>, writer: &mut W, mut errors: E) -> u8
where
    T::Reader: Send,
{
    let closing = ShutdownFlag::new();
    let steering = if serving.control || serving.ending.with_input {
        let Ok(lines) = BufReader::new(alloc, Awaited::new(rt, rt.reader(), &closing)) else {
            return fail(alloc, writer, &mut errors, "", STANDARD_INPUT, NO_MEMORY);
        };
        Some(Steering {
            lines,
            answers: io::writer(rt),
            closing: &closing,
            without_clock: serving.control,
        })
    } else {
        None
    };
    let Some(path) = serving.settings else {
        return serve_connections(rt, alloc, serving, rt.reader(), steering, writer, errors);
    };
    let file = match fs::open(rt, path) {
        Ok(file) => file,
        Err(error) => return fail_to_open(alloc, writer, &mut errors, path, &error),
    };
    serve_connections(rt, alloc, serving, file, steering, writer, errors)
}

/// Does what the command line asks for, and ends with its exit status: 2 where the command line isn't understood. The error is
/// that of the system, or an allocation failure.
fn main(rt: HostRuntime) -> io::Result<ExitCode> {
    let alloc = rt.alloc();
    let mut errors = rt.stderr();
    let words = match std::env::args(&rt) {
        Ok(words) => words,
        Err(error) => return misread(alloc, &mut errors, error),
    };
    let words: Vec<String> = words.collect(alloc)?;
    let words = texts(alloc, words.as_slice())?;
    let job = match arguments(alloc, words.as_slice()) {
        Ok(job) => job,
        Err(error) => {
            rt.eprint(&error)?;
            return Ok(ExitCode::from(MISUSED));
        }
    };
    if rt.stdin().is_terminal() {
        prompt(alloc, &mut errors, job);
    }
    let mut writer = io::writer(&rt);
    let status = match job {
        Job::Replay(file) => Task::Replay.run_on(&rt, alloc, file, &mut writer, &mut errors),
        Job::Check(file) => Task::Check.run_on(&rt, alloc, file, &mut writer, &mut errors),
        Job::Show(Showing { file, answers }) => {
            Task::Show(answers).run_on(&rt, alloc, file, &mut writer, &mut errors)
        }
        Job::Serve(serving) => serve_by(&rt, alloc, serving, &mut writer, errors),
    };
    Ok(ExitCode::from(status))
}
