//! How `serve` is to serve, by the values of its options.

ghost use Rattle.std.specs.Prelude.{◌≡◌, ◌≤◌, IfErr, IfOk, IfSome, IfNone, None, Some, true, is_some, option_map};
ghost use Rattle.clap.specs.Matches.{first_value, found_of};
ghost use Rattle.arguments.specs.Serving.{EndsBy, GoesUncounted, IsIn, IsServedBy, IsWithin, MayStop, MaySteer, NoneServes, Tells, TellsAudit, TellsIfGiven, Writes, is_given};

use crate::address::listen_of;
use crate::misused::Misused;
use clap::ArgMatches;

/// How a server stops.
#[derive(Clone, Copy, Debug, PartialEq, Eq)]
pub struct ShutdownOptions {
    /// How many seconds after a stop the connections that are still open are closed, 0 to 1,000,000; `None` where the option
    /// isn't given.
    pub grace_seconds: Option<u64>,
    /// Whether the end of standard input stops the server.
    pub with_input: bool,
}

/// How `serve` serves a listener's connections: the checked values of its options, with the defaults filled in.
#[derive(Clone, Copy, Debug, PartialEq, Eq)]
pub struct Serving<'a> {
    /// The address to listen on, `HOST:PORT`.
    pub listen: &'a str,
    /// How many connections are served at once, 1 to 64.
    pub workers: u64,
    /// How many are served in all, 1 to 1,000,000; without effect where `endless` holds.
    pub connections: u64,
    /// Whether connections are served without end, and not counted.
    pub endless: bool,
    /// How many of one host are served or wait at once, 1 to 1,000,000; `None` for any number.
    pub per_host: Option<u64>,
    /// How many sessions of one user are served at once, 1 to 1,000,000; `None` for any number.
    pub per_user: Option<u64>,
    /// For how many seconds connections are taken, 1 to 1,000,000; `None` for always.
    pub open_seconds: Option<u64>,
    /// After how many seconds of waiting for its peer a session ends, 1 to 1,000,000; `None` for never.
    pub idle_seconds: Option<u64>,
    /// Within how many seconds of its beginning a session's user logs in, 1 to 1,000,000.
    pub login_seconds: u64,
    /// Within how many seconds a request comes, from its first byte to its last, 1 to 1,000,000.
    pub frame_seconds: u64,
    /// How many requests each user may send in a second, 1 to 1,000,000,000; `None` for any number.
    pub rate: Option<u64>,
    /// How many bytes of requests and answers each user may have in a second, 1 to 1,000,000,000,000; `None` for any number.
    pub rate_bytes: Option<u64>,
    /// Whether each refusal is told on standard error as it happens.
    pub audit: bool,
    /// Whether each line of standard error begins with a time and a level, even where standard error is a terminal.
    pub log_times: bool,
    /// The file that holds the settings; `None` for standard input.
    pub settings: Option<&'a str>,
    /// Whether lines of standard input steer the broker, in place of the clock.
    pub control: bool,
    /// How the server stops.
    pub ending: ShutdownOptions,
    /// Whether ApiVersions lists before a login what librdkafka looks for.
    pub librdkafka: bool,
}

const MOST_WORKERS: u64 = 64;

const MOST_CONNECTIONS: u64 = 1_000_000;

const MOST_PER_HOST: u64 = 1_000_000;

const MOST_PER_USER: u64 = 1_000_000;

const MOST_RATE: u64 = 1_000_000_000;

const MOST_RATE_BYTES: u64 = 1_000_000_000_000;

const MOST_SECONDS: u64 = 1_000_000;

const USUAL_WORKERS: u64 = 4;

const USUAL_LOGIN_SECONDS: u64 = 10;

const USUAL_FRAME_SECONDS: u64 = 30;

/// Reads a number from 1 to `most` in decimal digits; `None` for any other text.
fn number_of(text: &str, most: u64) -> Option<u64>
    ensures some { IfSome result (λ number. IsIn most number × Writes text.now number) }
    ensures none { IfNone result ((number : _) → IsIn most number → Writes text.now number → ⊥) }
{
    match text.parse::<u64>() {
        Ok(number) if 1 <= number && number <= most => Some(number),
        _ => None,
    }
}

/// The number of an option, from 1 to `most`, or `usual` where the option isn't given (`text` is `None`). The error is `misused`,
/// for any other text.
fn number_or(text: Option<&str>, most: u64, usual: u64, misused: Misused) -> Result<u64, Misused>
    requires { IsIn most usual }
    ensures within { IfOk result (IsIn most) }
    ensures told { IfOk result (Tells (option_map (λ t. t.now) text.entry) usual) }
    ensures none { IfErr result
        (λ _. (number : _) → IsIn most number → Tells (option_map (λ t. t.now) text.entry) usual
        number → ⊥) }
{
    match text {
        Some(text) => number_of(text, most).ok_or(misused),
        None => Ok(usual),
    }
}

/// The number of an option, from 1 to `most`; `Ok(None)` where the option isn't given (`text` is `None`). The error is `misused`,
/// for any other text.
fn number_if_given(text: Option<&str>, most: u64, misused: Misused) -> Result<Option<u64>, Misused>
    ensures within { IfOk result (λ told. IfSome told (IsIn most)) }
    ensures told { IfOk result (TellsIfGiven (option_map (λ t. t.now) text.entry)) }
    ensures none { IfErr result
        (λ _. (told : _) → IfSome told (IsIn most)
        → TellsIfGiven (option_map (λ t. t.now) text.entry) told → ⊥) }
{
    let Some(text) = text else {
        return Ok(None);
    };
    match number_of(text, most) {
        Some(number) => Ok(Some(number)),
        None => Err(misused),
    }
}

/// As `number_if_given`, for seconds from 1 to 1,000,000.
fn seconds_of(text: Option<&str>, misused: Misused) -> Result<Option<u64>, Misused>
    ensures within { IfOk result (λ told. IfSome told (IsIn 1000000)) }
    ensures told { IfOk result (TellsIfGiven (option_map (λ t. t.now) text.entry)) }
    ensures none { IfErr result
        (λ _. (told : _) → IfSome told (IsIn 1000000)
        → TellsIfGiven (option_map (λ t. t.now) text.entry) told → ⊥) }
{
    number_if_given(text, MOST_SECONDS, misused)
}

/// As `number_or`, for seconds from 1 to 1,000,000.
fn seconds_or(text: Option<&str>, usual: u64, misused: Misused) -> Result<u64, Misused>
    requires { IsIn 1000000 usual }
    ensures within { IfOk result (IsIn 1000000) }
    ensures told { IfOk result (Tells (option_map (λ t. t.now) text.entry) usual) }
    ensures none { IfErr result
        (λ _. (number : _) → IsIn 1000000 number → Tells (option_map (λ t. t.now) text.entry) usual
        number → ⊥) }
{
    number_or(text, MOST_SECONDS, usual, misused)
}

/// How many connections are served in all, by `--connections`: 1 to 1,000,000, and 1,000,000 where the option isn't given. The
/// error is `Endless` where it is given beside `--endless`, whatever its text, and `Connections` for any other text.
fn connections_of(text: Option<&str>, endless: bool) -> Result<u64, Misused>
    ensures within { IfOk result (IsIn 1000000) }
    ensures told { IfOk result (Tells (option_map (λ t. t.now) text.entry) 1000000) }
    ensures uncounted { IfOk result
        (λ _. GoesUncounted endless (option_map (λ t. t.now) text.entry)) }
    ensures none { IfErr result
        (λ _. (number : _) → IsIn 1000000 number → Tells (option_map (λ t. t.now) text.entry)
        1000000 number → GoesUncounted endless (option_map (λ t. t.now) text.entry) → ⊥) }
{
    if endless && text.is_some() {
        return Err(Misused::Endless);
    }
    number_or(
        text,
        MOST_CONNECTIONS,
        MOST_CONNECTIONS,
        Misused::Connections,
    )
}

/// Whether refusals are told on standard error as they happen, by `--audit -`; false without the option. The error is `Audit`,
/// for any value but `-`.
fn audit_of(text: Option<&str>) -> Result<bool, Misused>
    ensures told { IfOk result (TellsAudit (option_map (λ t. t.now) text.entry)) }
    ensures none { IfErr result
        (λ _. (told : _) → TellsAudit (option_map (λ t. t.now) text.entry) told → ⊥) }
{
    match text {
        None => Ok(false),
        Some("-") => Ok(true),
        Some(_) => Err(Misused::Audit),
    }
}

/// Whether a switch is given: its value from clap is then `true`.
fn is_given(text: Option<&str>) -> bool
    ensures { result ≡ is_given (option_map (λ t. t.now) text.entry) }
{
    text == Some("true")
}

/// Whether `--control` is given, so that lines of standard input steer the broker. The error is `Control` where standard input
/// holds the settings (`settings` is `None`), or `--audit` is given too.
fn control_of(text: Option<&str>, settings: Option<&str>, audit: bool) -> Result<bool, Misused>
    ensures told { IfOk result (λ told. told ≡ is_given (option_map (λ t. t.now) text.entry)) }
    ensures steered { IfOk result (λ told. told ≡ true → MaySteer (is_some settings.entry) audit) }
    ensures none { IfErr result
        (λ _. (is_given (option_map (λ t. t.now) text.entry) ≡ true)
        × (MaySteer (is_some settings.entry) audit → ⊥)) }
{
    if !is_given(text) {
        return Ok(false);
    }
    if settings.is_none() || audit {
        return Err(Misused::Control);
    }
    Ok(true)
}

/// Reads the seconds of `--grace`, 0 to 1,000,000; `None` for any other text.
fn grace_in(text: &str) -> Option<u64>
    ensures some { IfSome result (λ seconds. seconds ≤ 1000000 × Writes text.now seconds) }
    ensures none { IfNone result ((seconds : _) → seconds ≤ 1000000 → Writes text.now seconds → ⊥) }
{
    match text.parse::<u64>() {
        Ok(seconds) if seconds <= MOST_SECONDS => Some(seconds),
        _ => None,
    }
}

/// The seconds of `--grace`, 0 to 1,000,000, and `None` where it isn't given. The error is `Grace`, for any other text.
fn grace_of(text: Option<&str>) -> Result<Option<u64>, Misused>
    ensures within { IfOk result (λ told. IfSome told (λ seconds. seconds ≤ 1000000)) }
    ensures told { IfOk result (TellsIfGiven (option_map (λ t. t.now) text.entry)) }
    ensures none { IfErr result
        (λ _. (told : _) → IfSome told (λ seconds. seconds ≤ 1000000)
        → TellsIfGiven (option_map (λ t. t.now) text.entry) told → ⊥) }
{
    let Some(text) = text else {
        return Ok(None);
    };
    match grace_in(text) {
        Some(seconds) => Ok(Some(seconds)),
        None => Err(Misused::Grace),
    }
}

/// Whether `--stop-with-input` is given, so that the end of standard input stops the server. The error is `StopWithInput` where
/// standard input holds the settings (`settings` is `None`), or the lines of `--control`.
fn with_input_of(text: Option<&str>, settings: Option<&str>, control: bool) -> Result<bool, Misused>
    ensures told { IfOk result (λ told. told ≡ is_given (option_map (λ t. t.now) text.entry)) }
    ensures stopped { IfOk result (λ told. told ≡ true → MayStop (is_some settings.entry) control) }
    ensures none { IfErr result
        (λ _. (is_given (option_map (λ t. t.now) text.entry) ≡ true)
        × (MayStop (is_some settings.entry) control → ⊥)) }
{
    if !is_given(text) {
        return Ok(false);
    }
    if settings.is_none() || control {
        return Err(Misused::StopWithInput);
    }
    Ok(true)
}

/// How a server stops, by `--grace` and `--stop-with-input`. The error names the first of them that is wrong.
fn ending_by(
    options: &ArgMatches<'_>,
    settings: Option<&str>,
    control: bool,
) -> Result<ShutdownOptions, Misused>
    ensures within { IfOk result
        (λ ending. IfSome ending.grace_seconds (λ seconds. seconds ≤ 1000000)) }
    ensures stopped { IfOk result
        (λ ending. ending.with_input ≡ true → MayStop (is_some settings.entry) control) }
    ensures told { IfOk result (EndsBy (first_value (found_of options.now))) }
    ensures none { IfErr result (λ _. (ending : ShutdownOptions) → EndsBy (first_value (found_of options.now)) ending
        → IfSome ending.grace_seconds (λ seconds. seconds ≤ 1000000) → (ending.with_input ≡ true → MayStop (is_some settings.entry) control) → ⊥) }
{
    Ok(ShutdownOptions {
        grace_seconds: grace_of(options.get_str("grace"))?,
        with_input: with_input_of(options.get_str("stop-with-input"), settings, control)?,
    })
}

/// Reads all options of `serve`, fills in the defaults, and checks that the options go together. The error names the first one
/// that is wrong.
pub(crate) fn serving_by<'a>(options: &ArgMatches<'a>) -> Result<Serving<'a>, Misused>
    ensures within { IfOk result IsWithin }
    ensures served { IfOk result (IsServedBy (first_value (found_of options.now))) }
    ensures none { IfErr result (λ _. NoneServes (first_value (found_of options.now))) }
{
    let listen = listen_of(options.get_str("listen"))?;
    let workers = options.get_str("workers");
    let workers = number_or(workers, MOST_WORKERS, USUAL_WORKERS, Misused::Workers)?;
    let endless = is_given(options.get_str("endless"));
    let connections = connections_of(options.get_str("connections"), endless)?;
    let per_host = options.get_str("per-host");
    let per_host = number_if_given(per_host, MOST_PER_HOST, Misused::PerHost)?;
    let per_user = options.get_str("per-user");
    let per_user = number_if_given(per_user, MOST_PER_USER, Misused::PerUser)?;
    let open_seconds = seconds_of(options.get_str("for"), Misused::For)?;
    let idle_seconds = seconds_of(options.get_str("idle"), Misused::Idle)?;
    let login = options.get_str("login-within");
    let login_seconds = seconds_or(login, USUAL_LOGIN_SECONDS, Misused::LoginWithin)?;
    let frame = options.get_str("frame-within");
    let frame_seconds = seconds_or(frame, USUAL_FRAME_SECONDS, Misused::FrameWithin)?;
    let rate = number_if_given(options.get_str("rate"), MOST_RATE, Misused::Rate)?;
    let rate_bytes = options.get_str("rate-bytes");
    let rate_bytes = number_if_given(rate_bytes, MOST_RATE_BYTES, Misused::RateBytes)?;
    let audit = audit_of(options.get_str("audit"))?;
    let log_times = is_given(options.get_str("log-times"));
    let settings = options.get_str("settings");
    let control = control_of(options.get_str("control"), settings, audit)?;
    let ending = ending_by(options, settings, control)?;
    let librdkafka = is_given(options.get_str("librdkafka"));
    Ok(Serving {
        listen,
        workers,
        connections,
        endless,
        per_host,
        per_user,
        open_seconds,
        idle_seconds,
        login_seconds,
        frame_seconds,
        rate,
        rate_bytes,
        audit,
        log_times,
        settings,
        control,
        ending,
        librdkafka,
    })
}
