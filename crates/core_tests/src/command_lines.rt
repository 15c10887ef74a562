//! What the words of the command line ask for, where the numbers aren't given or are out of their range.

use arguments::{Job, Serving, Showing, ShutdownOptions, arguments};
use std::test::Fail;

/// `serve` with an address alone: four workers, a million connections, ten seconds for a login and thirty for a frame, and
/// nothing else that is asked for.
#[test]
fn serve_with_an_address_alone(rt: HostRuntime) -> Result<(), Fail> {
    let usual = Serving {
        listen: "127.0.0.1:0",
        workers: 4,
        connections: 1_000_000,
        endless: false,
        per_host: None,
        per_user: None,
        open_seconds: None,
        idle_seconds: None,
        login_seconds: 10,
        frame_seconds: 30,
        rate: None,
        rate_bytes: None,
        audit: false,
        log_times: false,
        settings: None,
        control: false,
        ending: ShutdownOptions {
            grace_seconds: None,
            with_input: false,
        },
        librdkafka: false,
    };
    let words = ["kbroker", "serve", "--listen", "127.0.0.1:0"];
    let job = arguments(rt.alloc(), &words).ok().ok_or("refused")?;
    assert!(rt; job == Job::Serve(usual));
    Ok(())
}

/// A command's FILE is one word that is no flag, or one after `--`; two are refused.
#[test]
fn a_file_is_named_once(rt: HostRuntime) {
    for (word, last, is_taken) in [
        ("a.toml", "--", Some("a.toml")),
        ("--", "-a", Some("-a")),
        ("-", "--", Some("-")),
        ("-a", "--", None),
        ("a.toml", "b.toml", None),
    ] {
        let words = ["kbroker", "check", word, last];
        let file = match arguments(rt.alloc(), &words) {
            Ok(Job::Check(file)) => file,
            _ => None,
        };
        assert!(rt; file == is_taken, "{word} {last}");
    }
}

/// `show` takes a file and `--answers`, in any order.
#[test]
fn show_has_a_file_and_answers(rt: HostRuntime) -> Result<(), Fail> {
    let showing = Showing {
        file: Some("script"),
        answers: Some("answers"),
    };
    let words = ["kbroker", "show", "--answers", "answers", "script"];
    let job = arguments(rt.alloc(), &words).ok().ok_or("refused")?;
    assert!(rt; job == Job::Show(showing));
    Ok(())
}

/// An address has a host without a slash, and a port, between which its last colon stands.
#[test]
fn addresses_have_a_host_and_a_port(rt: HostRuntime) {
    for (address, is_taken) in [
        ("127.0.0.1:0", true),
        ("localhost:65535", true),
        ("[::1]:09092", true),
        ("localhost:+9092", true),
        ("PLAINTEXT://localhost:9092", false),
        ("localhost:65536", false),
        ("localhost:", false),
        ("localhost:9092x", false),
        ("localhost:-1", false),
        (":9092", false),
        (":", false),
        ("9092", false),
        ("", false),
    ] {
        let words = ["kbroker", "serve", "--listen", address];
        let is_address = arguments(rt.alloc(), &words).is_ok();
        assert!(rt; is_address == is_taken, "{address}");
    }
}

/// `--log-times` is a flag: it is given, and takes no value.
#[test]
fn log_times_is_a_flag(rt: HostRuntime) {
    for (option, is_asked) in [("--log-times", true), ("--log-times=1", false)] {
        let words = ["kbroker", "serve", "--listen", "127.0.0.1:0", option];
        let is_taken = match arguments(rt.alloc(), &words) {
            Ok(Job::Serve(serving)) => serving.log_times,
            _ => false,
        };
        assert!(rt; is_taken == is_asked, "{option}");
    }
}

/// `--librdkafka` is a flag: it is given, and takes no value.
#[test]
fn librdkafka_is_a_flag(rt: HostRuntime) {
    for (option, is_served) in [("--librdkafka", true), ("--librdkafka=1", false)] {
        let words = ["kbroker", "serve", "--listen", "127.0.0.1:0", option];
        let is_taken = match arguments(rt.alloc(), &words) {
            Ok(Job::Serve(serving)) => serving.librdkafka,
            _ => false,
        };
        assert!(rt; is_taken == is_served, "{option}");
    }
}

/// `--endless` goes without a number of connections, and with all else.
#[test]
fn endless_goes_without_a_number(rt: HostRuntime) {
    for (option, number, is_taken) in [
        ("--workers", "4", Some(true)),
        ("--connections", "4", None),
    ] {
        let words = [
            "kbroker",
            "serve",
            "--listen",
            "127.0.0.1:0",
            "--endless",
            option,
            number,
        ];
        let is_endless = match arguments(rt.alloc(), &words) {
            Ok(Job::Serve(serving)) => Some(serving.endless),
            _ => None,
        };
        assert!(rt; is_endless == is_taken, "{option}");
    }
}

/// Each number of `serve`, but for those of `--for`, `--idle` and `--grace`, is taken at both ends of its range, and refused one
/// below and one above.
#[test]
fn numbers_at_their_limits(rt: HostRuntime) {
    for (option, number, is_served) in [
        ("--workers", "1", true),
        ("--workers", "64", true),
        ("--workers", "0", false),
        ("--workers", "65", false),
        ("--connections", "1", true),
        ("--connections", "1000000", true),
        ("--connections", "0", false),
        ("--connections", "1000001", false),
        ("--per-host", "1", true),
        ("--per-host", "1000000", true),
        ("--per-host", "0", false),
        ("--per-host", "1000001", false),
        ("--per-user", "1", true),
        ("--per-user", "1000000", true),
        ("--per-user", "0", false),
        ("--per-user", "1000001", false),
        ("--login-within", "1", true),
        ("--login-within", "1000000", true),
        ("--login-within", "0", false),
        ("--login-within", "1000001", false),
        ("--frame-within", "1", true),
        ("--frame-within", "1000000", true),
        ("--frame-within", "0", false),
        ("--frame-within", "1000001", false),
        ("--rate", "1", true),
        ("--rate", "1000000000", true),
        ("--rate", "0", false),
        ("--rate", "1000000001", false),
        ("--rate-bytes", "1", true),
        ("--rate-bytes", "1000000000000", true),
        ("--rate-bytes", "0", false),
        ("--rate-bytes", "1000000000001", false),
    ] {
        let words = [
            "kbroker",
            "serve",
            "--listen",
            "127.0.0.1:0",
            option,
            number,
        ];
        let is_taken = arguments(rt.alloc(), &words).is_ok();
        assert!(rt; is_taken == is_served, "{option} {number}");
    }
}
