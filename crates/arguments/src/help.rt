//! What `--help` says of each command.

pub(crate) const PROGRAM: &str = "An in-memory Kafka broker for several tenants

`kbroker COMMAND --help` tells more of a command. In the repository, docs/USING.md tells of
settings, clients and scripts, docs/OPERATING.md of a server, and examples/ has pages for kcat and
confluent-kafka.";

/// The version of the program.
pub const VERSION: &str = "0.1.0";

pub(crate) const REPLAY: &str = "Answers a script of requests";

pub(crate) const REPLAY_LONG: &str = "Answers a script of requests.

FILE, or else standard input, holds the settings, a line `---`, and the script, whose lines are

    req USER HOST HEX    a request of the principal `User:USER` at HOST, its frame with the size
                         field in hexadecimal digits
    mark                 the first pending marker of an ended transaction is written
    tick N               the clock shows N milliseconds, in decimal digits; it never goes back

The whole input is read before the first line is answered.

Standard output gets, for each line, the response in hexadecimal digits, `-` where none is sent, or
`closed` where the broker would close the connection, and then one line for each part of the request
that was refused. A line that can't be read prints `line N: unreadable`, a broker that takes no more
events `stop N`, and settings with a fault `settings refused: FAULT`; each ends the run. Standard
error gets a sentence that says where and why.

The exit status is 0 where each line was answered, 1 where the run ended before or FILE can't be
opened, and 2 for a command line that isn't understood.";

pub(crate) const REPLAY_EXAMPLE: &str = "Example:

    kbroker replay examples/metadata.txt";

pub(crate) const CHECK: &str = "Tells what is wrong with settings";

pub(crate) const CHECK_LONG: &str = "Tells what is wrong with settings.

FILE, or else standard input, holds the settings, from its first line to its last.

Standard output gets `settings ok`, or `settings refused: FAULT`, FAULT being the first of Toml,
Key, User, Range, TopicName, Twice, Acl, Super and NoMemory that holds. Standard error gets a
sentence that says which key of which table, and why.

The exit status is 0 where the settings can be taken, 1 where they are refused or can't be read, and
2 for a command line that isn't understood.";

pub(crate) const SCRIPT_FILE: &str =
    "The file that holds the settings and the script; standard input if it isn't given";

pub(crate) const CHECK_FILE: &str =
    "The file that holds the settings; standard input if it isn't given";

pub(crate) const CHECK_EXAMPLE: &str = "Example:

    kbroker check settings.toml

Settings to begin with, of one user, to whom everything is allowed, and one topic:

    node_id = 1
    host = \"127.0.0.1\"
    port = 9092
    supers = [\"User:ann\"]
    user = [{ name = \"ann\", password = \"secret\" }]
    topic = [{ name = \"orders\", partitions = 2 }]";

pub(crate) const SHOW: &str = "Shows a script of requests, and their answers, in words";

pub(crate) const SHOW_LONG: &str = "Shows a script of requests, and their answers, in words.

FILE, or else standard input, holds what `replay` reads. Each request is shown by the names of the
protocol's guide, with the records of its batches, and beside it its answer, which is made as
`replay` makes it. With `--answers FILE` the answers are read from a file instead, which holds what
an earlier `replay` printed. Where there are no settings, and so no line `---`, requests alone are
shown.

A frame that can't be read is told by its first fault, and by the byte at which that stands. A line
that can't be read, a broker that takes no more events, and settings with a fault each end the run,
as in `replay`.

The exit status is 0 where each line was shown, 1 where the run ended before, and 2 for a command
line that isn't understood.";

pub(crate) const SHOW_EXAMPLE: &str = "Example:

    kbroker show examples/metadata.txt";

pub(crate) const ANSWERS: &str = "The file that holds what an earlier `replay` printed;
the answers are made anew if it isn't given";

pub(crate) const SERVE: &str = "Serves clients over TCP";

pub(crate) const SERVE_LONG: &str = "Serves clients over TCP.

Standard input holds the settings, from its first line to its last, or the file that `--settings`
names. Each client logs in by SASL PLAIN as one of their users. A connection has a worker of its own
from its first byte to its last, so as many clients are served at once as there are workers, and the
others wait until one of them leaves.

Standard output gets `listening on ADDRESS` as soon as clients can connect, and a last line once so
many connections were served: `sessions S events E refusals R` where each answer that was given
stands in the broker's trail, and `settle failed: FAULT` where that can't be shown. Where the
address can't be listened on, it gets `listen failed`, where the settings' file can't be opened,
`open failed`, and where the settings have a fault, `settings refused: FAULT`.

With `--control` there is no clock. Lines of standard input steer the broker, each answered on
standard output once it is done:

    tick N     the clock shows N milliseconds: `moment M`, `aborted ID` for each transaction whose
               time was over, and `owed K`, the markers that are pending
    mark       the first pending marker is written: `marker`, what it says and where, `owed K`
    marks      all of them, a line for each, and at last `markers N`
    audit      the refusals since the last time, a line for each, and at last `refusals N`
    state      how things stand, a line for each thing, and at last `events N`
    end        no more connections are taken, and those that are open are served to their end

Another line is answered `unreadable`, and a step that is not taken `stop N`. The end of standard
input is `end`.

With `--stop-with-input` the broker keeps its own time. `audit` and `state` are answered as above,
and every other line but `end` is answered `unreadable`. `end` and the end of standard input stop
the broker, as the end of the time of `--for` does: no more connections are taken, no further
request is read, answers that are due are written, and so are pending markers. Connections
that are still open after the seconds of `--grace` are closed.

With `--librdkafka` ApiVersions lists, before a login, SaslHandshake and FindCoordinator from
version 0 on: librdkafka, on which kcat and confluent-kafka stand, logs in only where it sees them
so, and then asks them in version 1. Version 0 of the two is not served. And since such a client
asks again at once, the answer to a Fetch that brings no record is held back for as long as the
request's max_wait_ms says, at most for 100 milliseconds.

Standard error gets a line that begins with `kbroker: ` for each connection that ended otherwise
than between two requests, and with `--audit -` the line of each refusal, as `replay` prints it.

Where standard error is no terminal, or with `--log-times`, each line of a running server begins
with the time in UTC and a level, INFO or WARN, as `2026-11-29T03:50:45.123Z INFO kbroker: ..`. What
is said before it serves, as of settings, has neither. docs/OPERATING.md tells which lines there
are.

The exit status is 0 where all was served and settled, 1 where it wasn't, and 2 for a command line
that isn't understood.";

pub(crate) const SERVE_EXAMPLE: &str = "Example:

    kbroker serve --listen 127.0.0.1:9092 --settings settings.toml

Settings to begin with, of one user, to whom everything is allowed, and one topic:

    node_id = 1
    host = \"127.0.0.1\"
    port = 9092
    supers = [\"User:ann\"]
    user = [{ name = \"ann\", password = \"secret\" }]
    topic = [{ name = \"orders\", partitions = 2 }]

A client's properties, as librdkafka names them; such clients need `serve --librdkafka`:

    bootstrap.servers=127.0.0.1:9092
    security.protocol=SASL_PLAINTEXT
    sasl.mechanism=PLAIN
    sasl.username=ann
    sasl.password=secret";

pub(crate) const LISTEN: &str =
    "The address and the port to listen on; port 0 takes one that is free";

pub(crate) const WORKERS: &str = "How many connections are served at once, 1 to 64 [default: 4]";

pub(crate) const CONNECTIONS: &str =
    "How many connections are served in all, 1 to 1,000,000 [default: 1000000]";

pub(crate) const ENDLESS: &str =
    "Connections are served without end: they aren't counted; without --connections";

pub(crate) const PER_HOST: &str =
    "How many connections of one host are served at once at most, 1 to 1,000,000;
any number if it isn't given";

pub(crate) const PER_USER: &str =
    "How many sessions of one user are served at once at most, 1 to 1,000,000;
a further one is closed after its login; any number if it isn't given";

pub(crate) const RATE: &str =
    "How many requests each user may send in a second, 1 to 1,000,000,000, a partition of a
transaction like one; above that its sessions wait before they read on, and one that
would wait for more than 10 seconds is closed; any number if it isn't given";

pub(crate) const RATE_BYTES: &str =
    "How many bytes of requests and answers each user may have in a second,
1 to 1,000,000,000,000; above that as with --rate; any number if it isn't given";

pub(crate) const FOR: &str = "After how many seconds the broker stops, 1 to 1,000,000; see --grace";

pub(crate) const IDLE: &str =
    "After how many seconds of waiting for its peer a connection is closed, 1 to 1,000,000;
never if it isn't given";

pub(crate) const LOGIN_WITHIN: &str = "Within how many seconds a client logs in, 1 to 1,000,000;
else its connection is closed [default: 10]";

pub(crate) const FRAME_WITHIN: &str =
    "Within how many seconds a request comes, from its first byte to its last, 1 to 1,000,000;
else its connection is closed [default: 30]";

pub(crate) const AUDIT: &str =
    "Where each refusal is told as it happens: -, which is standard error";

pub(crate) const LOG_TIMES: &str =
    "Each line of a running server on standard error begins with a time and a level,
as it does where that is no terminal";

pub(crate) const SETTINGS: &str =
    "The file that holds the settings; standard input if it isn't given";

pub(crate) const CONTROL: &str = "Lines of standard input steer the broker, in place of the clock;
with --settings, and without --audit";

pub(crate) const GRACE: &str =
    "How many seconds after a stop the connections that are still open are closed,
0 to 1,000,000; never with --control [default: 5]";

pub(crate) const STOP_WITH_INPUT: &str =
    "The end of standard input stops the broker, and so does a line `end`;
with --settings, and without --control";

pub(crate) const LIBRDKAFKA: &str = "ApiVersions lists before a login what librdkafka looks for:
SaslHandshake and FindCoordinator from version 0";
