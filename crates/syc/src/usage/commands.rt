//! What the helps of the commands say.

/// The one name that may be left out, or be two words.
pub const CODE: &str = "CODE";

/// The one name that may be given several times.
pub const CONFIG: &str = "CONFIG";

const SITE: &str =
    "The site file: it names the relays with their configurations, the entries, what is protected, and which actions are spare";

const EXPLAIN: &str =
    "Explain what is found, or the fault: where it stands, why, and what to change";

const EXPLAIN_FOUND: &str =
    "Explain what is found since, or isn't any more: where it stands, why, and what to change";

const ALL: &str =
    "List every finding, with the classes that it affects, and every fault, in place of the first";

const STRICT: &str = "Refuse a site that has warnings too, and print them";

const JSON: &str = "Print one JSON document in place of the text";

const EVENTS: &str = "The events, one a line; - is standard input";

const CERT: &str = "The certificate, as certify prints it; - is standard input";

const OLD: &str =
    "The site file before the change; the files that it names are looked for in its folder";

const NEW: &str = "The same after the change";

const DIFF_BEHIND: &str = "Exit status:
  0  no worse: each archive of each class, each entry and each whole entry is there still, and nothing new is found
  1  worse: something of these was lost, or something new is found
  2  a file is faulty, or the command line is
  3  out of memory
  4  a read or a write failed

Example:
  syc diff --rename hub=center old/site new/site";

const CONFIGS: &str =
    "Configurations of rsyslogd, each of a host of its own; without --root what they include isn't read";

const SARIF: &str = "Print a document of SARIF 2.1.0 in place of text";

const ASSUMED: &str = "Refuse what is taken for granted too";

const SURVEY_BEHIND: &str = "Exit status, of several files the greatest:
  0  nothing is found
  1  something is found, or with --strict something is taken for granted
  2  a text isn't read, or the command line is faulty
  3  out of memory
  4  a read or a write failed

Example:
  syc survey --root / /etc/rsyslog.conf";

const CONVERTED: &str = "A configuration of rsyslogd; without --root what it includes isn't read";

const CONVERT_BEHIND: &str = "Exit status:
  0  the whole is carried over, and syc check accepts it
  1  something is left out by which messages may be lost, or it is refused
  2  the text isn't read, or the command line is faulty
  3  out of memory
  4  a read or a write failed

Example:
  syc convert --root / /etc/rsyslog.conf >plan";

const PASS_BEHIND: &str = "Exit status:
  0  all messages were written
  2  the input is faulty, or the command line is
  3  out of memory
  4  a read or a write failed

Example:
  syc pass <frames >lines";

const CHECK_BEHIND: &str = "Exit status, with any of these options:
  0  accepted: no message of a protected class is lost, but at or behind a spare action
  1  refused: something is found, or with --strict something is warned of
  2  a file is faulty, or the command line is
  3  out of memory
  4  a read or a write failed

Example:
  syc check --explain site";

const CERTIFY_BEHIND: &str = "Exit status, with any of these options:
  0  accepted: the certificate is printed
  1  refused: something is found, as by check
  2  a file is faulty, or the command line is
  3  out of memory
  4  a read or a write failed

Example:
  syc certify site >cert";

const VERIFY_BEHIND: &str = "Exit status, with any of these options:
  0  accepted: the certificate shows that no message of a protected class is lost, but at or behind a spare action
  1  refused: a row of the certificate is wrong or lacking
  2  a file is faulty, or the command line is
  3  out of memory
  4  a read or a write failed

Example:
  syc verify site cert";

const REPLAY_BEHIND: &str = "Exit status, with any of these options:
  0  all events were made
  1  an event is no step of the site, or finds a total full
  2  a file is faulty, or the command line is
  3  out of memory
  4  a read or a write failed

Example:
  syc replay site events";

const RUN_BEHIND: &str = "Exit status:
  0  the relay ran until standard input ended
  1  the site is refused, or with --strict it has warnings
  2  a file is faulty, the site has no such relay, or the command line is faulty
  3  out of memory
  4  a read or a write failed, or a port or a file can't be opened

Lines on standard input:
  status  prints the totals as they stand on standard error
  reopen  opens the archives anew

Example:
  syc run site hub";

const UNREAD_BEHIND: &str = "Exit status:
  0  all of the file was read; with --repair, all are messages now
  1  something of it is no record; with --repair, or was left
  2  the file isn't one of frames, or the command line is faulty
  3  out of memory
  4  a read or a write failed

Example:
  syc unread --repair unread | nc -N localhost 6514";

const LINES_BEHIND: &str = "Exit status:
  0  all lines are messages
  1  some lines aren't, which are told, and the others are printed
  2  the command line is faulty
  3  out of memory
  4  a read or a write failed

Example:
  syc lines audit.log | nc -N localhost 6514";

const FULL: &str =
    "Draw each relay in full, with the site file's name, the date and the SHA-256 of its files below; else more than 12 relays are drawn as an overview";

const GRAPH_BEHIND: &str = "Exit status:
  0  the graph was printed
  2  a file is faulty, or the command line is
  3  out of memory
  4  a read or a write failed

Example:
  syc graph site | dot -Tsvg >site.svg";

const EXPLAIN_BEHIND: &str = "Exit status:
  0  it was printed
  2  there is no such code, or the command line is faulty
  3  out of memory
  4  a write failed

Examples:
  syc explain 42
  syc explain kind 4
  syc explain SharedWorker";

/// The commands: the word of each, what it does, its names and options with what they mean, and the end of its help.
pub static COMMANDS: [(&str, &str, &[(&str, &str)], &[(&str, &str)], &str); 13] = [
    (
        "pass",
        "Read messages in octet-counted frames from standard input and write one line a message",
        &[],
        &[],
        PASS_BEHIND,
    ),
    (
        "check",
        "Say whether a site keeps the messages of its protected classes",
        &[("SITE", SITE)],
        &[
            ("explain", EXPLAIN),
            ("all", ALL),
            ("json", JSON),
            ("strict", STRICT),
        ],
        CHECK_BEHIND,
    ),
    (
        "certify",
        "Print a certificate of a site, for others to verify",
        &[("SITE", SITE)],
        &[("explain", EXPLAIN), ("json", JSON)],
        CERTIFY_BEHIND,
    ),
    (
        "verify",
        "Say whether a certificate shows that a site keeps the messages of its protected classes",
        &[("SITE", SITE), ("CERT", CERT)],
        &[("explain", EXPLAIN), ("json", JSON)],
        VERIFY_BEHIND,
    ),
    (
        "replay",
        "Make the events of a file at the site of a site file, and print each loss",
        &[("SITE", SITE), ("EVENTS", EVENTS)],
        &[("explain", EXPLAIN), ("json", JSON)],
        REPLAY_BEHIND,
    ),
    (
        "diff",
        "Say whether a site is worse than the one before a change",
        &[("OLD", OLD), ("NEW", NEW)],
        &[("explain", EXPLAIN_FOUND), ("json", JSON)],
        DIFF_BEHIND,
    ),
    (
        "survey",
        "Say where rsyslogd may lose messages by its own configurations",
        &[(CONFIG, CONFIGS)],
        &[("strict", ASSUMED), ("json", JSON), ("sarif", SARIF)],
        SURVEY_BEHIND,
    ),
    (
        "convert",
        "Print a relay's configuration made of one of rsyslogd, and what can't be carried over",
        &[("FILE", CONVERTED)],
        &[],
        CONVERT_BEHIND,
    ),
    (
        "run",
        "Check a site, and run one of its relays until standard input ends",
        &[
            ("SITE", SITE),
            ("RELAY", "The name of the relay that is run"),
        ],
        &[
            ("unchecked", "Run it without a check"),
            ("explain", EXPLAIN),
            ("strict", STRICT),
        ],
        RUN_BEHIND,
    ),
    (
        "unread",
        "Say what a file of run --unread has, and what to change at the senders",
        &[("FILE", "The file of frames that carry no message")],
        &[(
            "repair",
            "Write those of which a repair makes messages to standard output, as frames",
        )],
        UNREAD_BEHIND,
    ),
    (
        "lines",
        "Print the messages of an archive whose lines have escapes, as frames",
        &[(
            "FILE",
            "An archive of an action with escapeControlCharacters=\"on\"",
        )],
        &[],
        LINES_BEHIND,
    ),
    (
        "graph",
        "Print a site as a graph, for Graphviz",
        &[("SITE", SITE)],
        &[("full", FULL)],
        GRAPH_BEHIND,
    ),
    (
        "explain",
        "Say what a number or a name means that the program reports, and what to do",
        &[(
            CODE,
            "A number, as 42; kind and a number; a name; or none, for a line of each",
        )],
        &[],
        EXPLAIN_BEHIND,
    ),
];
