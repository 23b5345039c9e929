//! What is lost where something of rsyslog's is left out that this profile doesn't have, and where it is had.

/// What is left out, by the kind of what it does.
#[derive(Clone, Copy)]
enum Lost {
    Encryption,
    DiskQueue,
    Sync,
    Modes,
    FileInput,
    HostInput,
    OtherInput,
    Template,
    Sessions,
    Size,
}

/// How the names of parameters and directives begin, in small letters and without `$`.
static NAMES: [(&[u8], Lost); 27] = [
    (b"streamdriver", Lost::Encryption),
    (b"defaultnetstreamdriver", Lost::Encryption),
    (b"actionsendstreamdriver", Lost::Encryption),
    (b"inputtcpserverstreamdriver", Lost::Encryption),
    (b"permittedpeer", Lost::Encryption),
    (b"tls", Lost::Encryption),
    (b"queue.filename", Lost::DiskQueue),
    (b"queue.maxdiskspace", Lost::DiskQueue),
    (b"queue.maxfilesize", Lost::DiskQueue),
    (b"queue.spooldirectory", Lost::DiskQueue),
    (b"queue.checkpointinterval", Lost::DiskQueue),
    (b"queue.syncqueuefiles", Lost::DiskQueue),
    (b"actionqueue", Lost::DiskQueue),
    (b"mainmsgqueue", Lost::DiskQueue),
    (b"sync", Lost::Sync),
    (b"actionfileenablesync", Lost::Sync),
    (b"filecreatemode", Lost::Modes),
    (b"dircreatemode", Lost::Modes),
    (b"fileowner", Lost::Modes),
    (b"filegroup", Lost::Modes),
    (b"dirowner", Lost::Modes),
    (b"dirgroup", Lost::Modes),
    (b"umask", Lost::Modes),
    (b"template", Lost::Template),
    (b"dynafile", Lost::Template),
    (b"maxsessions", Lost::Sessions),
    (b"maxmessagesize", Lost::Size),
];

/// Modules by their names.
static MODULES: [(&[u8], Lost); 8] = [
    (b"imfile", Lost::FileInput),
    (b"imuxsock", Lost::HostInput),
    (b"imklog", Lost::HostInput),
    (b"imkmsg", Lost::HostInput),
    (b"imjournal", Lost::HostInput),
    (b"imudp", Lost::OtherInput),
    (b"imptcp", Lost::OtherInput),
    (b"imrelp", Lost::OtherInput),
];

// What is lost, and where it is had.
fn words_on(lost: Lost) -> &'static str {
    match lost {
        Lost::Encryption =>
            "without it the connection is plain, and whoever is between reads and changes what goes by: let stunnel or WireGuard encrypt between the two hosts, and lead to its end on this one",
        Lost::DiskQueue =>
            "without it what waits is in memory alone, and lost where the host goes down: at a stop run --left FILE writes it to a file, which syc-run --resend sends again at the next start",
        Lost::Sync =>
            "without it a line is given to the kernel and not synced, so that a crash of the host may lose the last ones: sync=\"on\" of an action of type omfile has lines on the disk before they count as written",
        Lost::Modes =>
            "without it files belong to the user that the relay runs as: User= and Group= of its service set these, and fileOwner, fileGroup and fileCreateMode of an action of type omfile set them of a file that is made",
        Lost::FileInput =>
            "without it the lines of that file don't come here: imfile of an rsyslogd on that host reads it, and omfwd sends each as RFC 5424 in octet-counted frames over TCP",
        Lost::HostInput =>
            "without it the host's own messages don't come here: an rsyslogd on that host goes on reading them, and omfwd sends each as RFC 5424 in octet-counted frames over TCP",
        Lost::OtherInput =>
            "without it such senders aren't heard: module(load=\"imtcp\") takes octet-counted TCP, as logger --tcp --octet-count, or omfwd with TCP_Framing=\"octet-counted\", sends it; an rsyslogd before the relay takes the others and sends so",
        Lost::Template =>
            "without it a line is the message as it came, in one file: programs that read the file make other forms, and a ruleset with an input of its own gives its senders a file",
        Lost::Sessions =>
            "without it each input serves up to 10,000 connections at once, and others wait: maxSessions=\"20000\" of an input, or of its module, allows more",
        Lost::Size =>
            "without it a message has up to 65,536 bytes, which is the most there is here",
    }
}

// Whether a name begins with these small letters.
fn begins(name: &[u8], start: &[u8]) -> bool {
    match name.get(..start.len()) {
        Some(first) => first.eq_ignore_ascii_case(start),
        None => false,
    }
}

/// What is lost without a parameter or a directive of this name, and where that is had, where it is known.
pub fn lost_without(name: &[u8]) -> Option<&'static str> {
    let name = match name {
        [b'$', rest @ ..] => rest,
        _ => name,
    };
    for (start, lost) in &NAMES {
        if begins(name, start) {
            return Some(words_on(*lost));
        }
    }
    None
}

/// The same of a module.
pub fn lost_without_module(name: &[u8]) -> Option<&'static str> {
    for (known, lost) in &MODULES {
        if begins(name, known) {
            return Some(words_on(*lost));
        }
    }
    None
}

/// The same of a parameter's value.
pub fn lost_without_value(name: &[u8], value: &[u8]) -> Option<&'static str> {
    if name.eq_ignore_ascii_case(b"type") {
        return lost_without_module(value);
    }
    if name.eq_ignore_ascii_case(b"queue.type") && value.eq_ignore_ascii_case(b"disk") {
        return Some(words_on(Lost::DiskQueue));
    }
    None
}

/// Whether a parameter's value is by its name a module of rsyslog's that writes, sends or changes messages.
pub fn is_other_module(name: &[u8], value: &[u8]) -> bool {
    name.eq_ignore_ascii_case(b"type") && (begins(value, b"om") || begins(value, b"mm"))
}
