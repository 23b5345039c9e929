//! What to change at a sender.

use crate::hint::Hint;

// What to change where the bytes begin like something else than a message.
fn by_hint(hint: Hint) -> Option<&'static str> {
    match hint {
        Hint::Tls => Some(
            "turn TLS off at the sender for this input, or have a program before it that ends TLS",
        ),
        Hint::Http => Some("a client of HTTP sends to this port: give it another one"),
        Hint::Rfc3164 => Some(
            "rsyslogd: template=\"RSYSLOG_SyslogProtocol23Format\" TCP_Framing=\"octet-counted\"; syslog-ng: the driver syslog(); logger: --rfc5424 --octet-count",
        ),
        Hint::LineFeeds => Some(
            "count octets: rsyslogd: TCP_Framing=\"octet-counted\"; syslog-ng: syslog(transport(\"tcp\")); logger: --octet-count",
        ),
        Hint::Unknown => None,
    }
}

// What to change where a part of a message is not in its grammar, by the fault's number.
fn by_fault(fault: &[u8]) -> &'static str {
    if fault.starts_with(b"1 ") {
        return "a message begins with <PRIVAL>, 0 to 191: rsyslogd: <%PRI%>";
    }
    if fault.starts_with(b"2 ") {
        return "rsyslogd: template=\"RSYSLOG_SyslogProtocol23Format\"; syslog-ng: the driver syslog()";
    }
    if fault.starts_with(b"3 ") {
        return "a time with its zone, as 2003-10-11T22:14:15.003Z: rsyslogd: %TIMESTAMP:::date-rfc3339%; syslog-ng: ts-format(iso)";
    }
    if fault.starts_with(b"4 ") {
        return "at most 255 bytes of %d33-126: rsyslogd: %HOSTNAME:1:255%";
    }
    if fault.starts_with(b"5 ") {
        return "at most 48 bytes of %d33-126: rsyslogd: %APP-NAME:1:48%; syslog-ng: set(\"$(substr ${PROGRAM} 0 48)\", value(\"PROGRAM\"))";
    }
    if fault.starts_with(b"6 ") {
        return "at most 128 bytes of %d33-126: rsyslogd: %PROCID:1:128%";
    }
    if fault.starts_with(b"7 ") {
        return "at most 32 bytes of %d33-126: rsyslogd: %MSGID:1:32%";
    }
    by_later_fault(fault)
}

// The same of the faults after MSGID, and of those of frames.
fn by_later_fault(fault: &[u8]) -> &'static str {
    if fault.starts_with(b"8 ") {
        return "structured data or a dash: rsyslogd: %STRUCTURED-DATA% alone, without a text of your own beside it";
    }
    if fault.starts_with(b"9 ") {
        return "a space after the structured data: rsyslogd: %STRUCTURED-DATA% %msg%";
    }
    if fault.starts_with(b"11 ") {
        return "count octets: rsyslogd: TCP_Framing=\"octet-counted\"; syslog-ng: the driver syslog()";
    }
    if fault.starts_with(b"12 ") {
        return "at most 65,536 bytes: rsyslogd: global(maxMessageSize=\"64k\"); syslog-ng: log-msg-size(65536)";
    }
    "see that the sender closes its connection after a whole frame"
}

/// What to change at the sender of bytes with a fault, as `5 AppName`, by what they begin like.
pub fn advice(fault: &[u8], hint: Hint) -> &'static str {
    match by_hint(hint) {
        Some(words) => words,
        None => by_fault(fault),
    }
}
