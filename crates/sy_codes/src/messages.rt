//! Faults of messages and of frames.

use crate::code::{Code, fault};
use sy_wire::{FrameFault, MsgCode};

/// The faults of a message's text, and those of the frames that carry messages.
pub(crate) fn message_codes() -> [Code; 14] {
    [
        fault(
            MsgCode::Pri.words(),
            "a message doesn't begin with <N>, where N is 0 to 191 without leading zeros",
            "have the sender write RFC 5424; a sender that can't is read by rsyslogd or syslog-ng, which sends it on as such",
        ),
        fault(
            MsgCode::Version.words(),
            "the version after the priority isn't 1: the message is of RFC 3164, or of no syslog",
            "have the sender write RFC 5424 (rsyslogd: template=\"RSYSLOG_SyslogProtocol23Format\"; logger: --rfc5424)",
        ),
        fault(
            MsgCode::Timestamp.words(),
            "the timestamp is neither - nor of RFC 5424, as 2026-11-29T21:06:51.123456Z",
            "have the sender write such a time, with at most six digits of a second, or -",
        ),
        fault(
            MsgCode::Hostname.words(),
            "the host's name isn't 1 to 255 printable characters of ASCII",
            "have the sender write such a name, or -",
        ),
        fault(
            MsgCode::AppName.words(),
            "the application's name isn't 1 to 48 printable characters of ASCII",
            "have the sender write such a name, or -",
        ),
        fault(
            MsgCode::ProcId.words(),
            "the process isn't 1 to 128 printable characters of ASCII",
            "have the sender write such a word, or -",
        ),
        fault(
            MsgCode::MsgId.words(),
            "the message's type isn't 1 to 32 printable characters of ASCII",
            "have the sender write such a word, or -",
        ),
        fault(
            MsgCode::StructuredData.words(),
            "the structured data is neither - nor elements as [id name=\"value\"]",
            "have the sender write a backslash before each \", \\ and ] of a value, or write - in place of the data",
        ),
        fault(
            MsgCode::Trailing.words(),
            "no space is between the structured data and the text",
            "have the sender write one",
        ),
        fault(
            FrameFault::BadLength.words(),
            "what comes is no frame, which begins with the message's length in decimal digits and a space",
            "have the sender count octets (rsyslogd: TCP_Framing=\"octet-counted\"; syslog-ng: syslog(transport(tcp)); logger: --octet-count)",
        ),
        fault(
            FrameFault::TooLong.words(),
            "a frame is longer than 65536 bytes",
            "have the sender write shorter messages (rsyslogd: global(maxMessageSize=\"64k\"))",
        ),
        fault(
            FrameFault::Truncated.words(),
            "the connection ended within a frame: its sender was stopped, or the network was",
            "nothing, where the sender sends it again; its own log says whether it does",
        ),
        fault(
            FrameFault::NoMemory.words(),
            "there was no memory for a frame",
            "give the relay more memory, or its queues a smaller size",
        ),
        fault(
            FrameFault::Failed.words(),
            "a read failed within a frame: the peer reset the connection, or is gone",
            "nothing, where the sender sends it again; its own log says whether it does",
        ),
    ]
}
