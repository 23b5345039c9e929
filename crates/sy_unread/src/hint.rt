//! What bytes that are no message begin like.
ghost use Rattle.std.specs.Prelude.{◌≡◌, ◌+◌, ◌<◌, ◌≤◌, length, slice_index, nat_eq};
ghost use Rattle.sy_unread.specs.Hints as spec;

/// What bytes begin like.
#[derive(Clone, Copy, PartialEq, Eq)]
pub enum Hint {
    /// A priority and no version.
    Rfc3164,
    /// A handshake record of TLS.
    Tls,
    /// A request of HTTP.
    Http,
    /// A head of RFC 5424 without a count of octets.
    LineFeeds,
    /// None of these.
    Unknown,
}

impl Hint {
    /// What bytes begin like that a framer or a reader of messages refuses.
    pub fn of(bytes: &[u8]) -> Hint
        ensures { result ≡ spec.hint_of bytes.now }
    {
        if is_hello(bytes) {
            return Hint::Tls;
        }
        if is_request(bytes) {
            return Hint::Http;
        }
        head_hint(bytes, pri_length(bytes))
    }

    /// The words of a line, as `begins like HTTP`; none where nothing is known.
    pub fn words(self) -> &'static str
        ensures { result.now ≡ spec.hint_words self }
    {
        match self {
            Hint::Rfc3164 => "begins like RFC 3164",
            Hint::Tls => "begins like a TLS hello",
            Hint::Http => "begins like HTTP",
            Hint::LineFeeds => "begins like messages framed by line feeds",
            Hint::Unknown => "",
        }
    }
}

// The byte at a place, 0 after the last.
pub(crate) fn byte_at(bytes: &[u8], at: usize) -> u8
    ensures { result ≡ slice_index bytes.now at }
{
    if at < bytes.len() { bytes[at] } else { 0 }
}

// Whether a byte is a digit.
pub(crate) fn is_digit(byte: u8) -> bool
    ensures { result ≡ spec.is_digit byte }
{
    byte >= b'0' && byte <= b'9'
}

/// How many bytes a priority in angle brackets has at the front, 3 to 5; 0 where there is none.
pub fn pri_length(bytes: &[u8]) -> usize
    ensures value { result ≡ spec.pri_length bytes.now }
    ensures within { result ≤ 5 }
{
    if byte_at(bytes, 0) != b'<' || !is_digit(byte_at(bytes, 1)) {
        return 0;
    }
    if byte_at(bytes, 2) == b'>' {
        return 3;
    }
    if !is_digit(byte_at(bytes, 2)) {
        return 0;
    }
    if byte_at(bytes, 3) == b'>' {
        return 4;
    }
    if is_digit(byte_at(bytes, 3)) && byte_at(bytes, 4) == b'>' {
        return 5;
    }
    0
}

fn is_hello(bytes: &[u8]) -> bool
    ensures { result ≡ spec.is_hello bytes.now }
{
    byte_at(bytes, 0) == 22 && byte_at(bytes, 1) == 3
}

fn begins(bytes: &[u8], word: &[u8]) -> bool
    ensures { result ≡ spec.begins bytes.now word.now }
{
    bytes.starts_with(word)
}

fn is_request(bytes: &[u8]) -> bool
    ensures { result ≡ spec.is_request bytes.now }
{
    begins(bytes, b"GET ")
        || begins(bytes, b"POST ")
        || begins(bytes, b"PUT ")
        || begins(bytes, b"HEAD ")
        || begins(bytes, b"OPTIONS ")
        || begins(bytes, b"CONNECT ")
        || begins(bytes, b"DELETE ")
        || begins(bytes, b"TRACE ")
}

// What the bytes after a priority say.
fn head_hint(bytes: &[u8], at: usize) -> Hint
    requires { at ≤ 5 }
    ensures { result ≡ spec.head_hint bytes.now at }
{
    if at == 0 {
        return Hint::Unknown;
    }
    let version = byte_at(bytes, at);
    if !is_digit(version) || byte_at(bytes, at + 1) != b' ' {
        return Hint::Rfc3164;
    }
    if version == b'1' {
        Hint::LineFeeds
    } else {
        Hint::Unknown
    }
}
