//! Texts that begin with a byte order mark, or look like UTF-16, and lines that end with CR LF.

use sy_report::texts::note::Note;
use sy_report::texts::parts::Part;

fn is_utf16(text: &[u8]) -> bool {
    text.starts_with(&[0xff, 0xfe]) || text.starts_with(&[0xfe, 0xff])
}

/// Says what a text is that no line of can be read, where it is that, and answers whether it is.
pub fn push_encoding(note: &mut Note, file: &[u8], text: &[u8]) -> bool {
    if text.starts_with(&[0xef, 0xbb, 0xbf]) {
        note.what.say("byte order mark");
        note.why.say("the byte 0xEF: the file begins with a UTF-8 byte order mark");
        note.change.append(&[
            Part::Text(b"sed -i '1s/^\\xef\\xbb\\xbf//' "),
            Part::Text(file),
        ]);
        return true;
    }
    if is_utf16(text) {
        note.what.say("byte order mark");
        note.why.say(if text.first() == Some(&0xff) {
            "the byte 0xFF: the file looks like UTF-16"
        } else {
            "the byte 0xFE: the file looks like UTF-16"
        });
        note.change.append(&[
            Part::Text(b"iconv -f UTF-16 -t UTF-8 "),
            Part::Text(file),
            Part::Text(b" >FILE"),
        ]);
        return true;
    }
    false
}

/// Says of a line that ends with CR LF that it does, where it does, and answers whether it does.
pub fn push_return(note: &mut Note, file: &[u8], line: &[u8]) -> bool {
    if line.last() != Some(&b'\r') {
        return false;
    }
    note.why.say("the line ends with CR LF, and a CR is a byte of the line here");
    note.change
        .append(&[Part::Text(b"sed -i 's/\\r$//' "), Part::Text(file)]);
    true
}
