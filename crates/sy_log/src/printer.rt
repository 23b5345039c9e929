//! What prints lines, by few writes.

use crate::waiting_lines::{WaitingLines, count_lines};
use std::alloc::{AllocError, Global};
use sy_report::texts::parts::{Part, append_parts};
use sy_wire::Sink;

/// How many bytes of whole lines are written at once: as many as go into a pipe in one piece, whoever else writes there.
const PIECE: usize = 4096;

/// What lines are printed on, and how many weren't printed that isn't reported yet.
#[derive(Drop)]
pub struct Printer<E: Drop> {
    errors: E,
    left_out: u64,
    // whether the last line was printed in part
    is_torn: bool,
}

// The line that reports lines that were left out.
fn left_out_line(alloc: Global, count: u64) -> Result<Vec<u8>, AllocError> {
    let mut text = Vec::new(alloc);
    let parts = [
        Part::Text(b"syc: "),
        Part::Number(count),
        Part::Text(b" lines left out\n"),
    ];
    append_parts(&mut text, &parts)?;
    Ok(text)
}

impl<E: Sink + Drop> Printer<E> {
    /// What prints there.
    pub fn new(errors: E) -> Printer<E> {
        Printer {
            errors,
            left_out: 0,
            is_torn: false,
        }
    }

    // Ends a line that was printed in part; whether the next one can begin.
    fn end_torn(&mut self) -> bool {
        if self.is_torn {
            self.is_torn = self.errors.write(b"\n").is_err();
        }
        !self.is_torn
    }

    // Writes these bytes as far as that can be done; answers those that are left.
    fn write_bytes<'a>(&mut self, bytes: &'a [u8]) -> &'a [u8] {
        let mut rest = bytes;
        for _ in 0..bytes.len() {
            if rest.is_empty() {
                return rest;
            }
            match self.errors.write(rest) {
                Ok(count) => rest = rest.get(count..).unwrap_or(b""),
                Err(_) => return rest,
            }
        }
        rest
    }

    // Prints whole lines, and counts those that can't be printed whole; whether all could be.
    fn print_text(&mut self, text: &[u8]) -> bool {
        if text.is_empty() {
            return true;
        }
        let rest = if self.end_torn() {
            self.write_bytes(text)
        } else {
            text
        };
        let _ = self.errors.flush();
        if rest.is_empty() {
            return true;
        }
        let done = text.get(..text.len().saturating_sub(rest.len()));
        if let Some([.., last]) = done {
            self.is_torn = *last != b'\n';
        }
        self.left_out = self.left_out.saturating_add(count_lines(rest) as u64);
        false
    }

    // Reports lines that were left out, where there are any. Where that can't be printed, they are reported with the next.
    fn report_left_out(&mut self, alloc: Global) {
        let count = self.left_out;
        if count == 0 {
            return;
        }
        let Ok(line) = left_out_line(alloc, count) else {
            return;
        };
        let is_printed = self.print_text(line.as_slice());
        // (the report itself is none of them)
        self.left_out = if is_printed { 0 } else { count };
    }

    /// Prints lines in their order, and how many were left out before and behind them.
    pub fn print(&mut self, alloc: Global, mut lines: WaitingLines) {
        self.report_left_out(alloc);
        let mut piece: Vec<u8> = Vec::new(alloc);
        for _ in 0..u64::MAX {
            let Some(text) = lines.pop_front() else {
                break;
            };
            if piece.len().saturating_add(text.len()) > PIECE {
                let _ = self.print_text(piece.as_slice());
                piece.clear();
            }
            if piece.extend_from_slice(text.as_slice()).is_err() {
                let _ = self.print_text(piece.as_slice());
                piece.clear();
                let _ = self.print_text(text.as_slice());
            }
        }
        let _ = self.print_text(piece.as_slice());
        self.left_out = self.left_out.saturating_add(lines.left_out());
        self.report_left_out(alloc);
    }
}
