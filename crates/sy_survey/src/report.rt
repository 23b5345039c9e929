//! What a survey of all hosts says: after each host its lines, or at its end a document, and what one change would mend where.

use crate::documents::{host_of, result_of, sarif_of, unjudged};
use crate::located::Located;
use crate::ranks::{Ranks, append_rank, elements_of, places_of};
use crate::rows::Row;
use crate::telling::{Surveyed, lines_of};
use std::alloc::{AllocError, Global};
use sy_json::objects::{Elements, Members};

/// In what form findings are told.
#[derive(Clone, Copy, PartialEq, Eq)]
pub enum Form {
    /// Lines.
    Text,
    /// A JSON document of this program's own.
    Json,
    /// A document of SARIF 2.1.0.
    Sarif,
}

/// The version of the document's shape.
const FORMAT: u64 = 1;

/// What is known of the hosts so far.
#[derive(Drop)]
pub(crate) struct Report {
    alloc: Global,
    form: Form,
    /// The hosts of a JSON document, the results of one of SARIF.
    elements: Elements,
    ranks: Ranks,
    /// How many hosts are done.
    hosts: u64,
    /// Whether the host whose turn it is has its place among the elements.
    is_told: bool,
}

impl Report {
    /// No hosts.
    pub fn new(alloc: Global, form: Form) -> Report {
        Report {
            alloc,
            form,
            elements: Elements::new(alloc),
            ranks: Ranks::new(alloc),
            hosts: 0,
            is_told: false,
        }
    }

    /// Takes a host that is judged, and answers its lines, of which a document has none.
    pub fn take(
        &mut self,
        it: Surveyed<'_>,
        rows: &[Row],
        classes: usize,
        is_accepted: bool,
    ) -> Result<Vec<u8>, AllocError> {
        for row in rows {
            let text = it.whole.text.as_slice();
            self.ranks.count(self.alloc, self.hosts, row, text)?;
        }
        self.is_told = true;
        match self.form {
            Form::Text => return lines_of(self.alloc, it, rows, classes),
            Form::Json => {
                let host = host_of(self.alloc, it, rows, is_accepted)?;
                self.elements.object(host);
            }
            Form::Sarif => {
                let mut last = Located::none(0);
                for row in rows {
                    last = last.go_on(it.whole, it.whole.place(row.at));
                    let result = result_of(self.alloc, it, row, last)?;
                    self.elements.object(result);
                }
            }
        }
        Ok(Vec::new(self.alloc))
    }

    /// A host is done.
    pub fn end_host(&mut self, file: &[u8], status: u8) {
        if !self.is_told && self.form == Form::Json {
            self.elements.object(unjudged(self.alloc, file, status));
        }
        self.is_told = false;
        self.hosts = self.hosts.saturating_add(1);
    }

    // The lines at the end, where there are several hosts.
    fn ranked(&self, places: &[usize]) -> Result<Vec<u8>, AllocError> {
        let mut text = Vec::new(self.alloc);
        if self.hosts < 2 {
            return Ok(text);
        }
        for at in places {
            if let Some(rank) = self.ranks.as_slice().get(*at) {
                append_rank(&mut text, rank, self.hosts)?;
            }
        }
        Ok(text)
    }

    /// What is said at the end.
    pub fn finish(self, status: u8) -> Result<Vec<u8>, AllocError> {
        let places = places_of(self.alloc, self.ranks.as_slice())?;
        let ranks = elements_of(self.alloc, self.ranks.as_slice(), places.as_slice());
        match self.form {
            Form::Text => self.ranked(places.as_slice()),
            Form::Sarif => sarif_of(self.alloc, self.elements, status).finish(),
            Form::Json => {
                let mut document = Members::new(self.alloc);
                document.number("format", FORMAT);
                document.text("command", b"survey");
                document.number("status", u64::from(status));
                document.array("hosts", self.elements);
                document.array("changes", ranks);
                document.finish()
            }
        }
    }
}
