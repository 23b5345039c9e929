//! A certificate as a value.
ghost use Rattle.std.specs.Prelude.{◌≡◌, ◌++◌, [], ◌∷◌, true, OnErr, OnOk};
ghost use Rattle.sy_cert.specs.CertificateValue as value;
ghost use Rattle.sy_cert.specs.Rows.{IsCertificate, IsRow, IsVersion, kind, last_kind, may_follow};

use crate::kinds::{follows, kind_of, last_kind};
use crate::row::Row;
use std::alloc::{AllocError, Global};
use std::marker::Model;

/// A certificate: its version, which is 1 or 2, and its rows in the order of the text.
///
/// Each row has its shape with its numbers in range, and each kind of row may follow the one before. Branch rows are in
/// version 2 alone.
#[derive(Drop)]
pub struct Certificate {
    version: u32,
    rows: Vec<Row>,
}

impl Model for Certificate {
    ghost use Rattle.sy_cert.specs.CertificateValue as value;
    ghost use Rattle.sy_cert.specs.Rows.{IsCertificate};

    ghost Value = { value.Certificate };

    ghost view = { λ c. record { version = c.version; rows = c.rows.items } };

    ghost invariant = { λ c. IsCertificate c.version c.rows.items };
}

impl Certificate {
    /// A certificate without rows, of version 1 or 2. It takes no memory.
    pub fn new(alloc: Global, version: u32) -> Certificate
        requires { IsVersion version }
        ensures version { result.version ≡ version }
        ensures rows { result.rows ≡ [] }
    {
        Certificate {
            version,
            rows: Vec::new(alloc),
        }
    }

    /// Whether a row may follow the last one, by its kind: a class row the first line or a path row, a reach row a
    /// class or a reach row, a branch row a reach or a branch row, a rank row a reach, a branch or a rank row, an inner
    /// row a rank or an inner row, and a path row a rank, an inner or a path row.
    pub fn may_follow(&self, row: &Row) -> bool
        ensures { result ≡ may_follow (last_kind self.now.rows) (kind row.now) }
    {
        follows(last_kind(self.rows()), kind_of(row))
    }

    /// Puts a row after the last. It is one of this version, has its shape with its numbers in range, and may follow
    /// the last row. Without memory nothing is put.
    pub fn push(&mut self, row: Row) -> Result<(), AllocError>
        requires shape { IsRow self.old.version row }
        requires place { may_follow (last_kind self.old.rows) (kind row) ≡ true }
        ensures version { self.new.version ≡ self.old.version }
        ensures ok { OnOk result (self.new.rows ≡ self.old.rows ++ row ∷ []) }
        ensures err { OnErr result (self.new.rows ≡ self.old.rows) }
    {
        self.rows.push(row)?;
        Ok(())
    }

    /// The version is 1 or 2, and each row is one of it, has its shape, with its numbers in range, and may follow the
    /// one before.
    pub fn is_lawful(&self)
        ensures { IsCertificate self.now.version self.now.rows }
    {
        let _ = &self.version;
    }

    /// The version of its format.
    pub fn version(&self) -> u32
        ensures { result ≡ self.now.version }
    {
        self.version
    }

    /// The rows, in the order of the text.
    pub fn rows(&self) -> &[Row]
        ensures { result.now ≡ self.now.rows }
    {
        self.rows.as_slice()
    }
}
