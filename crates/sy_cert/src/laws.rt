//! What holds of certificates and their texts.

ghost use Rattle.std.specs.Prelude.{◌≡◌, ℕ, List};
ghost use Rattle.sy_cert.specs.declared.fault.FaultCode.{FaultCode};
ghost use Rattle.sy_cert.specs.declared.row.Row.{Row};
ghost use Rattle.sy_cert.specs.Faults.{HasFault};
ghost use Rattle.sy_cert.specs.Rows.{IsCertificate, text};

/// Two certificates never have one text.
pub fn one_text()
    ensures { (version other : ℕ) (rows others : List Row) → IsCertificate version rows → IsCertificate other others
        → text version rows ≡ text other others → (version ≡ other) × (rows ≡ others) }
{}

/// The text of a certificate has no fault.
pub fn no_fault()
    ensures { (version : ℕ) (rows : List Row) (code : FaultCode) (line : ℕ) → IsCertificate version rows
        → HasFault (text version rows) code line → ⊥ }
{}

/// A text has one fault at most, in one line.
pub fn one_fault()
    ensures { (bytes : List ℕ) (first second : FaultCode) (m n : ℕ) → HasFault bytes first m → HasFault bytes second n
        → (first ≡ second) × (m ≡ n) }
{}
