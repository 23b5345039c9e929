//! Certificates.

use std::alloc::Global;
use sy_cert::{Certificate, Row};
use sy_wire::Class;

/// A certificate of a class, without further rows.
pub fn certificate_of_a_class(alloc: Global) -> Option<Certificate> {
    let mut certificate = Certificate::new(alloc, 1);
    let class = Class {
        facility: 4,
        severity: 2,
    };
    Certificate::push(&mut certificate, Row::Class(class)).ok()?;
    Some(certificate)
}
