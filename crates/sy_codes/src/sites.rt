//! Faults of site files, of events and of certificates.

use crate::code::{Code, fault};
use sy_cert::FaultCode as CertificateCode;
use sy_site::SiteFault;

// Where a relay's file is none, the line says what is wrong with that, so its number is never read.
const RELAY: &str = "57 Relay";

/// The faults of a site file, and of an events file.
pub(crate) fn site_codes() -> [Code; 10] {
    [
        fault(
            SiteFault::Line(1).words(),
            "a line of a site file or an events file has none of the shapes, names a relay that isn't there, or is one too many",
            "write relay NAME FILE, entry RELAY PORT, protect SELECTOR RELAY ACTION, spare RELAY ACTION, outside NAME ADDRESS PORT, tunnel RELAY ACTION, or # before a comment",
        ),
        fault(
            SiteFault::Duplicate(1).words(),
            "a relay's name, or a line, is given a second time",
            "take one of them away",
        ),
        fault(
            SiteFault::NoFile(1).words(),
            "the file of a relay line isn't given",
            "write the file's name as it is below the site file's folder",
        ),
        fault(
            SiteFault::NoSuchEntry(1).words(),
            "an entry line's relay has no input of that port",
            "write the port of an input of the relay's file",
        ),
        fault(
            SiteFault::NoSuchArchive(1).words(),
            "a protect line's relay has no omfile action of that name",
            "name the action, as action(name=\"audit\" type=\"omfile\" file=\"audit.log\")",
        ),
        fault(
            SiteFault::NothingProtected.words(),
            "a site file has no entry line, or protects no class",
            "write entry RELAY PORT, and protect SELECTOR RELAY ACTION",
        ),
        fault(
            RELAY,
            "the file of a relay line is no configuration of a relay; the fault that is reported is the file's",
            "mend that fault",
        ),
        fault(
            SiteFault::NoMemory.words(),
            "there was no memory to read a site",
            "give the program more memory",
        ),
        fault(
            SiteFault::NoSuchAction(1).words(),
            "a spare line's relay has no action of that name, or a tunnel line's has no omfwd action of that name",
            "write the name of an action of the relay's file",
        ),
        fault(
            SiteFault::SpareArchive(1).words(),
            "a protect line names the action of a spare line, so messages would have to be in what may lose them",
            "take the spare line away, or protect another archive",
        ),
    ]
}

/// The faults of a certificate's text.
pub(crate) fn certificate_codes() -> [Code; 4] {
    [
        fault(
            CertificateCode::Line.words(),
            "a line of a certificate is no row",
            "make the certificate again, by syc certify",
        ),
        fault(
            CertificateCode::Order.words(),
            "a row of a certificate may not follow the one before",
            "make the certificate again, by syc certify",
        ),
        fault(
            CertificateCode::Number.words(),
            "a number of a certificate has a leading zero or is out of range",
            "make the certificate again, by syc certify",
        ),
        fault(
            CertificateCode::NoMemory.words(),
            "there was no memory to read a certificate",
            "give the program more memory",
        ),
    ]
}
