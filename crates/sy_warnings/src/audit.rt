//! Log audit that is left out of what is protected.

ghost use Rattle.std.specs.Prelude.{◌≡◌, ◌<◌, Decides};
ghost use Rattle.sy_warnings.specs.Audit as spec;

use crate::coming::is_protected;
use crate::warnings::{Caution, Warnings};
use sy_places::site_file::source::word_in;
use sy_report::texts::note::{Note, Point};
use sy_site::{Site, without_return};
use sy_wire::Class;

/// Facility 4: security and authorization messages (RFC 5424, section 6.2.1).
pub const SECURITY: u8 = 4;

/// Facility 13: log audit.
pub const AUDIT: u8 = 13;

// Whether some class of a facility is protected.
fn protects_of(site: &Site, facility: u8) -> bool
    requires small { facility < 24 }
    ensures { Decides result (spec.ProtectsOf site.now facility) }
{
    for severity in 0..8 {
        if is_protected(site, Class::of_number(8 * facility + severity)) {
            return true;
        }
    }
    false
}

/// Whether a site protects classes of facility 4 and none of facility 13.
pub fn leaves_audit_out(site: &Site) -> bool
    ensures { Decides result (spec.LeavesAuditOut site.now) }
{
    if !protects_of(site, SECURITY) {
        return false;
    }
    if protects_of(site, AUDIT) {
        return false;
    }
    true
}

// Whether a protect line, by its number among them, asks for a class of facility 4.
fn protects_security(site: &Site, number: usize) -> bool {
    let Some(protection) = site.protections().get(number) else {
        return false;
    };
    for severity in 0..8 {
        let class = Class::of_number(SECURITY * 8 + severity);
        if protection.selector.matches(class) {
            return true;
        }
    }
    false
}

// The line of the first protect line that asks for a class of facility 4.
fn security_line(site: &Site, text: &[u8]) -> u64 {
    let mut number: usize = 0;
    let mut at: u64 = 1;
    for line in text.split(|b| *b == b'\n') {
        let line = without_return(line);
        if matches!(word_in(line, 0), Some((_, first)) if first == b"protect".as_slice()) {
            if protects_security(site, number) {
                return at;
            }
            number = number.saturating_add(1);
        }
        at = at.saturating_add(1);
    }
    1
}

/// Warns where facility 4 is protected and facility 13 isn't.
pub fn warn_of_audit(warnings: &mut Warnings, site: &Site, site_name: &str, text: &[u8]) {
    if !leaves_audit_out(site) {
        return;
    }
    let mut note = Note::new(warnings.alloc);
    let line = security_line(site, text);
    note.stands_at(
        warnings.alloc,
        site_name.as_bytes(),
        Some(Point { line, column: 1 }),
    );
    note.what.say("protect");
    note.why.say(
        "facility 4 (auth, or security) is protected and facility 13 (log audit, which syslog-ng calls security) is not, though any entry may get messages of it",
    );
    note.change.say(
        "another protect line for *.*;kern,user,mail,daemon,auth,syslog,lpr,news,uucp,cron,authpriv,ftp,local0,local1,local2,local3,local4,local5,local6,local7.none, which leaves facilities 12 to 15",
    );
    warnings.push(Caution::AuditFacility, note);
}
