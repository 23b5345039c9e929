//! What holds of sound sites, and of sites without a finding. Each function does nothing; its contract is the law.

ghost use Rattle.std.specs.Prelude.{List};
ghost use Rattle.sy_cert.specs.declared.row.Row.{Row};
ghost use Rattle.sy_site.specs.Sites.{Site};
ghost use Rattle.sy_site.specs.declared.site.SiteInput.{SiteInput};
ghost use Rattle.sy_site.specs.machine.Findings.{IsFinding, Kind, WayRow};
ghost use Rattle.sy_site.specs.machine.Lawful.{IsLawful};
ghost use Rattle.sy_site.specs.machine.Soundness.{IsSound};
ghost use Rattle.sy_wire.specs.declared.class.Class.{Class};
ghost use Rattle.sy_cert.specs.CertificateValue.{Certificate};
ghost use Rattle.sy_fit.specs.Fit.{IsFit, IsFitFor};

pub use sy_fit::laws::{
    claims_of_sound_sites, fit_is_not_wrong, fit_is_safe, fit_is_sound, one_wanted, one_wrong_row,
};

/// A lawful site in which no finding of the ten kinds is true is sound. A sound site has no true finding
/// (`sy_site::machine::sound_sites_have_no_finding`).
pub fn sites_without_a_finding_are_sound()
    ensures { (site : Site) → IsLawful site → ((class : Class) (way : List WayRow) (input : SiteInput) (kind : Kind)
        → IsFinding site class way input kind → ⊥) → IsSound site }
{}

/// Each lawful sound site has the rows of a fit certificate, and with its policy for the version one that is fit: so a
/// lawful site is sound exactly where it has one (`fit_is_sound`). Nothing is said of the size of its ranks, which a text
/// of a certificate bounds.
pub fn sound_sites_have_fit_certificates()
    ensures rows { (site : Site) → IsLawful site → IsSound site → (rows : List Row) × IsFit site rows }
    ensures certificate { (site : Site) → IsLawful site → IsSound site
        → (certificate : Certificate) × IsFitFor site certificate }
{}
