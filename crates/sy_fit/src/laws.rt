//! What holds of fit certificates. Each function does nothing; its contract is the law.

ghost use Rattle.std.specs.Prelude.{◌≡◌, ℕ, List};
ghost use Rattle.sy_cert.specs.declared.row.Row.{Row};
ghost use Rattle.sy_site.specs.Sites.{Site};
ghost use Rattle.sy_site.specs.machine.Lawful.{IsLawful};
ghost use Rattle.sy_site.specs.machine.Safety.{AreSafe};
ghost use Rattle.sy_site.specs.machine.Soundness.{IsSound};
ghost use Rattle.sy_site.specs.machine.States.{SiteState};
ghost use Rattle.sy_site.specs.machine.Steps.{Runs, SiteEvent};
ghost use Rattle.sy_wire.specs.declared.class.Class.{Class};
ghost use Rattle.sy_fit.specs.Claims.{RanksStayFalling, StayConfined, StayWrittenOrHead};
ghost use Rattle.sy_cert.specs.CertificateValue.{Certificate};
ghost use Rattle.sy_fit.specs.Fit.{AreWanted, IsFit, IsFitFor, IsWrongFor, IsWrongIn};
ghost use Rattle.sy_fit.specs.declared.rows.wanted.RowKind.{RowKind};
ghost use Rattle.sy_fit.specs.declared.rows.wanted.Wanted.{Wanted};

use sy_site::machine::{
    copies_are_confined, messages_are_written_or_head_there, ranks_fall_along_trails,
    sound_sites_are_safe,
};

/// A site with a fit certificate is sound.
pub fn fit_is_sound()
    ensures { (site : Site) (rows : List Row) → IsFit site rows → IsSound site }
{}

/// No loss: after every run of a site with a fit certificate each message of a protected class that came from outside
/// at an entry is, for each archive that is named for its class, written there, or held where it heads there; no copy
/// of it was lost but at or after a spare action, and none came to a relay twice.
pub fn fit_is_safe()
    ensures { (site : Site) (rows : List Row) → IsLawful site → IsFit site rows → (events : List SiteEvent)
        (state : SiteState) → Runs site events state → AreSafe site state }
{
    fit_is_sound();
    sound_sites_are_safe()
}

/// What is claimed of a sound site beside safe, each claim by itself, of every run of it: confinement and falling ranks
/// of each protected class; and, of a lawful site, that each message of such a class that came from outside at an entry
/// is written to each archive that is named for its class, or held where it heads there.
pub fn claims_of_sound_sites()
    ensures confined { (site : Site) → IsSound site → StayConfined site }
    ensures falling { (site : Site) → IsSound site → RanksStayFalling site }
    ensures written { (site : Site) → IsLawful site → IsSound site → StayWrittenOrHead site }
{
    copies_are_confined();
    ranks_fall_along_trails();
    messages_are_written_or_head_there()
}

/// One list of rows is wanted for a class of a site.
pub fn one_wanted()
    ensures { (site : Site) (class : Class) (first second : List Wanted) → AreWanted site class first
        → AreWanted site class second → first ≡ second }
{}

/// No row of a fit certificate is wrong, and not its first line: so a certificate is fit, or wrong in some line, and never
/// both.
pub fn fit_is_not_wrong()
    ensures rows { (site : Site) (rows : List Row) (line : ℕ) (kind : RowKind) → IsFit site rows
        → IsWrongIn site rows line kind → ⊥ }
    ensures certificate { (site : Site) (certificate : Certificate) (line : ℕ) (kind : RowKind)
        → IsFitFor site certificate → IsWrongFor site certificate line kind → ⊥ }
{}

/// The first wrong row stands in one line at most, and is of one kind; and so of a certificate, with its first line.
pub fn one_wrong_row()
    ensures rows { (site : Site) (rows : List Row) (line other : ℕ) (kind another : RowKind)
        → IsWrongIn site rows line kind → IsWrongIn site rows other another → (line ≡ other) × (kind ≡ another) }
    ensures certificate { (site : Site) (certificate : Certificate) (line other : ℕ) (kind another : RowKind)
        → IsWrongFor site certificate line kind → IsWrongFor site certificate other another
        → (line ≡ other) × (kind ≡ another) }
{}
