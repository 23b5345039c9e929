//! What holds of site files, and of the archives that a site names.

ghost use Rattle.std.specs.Prelude.{◌≡◌, ◌++◌, ◌∷◌, true, false, Contains, ℕ, List};
ghost use Rattle.sy_rules.specs.Whole.{AreDifferent};
ghost use Rattle.sy_wire.specs.declared.class.Class.{Class};
ghost use Rattle.sy_site.specs.Sites.{Protection, Site, SiteAction, archives, asks_for};
ghost use Rattle.sy_site.specs.texts.Files as files;
ghost use Rattle.sy_site.specs.texts.Lines.{word_lines};
ghost use Rattle.sy_site.specs.texts.Describes.{Describes, File};
ghost use Rattle.sy_site.specs.texts.HasFault.{HasFault};
ghost use Rattle.sy_site.specs.declared.fault.SiteFault.{SiteFault};

/// One text, with one list of files, describes one site at most.
pub fn one_site()
    ensures { (text : List ℕ) (files : List File) (a b : Site) → Describes text files a → Describes text files b
        → a ≡ b }
{}

/// A text that describes a site has no fault.
pub fn no_fault()
    ensures { (text : List ℕ) (files : List File) (site : Site) (fault : SiteFault) → Describes text files site
        → HasFault text files fault → ⊥ }
{}

/// The files of a text are those that its relay lines name, and none of them stands behind itself.
pub fn each_file_once()
    ensures those { (text file : List ℕ) → files.is_among file (files.file_names text)
        ≡ files.is_among file (files.files_of (word_lines text)) }
    ensures once { (text file : List ℕ) (before later : List (List ℕ))
        → files.file_names text ≡ before ++ file ∷ later → files.is_among file before ≡ false }
{}

/// The archives that are named for a class are those of the protect lines that ask for it, each once.
pub fn archives_are_those_named()
    ensures named { (site : Site) (class : Class) (archive : SiteAction) → Contains (archives site class) archive
        → (p : Protection) × Contains site.protections p × (asks_for p class ≡ true) × (p.archive ≡ archive) }
    ensures all { (site : Site) (class : Class) (p : Protection) → Contains site.protections p
        → asks_for p class ≡ true → Contains (archives site class) p.archive }
    ensures once { (site : Site) (class : Class) → AreDifferent (archives site class) }
{}
