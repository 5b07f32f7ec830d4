//! Laws of adds.

ghost use Rattle.std.specs.Prelude.{List, ℕ};
ghost use Rattle.policy.specs.Settings.{Settings};
ghost use Rattle.model.specs.World.{Path};
ghost use Rattle.model.specs.Request.{Imported, add_source, add_text, import_object};
ghost use Rattle.laws.specs.Changes.{AddsExactly, with_import, with_source, with_text};
ghost use Rattle.laws.specs.ReadOnly.{ArchivesAreTheObjects, RecordsAdds, RecordsAreExact};
ghost use Rattle.laws.specs.AddFaults.{DigestsComeFirst, MissingAreMissing, TextsAreMeasured};
ghost use Rattle.laws.specs.AddOrder.{ImportFaultsInOrder, SourceFaultsInOrder, TextFaultsInOrder};

/// An add answers its path, and adds exactly the object that was supplied, or nothing if the path was valid.
pub fn adds_are_exact()
    ensures text { (s : Settings) (name : List ℕ) (refs : List Path) (contents : List ℕ) →
        AddsExactly s (add_text name refs contents) (with_text s.store_dir name refs contents) }
    ensures source { (s : Settings) (name : List ℕ) (refs : List Path) (nar : List ℕ) →
        AddsExactly s (add_source name refs nar) (with_source s.store_dir name refs nar) }
    ensures import { (s : Settings) (i : Imported) → AddsExactly s (import_object i) (with_import i) }
{}

/// A text is refused by the size of its archive. An import of few enough references whose archive is read is refused
/// for another digest before any fault of addresses, references and derivations; and for a missing reference only where
/// one isn't valid and isn't the object's own path.
pub fn adds_are_refused_for_their_faults()
    ensures size { TextsAreMeasured }
    ensures digest { DigestsComeFirst }
    ensures missing { MissingAreMissing }
{}

/// Of an add that has several faults the first is reported: the number of references; the archive, or its size; of an
/// import its digest; a reference to itself; an address that doesn't verify; the derivation; and at last a missing
/// reference.
pub fn faults_of_adds_come_in_order()
    ensures text { TextFaultsInOrder }
    ensures source { SourceFaultsInOrder }
    ensures import { ImportFaultsInOrder }
{}

/// A record and an archive are those of the object, and after an add the record says exactly what was passed.
pub fn records_show_what_was_added()
    ensures record { RecordsAreExact }
    ensures archive { ArchivesAreTheObjects }
    ensures text { (s : Settings) (name : List ℕ) (refs : List Path) (contents : List ℕ) →
        RecordsAdds s (add_text name refs contents) (with_text s.store_dir name refs contents) }
    ensures source { (s : Settings) (name : List ℕ) (refs : List Path) (nar : List ℕ) →
        RecordsAdds s (add_source name refs nar) (with_source s.store_dir name refs nar) }
    ensures import { (s : Settings) (i : Imported) → RecordsAdds s (import_object i) (with_import i) }
{}
