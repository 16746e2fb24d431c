//! Laws of the definitions, each the contract of a function that does nothing: with numbers of two bytes they are those
//! of the fourteen.

ghost use Rattle.std.specs.Prelude.{◌↔◌, ℕ, Bool, List, Option};
ghost use Rattle.omf_record.specs.Body as narrow;
ghost use Rattle.omf_record.specs.Record as record_said;
ghost use Rattle.omf_record.specs.declared.externals.Line.{Line};
ghost use Rattle.omf_record.specs.declared.externals.PublicBase.{PublicBase};
ghost use Rattle.omf_record.specs.declared.fixups.Reference.{Reference};
ghost use Rattle.omf_record.specs.declared.fixups.Subrecord.{Subrecord};
ghost use Rattle.omf_wide.specs.Body.{RecordAt, ReferenceAt, SubrecordAt};
ghost use Rattle.omf_wide.specs.Widened.{widened, widened_reference};

/// Data, names and lines.
#[tactic(auto, unfolding(omf_record::specs::Body::Body))]
pub fn records_of_16_bits()
    ensures data { (segment offset : ℕ) (bytes text : List ℕ)
        → RecordAt 2 (record_said.Ledata segment offset bytes) text
        ↔ narrow.Body (record_said.Ledata segment offset bytes) text }
    ensures names { (local : Bool) (base : PublicBase) (publics : List record_said.Public) (text : List ℕ)
        → RecordAt 2 (record_said.Pubdef local base publics) text
        ↔ narrow.Body (record_said.Pubdef local base publics) text }
    ensures lines { (group segment : ℕ) (lines : List Line) (text : List ℕ)
        → RecordAt 2 (record_said.Linnum group segment lines) text
        ↔ narrow.Body (record_said.Linnum group segment lines) text }
{}

/// References, threads and fix-ups.
pub fn fixups_of_16_bits()
    ensures references { (reference : Reference) (text : List ℕ)
        → ReferenceAt 2 (widened_reference reference) text ↔ narrow.ReferenceText reference text }
    ensures subrecords { (subrecord : Subrecord) (text : List ℕ)
        → SubrecordAt 2 (widened subrecord) text ↔ narrow.SubrecordText subrecord text }
{}
