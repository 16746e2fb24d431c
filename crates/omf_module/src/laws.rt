//! Laws of the definitions, each the contract of a function that does nothing.
ghost use Rattle.std.specs.Prelude.{◌≡◌, ◌++◌, ◌≤◌, ℕ, List};
ghost use Rattle.omf_record.specs.Body.{BodyOf};
ghost use Rattle.omf_record.specs.Expansion.{data_len};
ghost use Rattle.omf_record.specs.Record.{Record};
ghost use Rattle.omf_record.specs.Records.{Placed};
ghost use Rattle.omf_module.specs.declared.fault.FaultKind.{FaultKind};
ghost use Rattle.omf_module.specs.Building.{IsTakable};
ghost use Rattle.omf_module.specs.Bytes.{ModuleBytes, ReadingFault};

/// Bytes begin with at most one whole sound module.
pub fn one_module()
    ensures { (rs ss : List Placed) (x y r s : List ℕ) → ModuleBytes rs x → ModuleBytes ss y → x ++ r ≡ y ++ s
        → (rs ≡ ss) × (x ≡ y) × (r ≡ s) }
{}

/// Bytes that begin with a whole sound module have no reading fault.
pub fn no_fault()
    ensures { (rs : List Placed) (bytes rest : List ℕ) (place : ℕ) (fault : FaultKind) → ModuleBytes rs bytes
        → ReadingFault (bytes ++ rest) place fault → ⊥ }
{}

/// Bytes have at most one reading fault, at one place.
pub fn one_fault()
    ensures { (bytes : List ℕ) (p q : ℕ) (f g : FaultKind) → ReadingFault bytes p f → ReadingFault bytes q g → (p ≡ q)
        × (f ≡ g) }
{}

/// A builder takes each record that is read from a frame.
pub fn read_is_takable()
    ensures { (kind : ℕ) (r : Record) (body : List ℕ) → BodyOf kind r body → data_len r ≤ 65534 → IsTakable r }
{}
