//! Laws of the definitions, each the contract of a function that does nothing.

ghost use Rattle.std.specs.Prelude.{◌≡◌, ℕ, List};
ghost use Rattle.omf_module.specs.Module.{Module};
ghost use Rattle.omf_plain.specs.declared.widths.Widths.{Widths};
ghost use Rattle.omf_plain.specs.Modules.{IsPlainModule};
ghost use Rattle.omf_plain.specs.Plain.{Taking};

/// Bytes begin with at most one module, as records of any width are taken.
pub fn one_plain_module()
    ensures { (t : Taking) (bytes : List ℕ) (m n : Module) (v w : Widths) → IsPlainModule t bytes m v
        → IsPlainModule t bytes n w → (m ≡ n) × (v ≡ w) }
{}
