//! Laws of the definitions, each the contract of a function that does nothing.

ghost use Rattle.std.specs.Prelude.{◌≡◌, ◌≤◌, ℕ, List, length, Result};
ghost use Rattle.omf_record.specs.declared.parse.RecordFault.{RecordFault};
ghost use Rattle.omf_record.specs.declared.record.Record.{Record};
ghost use Rattle.omf_record.specs.Record as says;
ghost use Rattle.omf_record.specs.Body.{BodyOf, kind_of};
ghost use Rattle.omf_record.specs.Body as body;
ghost use Rattle.omf_record.specs.Canonical.{canonical, FitsFrame};
ghost use Rattle.omf_record.specs.Answer.{Answers, IsRead};

use std::alloc::Allocator;

/// A body says at most one thing of each type.
#[tactic(auto, using(crate::proofs::RecordLaws::one_of))]
pub fn one_value()
    ensures { (kind : ℕ) (bytes : List ℕ) (r s : says.Record) → BodyOf kind r bytes → BodyOf kind s bytes → r ≡ s }
{}

/// The canonical body of what has a body is one, and none is shorter.
#[tactic(auto, using(crate::proofs::RecordLaws::canonical_shortest))]
pub fn canonical_shortest()
    ensures { (r : says.Record) (bytes : List ℕ) → body.Body r bytes → body.Body r (canonical r)
        × (length (canonical r) ≤ length bytes) }
{}

/// What is answered for a canonical body is the record that it was written for.
#[tactic(auto, using(crate::proofs::RecordLaws::is_read))]
pub fn encoded_is_read<A: Allocator + Copy>()
    ensures { (r : says.Record) (answer : Result (Record A) RecordFault) → FitsFrame r
        → Answers (kind_of r) (canonical r) answer → IsRead r answer }
{}
