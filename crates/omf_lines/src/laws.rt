//! Laws of the definitions, each the contract of a function that does nothing.
ghost use Rattle.std.specs.Prelude.{◌≡◌, ℕ, List, filter, map, nat_lt};
ghost use Rattle.omf_frame.specs.Frame.{Frame};
ghost use Rattle.omf_record.specs.Body.{Body};
ghost use Rattle.omf_record.specs.Record.{Linnum};
ghost use Rattle.omf_record.specs.declared.externals.Line.{Line};
ghost use Rattle.omf_wide.specs.Body.{RecordAt};
ghost use Rattle.omf_lines.specs.Lines.{line_of, lines_in};

/// The lines of a record of line numbers are those that its body says.
#[tactic(auto, using(crate::proofs::Said::lines_said))]
pub fn lines_are_said()
    ensures { (f : Frame) (group segment : ℕ) (lines : List Line) → f.kind ≡ 0x94
        → Body (Linnum group segment lines) f.body
        → lines_in f ≡ map (λ line. line_of group segment (line.number, line.offset)) lines }
{}

/// Those of a record with offsets of four bytes are those that its body says with offsets of 16 bits.
#[tactic(auto, using(crate::proofs::WideSaid::wide_lines_said))]
pub fn lines_of_32_bits_are_said()
    ensures { (f : Frame) (group segment : ℕ) (lines : List Line) → f.kind ≡ 0x95
        → RecordAt 4 (Linnum group segment lines) f.body
        → lines_in f ≡ map (λ line. line_of group segment (line.number, line.offset))
        (filter (λ line. nat_lt line.offset 65536) lines) }
{}
