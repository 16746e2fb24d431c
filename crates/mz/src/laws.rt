//! What ties writing, reading and loading together.
ghost use Rattle.mz.specs.Laws.{HoldsTheProgram, ReadsAsWritten, TellsItsLength, LoadsAsWritten, RefusesAboveMemory};

/// The file of a program is read as that program, whatever follows it. It loads at exactly the paragraphs where the
/// whole program fits, as the written part of the image with the paragraph added to its relocated words, and as the
/// registers with the paragraph added to CS and SS.
pub fn loads_as_written()
    ensures reads { ReadsAsWritten }
    ensures length { TellsItsLength }
    ensures memory { HoldsTheProgram }
    ensures loads { LoadsAsWritten }
    ensures refuses { RefusesAboveMemory }
{}
