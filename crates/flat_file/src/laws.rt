//! What a file of each form is, of the program that modules stand for.
ghost use Rattle.flat_file.specs.Laws.{BinIsLocated, ComLoadsAsWritten, CoversWritten, FromStartIsLocated};
ghost use Rattle.flat_file.specs.Laws.{FromStartLoadsAsWritten, RawIsWhole, SysIsLocated};

/// What DOS makes of the .COM file of a program, wherever its segment fits: at each address of its written part the byte
/// of the located program at the paragraph of the program segment prefix, but for the last word of the segment, which
/// DOS pushes; and data covers no address below 100H.
pub fn com_loads_as_written()
    ensures { ComLoadsAsWritten }
{}

/// A .BIN file at a paragraph is, byte for byte, the located program there; from the first address that data covers on
/// it has all that data covers, and so it has from any address on from which it isn't refused.
pub fn bin_is_located()
    ensures bytes { BinIsLocated }
    ensures covered { CoversWritten }
    ensures whole { RawIsWhole }
{}

/// A driver's file is the located program at each paragraph.
pub fn sys_is_located()
    ensures { SysIsLocated }
{}

/// A file that begins at its program's start is, where that is 0, one segment: at each paragraph the located program,
/// which starts at the first byte. Else it is what a .COM file is.
pub fn from_start_is_located()
    ensures at_0 { FromStartIsLocated }
    ensures at_100h { FromStartLoadsAsWritten }
{}
