//! What runs tell, in rows: the words of each, its status, and both streams.

/// Runs, each in a line: the program and its words | the status | what is written to standard output | and to standard
/// error. `~` stands for a line end.
pub(crate) const RUNS: &str = "\
doslink A.OBJ F.OBJ|0||
doslink -v A.OBJ F.OBJ RUN.LIB|0|A.OBJ~F.OBJ~|
doslink -v A.OBJ RUN.LIB|0|A.OBJ~RUN.LIB(b.c) for \"f\"~RUN.LIB(c.c) for \"g\"~|
doslink -v A.OBJ -l ENV|0|A.OBJ~ENV/ENV.LIB(b.c) for \"f\"~ENV/ENV.LIB(c.c) for \"g\"~|
jwlink file A.OBJ library ENV|0||
doslink A.OBJ -l RUN|0||
doslink A.OBJ|1||doslink: A.OBJ: \"f\" is missing: record 28 (0000001C), wanted by \"a.c\"~
doslink A.OBJ D.OBJ|1||doslink: A.OBJ: \"f\" is missing: record 28 (0000001C), wanted by \"a.c\"; \"_f\" is in D.OBJ~
doslink E.OBJ|0||doslink: warning: library \"NONE\" of E.OBJ was not found~
doslink --no-default-libs E.OBJ|1||doslink: E.OBJ: \"f\" is missing: record 47 (0000002F), wanted by \"e.c\"~
doslink A.OBJ F.OBJ F.OBJ|1||doslink: link: 25 DuplicatePublic \"f\" in F.OBJ and F.OBJ~
doslink A.OBJ -l NONE|3||doslink: NONE: 1 Device at record 0: no such file~
doslink A.OBJ -l LIBS|3||doslink: LIBS: 1 Device at record 0: it is a folder~
doslink LIBS|3||doslink: LIBS: 1 Device at record 0: it is a folder~
doslink -L LIBS H.OBJ F.OBJ|0||
doslink -L LIBS A.OBJ -l OTHER|0||
doslink M.OBJ|0||
doslink --order dosseg A.OBJ F.OBJ|0||
doslink --order DATA,CODE A.OBJ F.OBJ F.OBJ|1||doslink: link: 25 DuplicatePublic \"f\" in F.OBJ and F.OBJ~
doslink X.OBJ|3||doslink: X.OBJ: 1 Device at record 0: no such file~
doslink A.OBJ CUT.LIB|1||doslink: CUT.LIB: 44 Truncated at place 63~
doslink @WORDS|0|A.OBJ~RUN.LIB(b.c) for \"f\"~RUN.LIB(c.c) for \"g\"~|
/bin/WLINK.EXE @LINES|0||doslink: warning: LINES: line 3: the map is not sorted~
wlink sort @LINES|0||doslink: warning: line 1: the map is not sorted~doslink: warning: LINES: line 3: the map is not sorted~
wlink @NONE|3||doslink: NONE: 1 Device at record 0: no such file~
wlink @WRONG|2||doslink: WRONG: line 2: \"fill\": unknown directive~
wlink option undefsok|2||doslink: line 1: \"undefsok\": unknown option~
wlink op q, undefsok, m f F.OBJ|2||doslink: line 1: \"undefsok\": unknown option~
wlink out hex f F.OBJ|2||doslink: line 1: \"hex\": wrong operands~
wlink @LINES @WRONG|2||doslink: WRONG: line 2: \"fill\": unknown directive~
doslink @BINARY|2||doslink: BINARY: it is no UTF-8 text~
wlink @BINARY|2||doslink: BINARY: it is no UTF-8 text~
doslink -o F.OBJ A.OBJ F.OBJ|2||doslink: F.OBJ: it is read and would be written~
doslink -m RUN.LIB A.OBJ -l RUN|2||doslink: RUN.LIB: it is read and would be written~
doslink -m A.EXE A.OBJ F.OBJ|2||doslink: A.EXE: it would be the program and its map~
doslink G.OBJ|0||doslink: warning: library \"NONE\" of G.OBJ was not found~
doslink --keep-debug A.OBJ F.OBJ|0||
doslink WIDE.OBJ|0||doslink: warning: 32-bit segments of WIDE.OBJ are linked as 16-bit ones~
doslink AMISS.OBJ|1||doslink: AMISS.OBJ: 6 Body at record 13 byte 0~
doslink STRAY.OBJ|1||doslink: STRAY.OBJ: 51 Body at record 30~
doslink LATE.OBJ|1||doslink: LATE.OBJ: 80 LateSegment at record 44~
doslink PATCHED.OBJ|1||doslink: PATCHED.OBJ: 5 Type at record 37 (B2 BAKPAT)~
doslink PATCHED2.OBJ|1||doslink: PATCHED2.OBJ: 5 Type at record 14 (C9 NBKPAT)~
doslink B9.OBJ|1||doslink: B9.OBJ: 5 Type at record 8 (B9)~
doslink BE.OBJ|1||doslink: BE.OBJ: 5 Type at record 8 (BE)~
doslink LOWERED.OBJ|1||doslink: LOWERED.OBJ: 16 FixupPlace at record 97~
wlink|2||doslink: no file is named to be linked~
";

/// Runs in which names are missing, in the same form.
pub(crate) const MISSING_RUNS: &str = "\
doslink K.OBJ|1||\
doslink: K.OBJ: \"kept\" is missing: record 33 (00000021), wanted by \"k.c\"~\
doslink: K.OBJ: \"f\" is missing: record 39 (00000027), wanted by \"k.c\"~
doslink K.OBJ F.OBJ|1||doslink: K.OBJ: \"kept\" is missing: record 33 (00000021), wanted by \"k.c\"~
doslink N.OBJ|1||doslink: N.OBJ: 7 NotHeader at record 0: this is no object module~
";

/// Runs in which names are missing that symbol tables of archives offer, in the same form.
pub(crate) const SYMBOL_RUNS: &str = "\
doslink K.OBJ SYSV.A|1||doslink: SYSV.A(print.o): 3 Truncated at record 0: this is an ELF file; nasm wants -f obj~
doslink K.OBJ SYM64.A|1||doslink: SYM64.A(print.o): 3 Truncated at record 0: this is a text; assemble or compile it first~
doslink K.OBJ RANLIB.A|1||doslink: RANLIB.A(b.o): 8 NoEnd at record 0: the file is empty~
doslink K.OBJ SORTED.A|1||doslink: SORTED.A(b.o): 3 Truncated at record 0: this is an ELF file; nasm wants -f obj~
doslink K.OBJ OTHER.A SORTED.A SYSV.A|1||doslink: SORTED.A(b.o): 3 Truncated at record 0: this is an ELF file; nasm wants -f obj~
doslink K.OBJ OTHER.A|1||\
doslink: K.OBJ: \"kept\" is missing: record 33 (00000021), wanted by \"k.c\"~\
doslink: K.OBJ: \"f\" is missing: record 39 (00000027), wanted by \"k.c\"~
doslink K.OBJ ASTRAY.A|1||\
doslink: K.OBJ: \"kept\" is missing: record 33 (00000021), wanted by \"k.c\"~\
doslink: K.OBJ: \"f\" is missing: record 39 (00000027), wanted by \"k.c\"~
doslink K.OBJ UPPER.A|1||\
doslink: K.OBJ: \"kept\" is missing: record 33 (00000021), wanted by \"k.c\"~\
doslink: K.OBJ: \"f\" is missing: record 39 (00000027), wanted by \"k.c\"~
doslink --ignore-case K.OBJ UPPER.A|1||doslink: UPPER.A(print.o): 3 Truncated at record 0: this is an ELF file; nasm wants -f obj~
doslink N.OBJ SYSV.A|1||doslink: N.OBJ: 7 NotHeader at record 0: this is no object module~
";

/// Runs with communal variables, in the same form.
pub(crate) const COMMUNAL_RUNS: &str = "\
doslink A.OBJ NEAR.OBJ|0||
doslink NEAR.OBJ A.OBJ|0||
doslink NEAR.OBJ F.OBJ|0||
doslink FAR.OBJ A.OBJ|0||
doslink -v NEAR.OBJ RUN.LIB|0|NEAR.OBJ~|
doslink -v NEAR.OBJ A.OBJ RUN.LIB|0|NEAR.OBJ~A.OBJ~|
doslink END.OBJ M.OBJ|0||
doslink --order dosseg A.OBJ NEAR.OBJ|0||
doslink NEAR.OBJ D.OBJ FAR.OBJ|1||doslink: link: 55 NearAndFar \"f\" in NEAR.OBJ and FAR.OBJ~
doslink FAR.OBJ NEAR.OBJ|1||doslink: link: 55 NearAndFar \"f\" in FAR.OBJ and NEAR.OBJ~
doslink FAR.OBJ SIZE.OBJ|1||doslink: link: 56 ElementSizes \"f\" in FAR.OBJ and SIZE.OBJ~
doslink FAR.OBJ SIZE.OBJ F.OBJ|0||
doslink A.OBJ BODY.OBJ|1||doslink: BODY.OBJ: 53 Body at record 8~
doslink A.OBJ TABLE.OBJ|1||doslink: TABLE.OBJ: 54 DataType at record 8~
doslink A.OBJ NEAR.OBJ LONG.OBJ|1||doslink: link: 57 NearTooLong \"g\" in LONG.OBJ~
doslink A.OBJ NEAR.OBJ CUT.OBJ|1||doslink: link: 58 CutElement \"g\" in CUT.OBJ~
doslink A.OBJ NEAR.OBJ MANY.OBJ|1||doslink: link: 59 TooManySegments \"g\" in MANY.OBJ~
doslink COMDAT.OBJ|0||
doslink A.OBJ COMDATS.LIB|0||
doslink COMDAT.OBJ PICKED.OBJ|1||doslink: link: 25 DuplicatePublic \"f\" in COMDAT.OBJ and PICKED.OBJ~
doslink PICKED.OBJ LONGER.OBJ LINSYM.OBJ|0||
doslink PICKED.OBJ SIZED.OBJ MATCHED.OBJ|0||
doslink LONGER.OBJ SIZED.OBJ|1||doslink: link: 78 ComdatSize \"f\" in LONGER.OBJ and SIZED.OBJ~
doslink PICKED.OBJ OTHER.OBJ STRAY.OBJ|1||doslink: link: 79 ComdatData \"f\" in PICKED.OBJ and OTHER.OBJ~
doslink MATCHED.OBJ LONGER.OBJ|1||doslink: link: 78 ComdatSize \"f\" in MATCHED.OBJ and LONGER.OBJ~
doslink LOCAL.OBJ|0||
doslink LOCAL.OBJ LOCAL.OBJ NEAR.OBJ|0||
doslink LOCAL.OBJ A.OBJ F.OBJ|0||
doslink LOCAL.OBJ A.OBJ|1||doslink: A.OBJ: \"f\" is missing: record 28 (0000001C), wanted by \"a.c\"~
doslink LSTART.OBJ|1||doslink: LSTART.OBJ: 27 Unresolved at record 24~
doslink LFAULTY.OBJ|1||doslink: LFAULTY.OBJ: 11 SegmentIndex at record 46~
doslink LOCAL.OBJ LCLASH.OBJ|1||doslink: link: 55 NearAndFar \"f\" in LCLASH.OBJ and LCLASH.OBJ~
doslink LOUTSIDE.OBJ|1||doslink: LOUTSIDE.OBJ: 11 SegmentIndex at record 23~
doslink LOUTSIDE.OBJ LCLASH.OBJ|1||doslink: LOUTSIDE.OBJ: 11 SegmentIndex at record 23~
doslink LOCAL.OBJ LLONG.OBJ|1||doslink: link: 57 NearTooLong \"g\" in LLONG.OBJ~
doslink LOCAL.OBJ LTABLE.OBJ|1||doslink: LTABLE.OBJ: 48 DataType at record 8~
";

/// Runs with aliases, in the same form.
pub(crate) const ALIAS_RUNS: &str = "\
doslink CALLS.OBJ F.OBJ|0||
doslink -v CALLS.OBJ ALIAS.OBJ RUN.LIB|0|CALLS.OBJ~ALIAS.OBJ~RUN.LIB(c.c) for \"g\"~|
doslink ALIAS.OBJ CALLS.OBJ RUN.LIB|0||
doslink NEAR.OBJ ALIAS.OBJ CALLS.OBJ RUN.LIB|0||
doslink CALLS.OBJ ALIAS.OBJ|1||doslink: ALIAS.OBJ: \"g\" is missing: record 8 (00000008), wanted by \"n.c\"~
doslink CALLS.OBJ ROUND.OBJ|1||doslink: ROUND.OBJ: 60 EndlessAlias \"f\" at record 8~
doslink CALLS.OBJ ALIAS.OBJ ROUND.OBJ RUN.LIB|0||
doslink CALLS.OBJ CASE.OBJ F.OBJ|0||
doslink -v LOCAL.OBJ ALIAS.OBJ RUN.LIB|0|LOCAL.OBJ~ALIAS.OBJ~|
doslink --ignore-case CALLS.OBJ CASE.OBJ F.OBJ|1||doslink: CASE.OBJ: 60 EndlessAlias \"F\" at record 8~
";

/// Runs with offsets and starts of 32 bits whose sums are 65,535, and 65,536 or more, or whose words other fix-ups
/// share, in the same form.
pub(crate) const SUM_RUNS: &str = "\
doslink EFITS.OBJ F.OBJ|0||
doslink ESUM.OBJ F.OBJ|1||doslink: ESUM.OBJ: 61 SumAbove16Bits at record 46~
doslink --order dosseg A.OBJ ESUM.OBJ F.OBJ|1||doslink: ESUM.OBJ: 61 SumAbove16Bits at record 46~
doslink F.OBJ ESUM.OBJ|0||
doslink SFITS.OBJ|0||
doslink SSUM.OBJ|1||doslink: SSUM.OBJ: 61 SumAbove16Bits at record 39~
doslink GFITS.OBJ|0||
doslink GSUM.OBJ|1||doslink: GSUM.OBJ: 61 SumAbove16Bits at record 53~
doslink RFITS.OBJ|0||
doslink RSUM.OBJ|1||doslink: RSUM.OBJ: 61 SumAbove16Bits at record 44~
doslink WSUM.OBJ|1||doslink: WSUM.OBJ: 61 SumAbove16Bits at record 57~
doslink ESUM.OBJ|1||doslink: ESUM.OBJ: \"f\" is missing: record 28 (0000001C), wanted by \"s.c\"~
doslink LOADER.OBJ|0||
doslink BYTE.OBJ|1||doslink: BYTE.OBJ: 61 SumAbove16Bits at record 41~
doslink WORD.OBJ|1||doslink: WORD.OBJ: 61 SumAbove16Bits at record 49~
doslink POINTER.OBJ|0||
doslink START.OBJ|0||
doslink F.OBJ START.OBJ|1||doslink: START.OBJ: 61 SumAbove16Bits at record 39~
doslink --order dosseg F.OBJ START.OBJ|1||doslink: START.OBJ: 61 SumAbove16Bits at record 39~
doslink F.OBJ LWIDE.OBJ|1||doslink: LWIDE.OBJ: 61 SumAbove16Bits at record 48~
doslink F.OBJ START16.OBJ|0||
doslink F.OBJ START16.OBJ END32.OBJ|0||
doslink F.OBJ START16.OBJ EFITS.OBJ|0||
doslink F.OBJ START.OBJ START.OBJ|1||doslink: START.OBJ: 33 TwoStarts at record 39~
doslink ESUM.OBJ F.OBJ START.OBJ|1||doslink: ESUM.OBJ: 61 SumAbove16Bits at record 46~
doslink F.OBJ START.OBJ ESUM.OBJ|1||doslink: START.OBJ: 61 SumAbove16Bits at record 39~
";

/// Runs with weak and lazy externals, in the same form.
pub(crate) const DEFAULT_RUNS: &str = "\
doslink -v WEAKLY.OBJ RUN.LIB|0|WEAKLY.OBJ~RUN.LIB(c.c) for \"g\"~|
doslink -v WEAKLY.OBJ A.OBJ RUN.LIB|0|WEAKLY.OBJ~A.OBJ~RUN.LIB(c.c) for \"g\"~RUN.LIB(b.c) for \"f\"~|
doslink A.OBJ WEAKLY.OBJ -l RUN|0||
doslink -v WEAKLY.OBJ F.OBJ RUN.LIB|0|WEAKLY.OBJ~F.OBJ~RUN.LIB(c.c) for \"g\"~|
doslink WEAKLY.OBJ F.OBJ|1||doslink: WEAKLY.OBJ: \"g\" is missing: record 28 (0000001C), wanted by \"a.c\"~
doslink A.OBJ WEAKLY.OBJ|1||\
doslink: A.OBJ: \"f\" is missing: record 28 (0000001C), wanted by \"a.c\"~\
doslink: WEAKLY.OBJ: \"g\" is missing: record 28 (0000001C), wanted by \"a.c\"~
doslink -v WEAKLY.OBJ ALIAS.OBJ RUN.LIB|0|WEAKLY.OBJ~ALIAS.OBJ~RUN.LIB(c.c) for \"g\"~|
doslink WEAKLY.OBJ BACK.OBJ F.OBJ|0||
doslink WEAKLY.OBJ BACK.OBJ|1||doslink: BACK.OBJ: \"f\" is missing: record 8 (00000008), wanted by \"n.c\"~
doslink WEAKLY.OBJ BEHIND.OBJ D.OBJ|0||
doslink -v LAZILY.OBJ RUN.LIB|0|LAZILY.OBJ~RUN.LIB(b.c) for \"f\"~RUN.LIB(c.c) for \"g\"~|
doslink -v LAZILY.OBJ F.OBJ RUN.LIB|0|LAZILY.OBJ~F.OBJ~RUN.LIB(c.c) for \"g\"~|
doslink LAZILY.OBJ F.OBJ|1||doslink: LAZILY.OBJ: \"g\" is missing: record 28 (0000001C), wanted by \"a.c\"~
doslink LAZILY.OBJ BEHIND.OBJ D.OBJ|0||
doslink WEAKLY.OBJ LAZILY.OBJ BEHIND.OBJ D.OBJ|0||
doslink A.OBJ LAZILY.OBJ BEHIND.OBJ D.OBJ|1||doslink: A.OBJ: \"f\" is missing: record 28 (0000001C), wanted by \"a.c\"; \"_f\" is in D.OBJ~
doslink -v NOWHERE.OBJ RUN.LIB|0|NOWHERE.OBJ~RUN.LIB(b.c) for \"f\"~RUN.LIB(c.c) for \"g\"~|
doslink ITSELF.OBJ F.OBJ|0||
doslink ITSELF.OBJ|1||doslink: ITSELF.OBJ: 60 EndlessAlias \"f\" at record 35~
";

/// Runs with weak and lazy externals whose defaults are local to their module, in the same form.
pub(crate) const LOCAL_DEFAULT_RUNS: &str = "\
doslink -v WLOCAL.OBJ RUN.LIB|0|WLOCAL.OBJ~|
doslink -v LLOCAL.OBJ RUN.LIB|0|LLOCAL.OBJ~RUN.LIB(b.c) for \"f\"~RUN.LIB(c.c) for \"g\"~|
doslink LLOCAL.OBJ WLOCAL.OBJ|0||
doslink WLOCAL.OBJ WEAKLY.OBJ|1||doslink: WEAKLY.OBJ: \"g\" is missing: record 28 (0000001C), wanted by \"a.c\"~
doslink A.OBJ WLOCAL.OBJ|1||doslink: A.OBJ: \"f\" is missing: record 28 (0000001C), wanted by \"a.c\"~
doslink SFIRST.OBJ|1||doslink: SFIRST.OBJ: \"g\" is missing: record 28 (0000001C), wanted by \"a.c\"~
doslink CHAINED.OBJ|1||doslink: CHAINED.OBJ: 27 Unresolved at record 78~
doslink CHAINED.OBJ F.OBJ|0||
doslink LNOWHERE.OBJ|1||doslink: LNOWHERE.OBJ: 27 Unresolved at record 62~
doslink LNOWHERE.OBJ F.OBJ|0||
doslink LSUM.OBJ|1||doslink: LSUM.OBJ: 61 SumAbove16Bits at record 73~
doslink F.OBJ LSUM.OBJ|0||
";

/// Runs that search libraries in the order in which these stand, and go on with default libraries, in the same form.
pub(crate) const SEARCH_RUNS: &str = "\
doslink -v -l RUN A.OBJ ONLY.LIB|0|A.OBJ~RUN.LIB(b.c) for \"f\"~RUN.LIB(c.c) for \"g\"~|
doslink -v ONLY.LIB A.OBJ -l RUN|0|A.OBJ~ONLY.LIB(f.c) for \"f\"~|
doslink -v BOTH.OBJ NAMER.LIB|0|BOTH.OBJ~NAMER.LIB(n.c) for \"f\"~HAS.LIB(h.c) for \"h\"~|
doslink -v A.OBJ UNUSED.LIB|0|A.OBJ~UNUSED.LIB(u.c) for \"f\"~|
doslink DEVICE.OBJ F.OBJ|0||doslink: warning: library \"DEVICE\" of DEVICE.OBJ was not found~
";

/// Runs that are refused by what their files are, in the same form.
pub(crate) const REFUSED_RUNS: &str = "\
doslink A.OBJ ELF.OBJ|1||doslink: ELF.OBJ: 3 Truncated at record 0: this is an ELF file; nasm wants -f obj~
doslink ITSELF.OBJ ELF.OBJ|1||doslink: ELF.OBJ: 3 Truncated at record 0: this is an ELF file; nasm wants -f obj~
doslink NEAR.OBJ FAR.OBJ TEXT.OBJ ELF.OBJ|1||\
doslink: TEXT.OBJ: 3 Truncated at record 0: this is a text; assemble or compile it first~
doslink A.OBJ TEXT.OBJ|1||doslink: TEXT.OBJ: 3 Truncated at record 0: this is a text; assemble or compile it first~
doslink RUN.LIB|1||doslink: link: 67 NoProgram~
doslink NOTHING.OBJ|1||doslink: link: 67 NoProgram~
doslink -o A.COM A.OBJ F.OBJ|2||doslink: A.COM: without a form an EXE file is written: say --form com, or --form exe~
doslink -o a.sys A.OBJ F.OBJ|2||doslink: a.sys: without a form an EXE file is written: say --form sys, or --form exe~
doslink -o A.bin A.OBJ F.OBJ|2||doslink: A.bin: without a form an EXE file is written: say --form bin, or --form exe~
doslink -o A.IMG A.OBJ F.OBJ|2||doslink: A.IMG: without a form an EXE file is written: say --form bin, or --form exe~
wlink name A.COM file A.OBJ,F.OBJ|0||doslink: warning: A.COM: an EXE file is written: format dos com makes a .COM file~
wlink name a.sys op q file A.OBJ,F.OBJ|0||doslink: warning: a.sys: an EXE file is written: doslink --form sys makes a device driver~
wlink name A.bin file A.OBJ,F.OBJ|0||doslink: warning: A.bin: an EXE file is written: output raw makes a raw image~
wlink name A.IMG file A.OBJ|1||doslink: warning: A.IMG: an EXE file is written: output raw makes a raw image~doslink: A.OBJ: \"f\" is missing: record 28 (0000001C), wanted by \"a.c\"~
wlink name A.COM format dos exe file A.OBJ,F.OBJ|0||
doslink -v -o - A.OBJ F.OBJ|2||doslink: -: it would be the program and the list of what is linked~
doslink -v -m - A.OBJ F.OBJ|2||doslink: -: it would be the map and the list of what is linked~
doslink -v -o - -m - A.OBJ F.OBJ|2||doslink: -: it would be the program and the list of what is linked~
doslink -o - -m - A.OBJ F.OBJ|2||doslink: -: it would be the program and its map~
doslink -o - A.OBJ F.OBJ|0||
doslink -m - A.OBJ F.OBJ|0||
doslink -o /dev/stdout -m - A.OBJ F.OBJ|2||doslink: -: it would be the program and its map~
doslink -o OUTPUT -m - A.OBJ F.OBJ|2||doslink: -: it would be the program and its map~
doslink -o - -m OUTPUT A.OBJ F.OBJ|2||doslink: OUTPUT: it would be the program and its map~
doslink -v -o /dev/stdout A.OBJ F.OBJ|2||doslink: /dev/stdout: it would be the program and the list of what is linked~
doslink -v -o OUTPUT A.OBJ F.OBJ|2||doslink: OUTPUT: it would be the program and the list of what is linked~
doslink -v -m OUTPUT A.OBJ F.OBJ|2||doslink: OUTPUT: it would be the map and the list of what is linked~
doslink -o - A.OBJ F.OBJ OUTPUT|2||doslink: -: it is read and would be written~
doslink -m - A.OBJ F.OBJ OUTPUT|2||doslink: -: it is read and would be written~
doslink -v A.OBJ F.OBJ OUTPUT|2||doslink: -: it is read and would be written~
doslink -o LINK.EXE A.OBJ F.OBJ|2||doslink: LINK.EXE: it is read and would be written~
doslink -m D.OBJ A.OBJ F.OBJ|2||doslink: D.OBJ: it is a module or a library and would be written~
doslink OUTSIDE.OBJ|1||doslink: OUTSIDE.OBJ: 11 SegmentIndex at record 17~
doslink CLEARED.OBJ|1||doslink: CLEARED.OBJ: 62 DataInBss \"_BSS\"~
doslink --stack 8 STARTED.OBJ|1||doslink: link: 66 StackTooLong: more than 8 bytes~
doslink A.OBJ X.OBJ Y.OBJ|3||doslink: X.OBJ: 1 Device at record 0: no such file~doslink: Y.OBJ: 1 Device at record 0: no such file~
";

/// Runs in which more than one public has a name, in the same form.
pub(crate) const DOUBLED_RUNS: &str = "\
doslink F.OBJ F.OBJ ALIAS.OBJ|1||doslink: link: 25 DuplicatePublic \"f\" in F.OBJ and F.OBJ~
doslink TWO.OBJ F.OBJ TWO.OBJ|1||\
doslink: link: 25 DuplicatePublic \"f\" in TWO.OBJ and F.OBJ and TWO.OBJ~\
doslink: link: 25 DuplicatePublic \"g\" in TWO.OBJ and TWO.OBJ~
doslink TWO.OBJ SWAPPED.OBJ|1||\
doslink: link: 25 DuplicatePublic \"g\" in TWO.OBJ and SWAPPED.OBJ~\
doslink: link: 25 DuplicatePublic \"f\" in TWO.OBJ and SWAPPED.OBJ~
doslink --order dosseg TWO.OBJ RUN.LIB SWAPPED.OBJ|1||\
doslink: link: 25 DuplicatePublic \"g\" in TWO.OBJ and SWAPPED.OBJ~\
doslink: link: 25 DuplicatePublic \"f\" in TWO.OBJ and SWAPPED.OBJ~
doslink F.OBJ CAPITAL.OBJ|0||
doslink --ignore-case F.OBJ CAPITAL.OBJ|1||doslink: link: 25 DuplicatePublic \"F\" in F.OBJ and CAPITAL.OBJ~
doslink A.OBJ TWICE.OBJ|1||doslink: link: 25 DuplicatePublic \"h\" in TWICE.OBJ and TWICE.OBJ~
doslink TWICE.OBJ TWICE.OBJ|1||\
doslink: link: 25 DuplicatePublic \"h\" in TWICE.OBJ and TWICE.OBJ~\
doslink: link: 25 DuplicatePublic \"f\" in TWICE.OBJ and TWICE.OBJ~\
doslink: link: 25 DuplicatePublic \"h\" in TWICE.OBJ and TWICE.OBJ~
";

/// Runs of which a segment, the program or a group is too long, in the same form.
pub(crate) const LONG_RUNS: &str = "\
doslink HALF.OBJ|0||
doslink FULL.OBJ|0||
doslink HALF.OBJ HALF.OBJ|1||doslink: link: 22 SegmentTooLong \"CODE\": 34,464 bytes over~
doslink F.OBJ FULL.OBJ F.OBJ|1||doslink: link: 22 SegmentTooLong \"CODE\": 2 bytes over~
doslink --order dosseg FULL.OBJ F.OBJ|1||doslink: link: 22 SegmentTooLong \"CODE\": 1 byte over~
doslink GROUPED.OBJ|1||doslink: link: 24 GroupTooLong \"CODE\": 4,464 bytes over~
wlink @LONGFARS|1||doslink: link: 24 GroupTooLong \"AUTO\": 4,097 bytes over~
doslink GROUPED.OBJ F.OBJ F.OBJ|1||doslink: link: 24 GroupTooLong \"CODE\": 4,466 bytes over~
doslink LARGE.OBJ GROUPED.OBJ|1||doslink: link: 23 ProgramTooLarge: 70,016 bytes over~
doslink LARGE.OBJ LARGE.OBJ|1||doslink: link: 23 ProgramTooLarge: 1,048,592 bytes over~
doslink LARGE.OBJ HALF.OBJ HALF.OBJ|1||doslink: link: 22 SegmentTooLong \"CODE\": 34,464 bytes over~
doslink OVER999.OBJ|1||doslink: link: 23 ProgramTooLarge: 999 bytes over~
doslink OVER1000.OBJ|1||doslink: link: 23 ProgramTooLarge: 1,000 bytes over~
doslink OVER999999.OBJ|1||doslink: link: 23 ProgramTooLarge: 999,999 bytes over~
doslink OVER1000000.OBJ|1||doslink: link: 23 ProgramTooLarge: 1,000,000 bytes over~
doslink OVER1000000000.OBJ|1||doslink: link: 23 ProgramTooLarge: 1,000,000,000 bytes over~
doslink FULL.OBJ HUGE.OBJ|1||doslink: link: 23 ProgramTooLarge: 2,146,369,560 bytes over~
";

/// Runs of which more than 20 lines of a kind are told: the words, a word that stands 22 times behind them, how many
/// lines are told, and the last of them.
pub(crate) const LIMITED_RUNS: [(&str, &str, usize, &str); 10] = [
    ("doslink", " WIDE.OBJ", 21, "doslink: and 2 more\n"),
    (
        "doslink -v",
        " WIDE.OBJ",
        22,
        "doslink: warning: 32-bit segments of WIDE.OBJ are linked as 16-bit ones\n",
    ),
    ("doslink", " X.OBJ", 21, "doslink: and 2 more\n"),
    (
        "doslink -v",
        " X.OBJ",
        22,
        "doslink: X.OBJ: 1 Device at record 0: no such file\n",
    ),
    (
        "doslink MANY_NAMES.OBJ MANY_NAMES.OBJ",
        "",
        21,
        "doslink: and 2 more\n",
    ),
    (
        "doslink -v MANY_NAMES.OBJ MANY_NAMES.OBJ",
        "",
        22,
        "doslink: link: 25 DuplicatePublic \"v\" in MANY_NAMES.OBJ and MANY_NAMES.OBJ\n",
    ),
    ("wlink @SORTS", "", 21, "doslink: and 2 more\n"),
    ("doslink", " A.OBJ", 21, "doslink: and 2 more\n"),
    ("doslink", " F.OBJ", 1, " and F.OBJ and 2 more\n"),
    ("doslink -v", " F.OBJ", 1, " and F.OBJ and F.OBJ\n"),
];

/// Runs that are warned of what can't be run, in the same form.
pub(crate) const WARNED_RUNS: &str = "\
doslink STARTED.OBJ|0||
doslink --stack 64 STARTED.OBJ|0||
doslink --stack 64 A.OBJ F.OBJ|0||doslink: warning: no module has a start~
wlink @CUT32|0||doslink: warning: the stack is cut to 32 bytes~
wlink @UNCUT|0||
doslink ALFAR.OBJ STARTED.OBJ|0||doslink: warning: \"far\" of ALFAR.OBJ is far and reached by its offset alone: declare it near (NASM: common NAME:near SIZE)~
doslink OWNFAR.OBJ STARTED.OBJ|0||doslink: warning: \"far\" of OWNFAR.OBJ is far and reached by its offset alone: declare it near (NASM: common NAME:near SIZE)~
doslink LFAR.OBJ STARTED.OBJ|0||
doslink LOCAL.OBJ STARTED.OBJ|0||
doslink WEAKFAR.OBJ STARTED.OBJ|0||doslink: warning: \"far\" of WEAKFAR.OBJ is far and reached by its offset alone: declare it near (NASM: common NAME:near SIZE)~
doslink SPACE.OBJ|0||\
doslink: warning: no module has a start~doslink: warning: no module has a stack~doslink: warning: no module has a byte of code~
";

/// Words, others of which so many may stand behind them, and what is told of one more.
pub(crate) const REPEATED: [(&str, &str, usize, &str); 5] = [
    (
        "wlink file F.OBJ option quiet",
        " @IDLE",
        200,
        "doslink: IDLE: a line has at most 200 response files\n",
    ),
    ("wlink file F.OBJ", " libpath f", 64, MANY_FOLDERS),
    ("wlink file F.OBJ", " path f", 64, MANY_FOLDERS),
    ("doslink F.OBJ", " -L f", 64, MANY_FOLDERS),
    ("tlink /x F", " /Lf", 64, MANY_FOLDERS),
];

/// What is told of more folders than are searched.
const MANY_FOLDERS: &str = "doslink: more than 64 folders are to be searched\n";
