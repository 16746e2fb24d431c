//! Lines of LINK and TLINK with something in front of them, and what runs of them tell.

/// What stands in front of a line.
#[derive(Clone, Copy)]
pub(crate) struct Front<'f> {
    /// The environment's LINK.
    pub link: &'f str,
    /// TLINK.CFG, where it is there.
    pub files: &'f [(&'f str, &'f [u8])],
    /// Files that are there and can't be opened.
    pub locked: &'f [&'f str],
}

impl<'f> Front<'f> {
    /// Nothing.
    pub(crate) fn none() -> Front<'f> {
        Front {
            link: "",
            files: &[],
            locked: &[],
        }
    }
}

/// The environment's LINK, and a run with it, in the form of the other tables.
pub(crate) const FRONTED: [(&str, &str); 27] = [
    (
        "",
        "link F CAPITAL;|1||doslink: link: 25 DuplicatePublic \"F\" in F.OBJ and CAPITAL.OBJ~",
    ),
    ("/NOI", "link F CAPITAL;|0||"),
    (" ", "link F;|0||"),
    ("\t/NOLOGO\n /BATCH ", "link F;|0||"),
    ("A", "link F;|0||"),
    ("A", "link ,P,NUL,RUN;|0||"),
    ("A F;", "link ;|0||"),
    (
        "A F;",
        "link P;|2||doslink: line 1, column 1: \"P\": nothing is expected behind `;`~",
    ),
    ("A,P,NUL,RUN", "link /BATCH;|0||"),
    (
        "/z",
        "link F;|2||doslink: LINK: line 1, column 1: \"/z\": unknown option~",
    ),
    (
        "/NOI /z",
        "link F;|2||doslink: LINK: line 1, column 6: \"/z\": unknown option~",
    ),
    (
        "/NOI\n/z",
        "link F;|2||doslink: LINK: line 2, column 1: \"/z\": unknown option~",
    ),
    (
        "/NOI",
        "link F /z;|2||doslink: line 1, column 3: \"/z\": unknown option~",
    ),
    (
        "/CO",
        "link F /E;|0||doslink: warning: LINK: line 1, column 1: no data for debuggers is written~doslink: warning: line 1, column 3: the program isn't packed: it runs the same~",
    ),
    (
        "A \"F",
        "link F\";|2||doslink: LINK: line 1, column 3: \"\\\"\": a quote isn't closed~",
    ),
    ("@OBJS", "link ;|0||"),
    (
        "@LINES2",
        "link ;|2||doslink: LINK: line 3, column 1: \"/z\": unknown option~",
    ),
    (
        "@DEEP",
        "link ;|2||doslink: \"@DEEP\": response files name one another more than 8 deep~",
    ),
    (
        "@NOFILE",
        "link F;|3||doslink: NOFILE: 1 Device at record 0: no such file~",
    ),
    (
        "@LINK.RSP",
        "link F,LINK.RSP;|2||doslink: line 1, column 1: \"F\": a comma is expected: the field has its name~",
    ),
    ("/NOI", "link /NOI;|2||doslink: an object is expected~"),
    // a call of a linker says nothing
    ("doslink --as link", "link F;|0||"),
    ("C:\\BIN\\Link.EXE /z", "link F;|0||"),
    (
        "doslink",
        "link F;|3||doslink: doslink: 1 Device at record 0: no such file~",
    ),
    // others have no such variable
    ("/z", "tlink /x F|0||"),
    (
        "/z",
        "doslink --as wlink @LINES|0||doslink: warning: LINES: line 3: the map is not sorted~",
    ),
    ("/z", "doslink -o P.EXE F.OBJ|0||"),
];

/// What TLINK.CFG has, and a run with it.
pub(crate) const CONFIGURED: [(&[u8], &str); 19] = [
    (b"/c\r\n/x\r\n", "tlink F CAPITAL|0||"),
    (
        b"/c",
        "tlink /c- /x F CAPITAL|1||doslink: link: 25 DuplicatePublic \"F\" in F.OBJ and CAPITAL.OBJ~",
    ),
    (b"/x ; -c/m;\n\n;", "tlink F CAPITAL|0||"),
    (b"/x\r\n\x1A/z", "tlink F|0||"),
    (
        b"/x\xFF\x1A",
        "tlink /x F|2||doslink: TLINK.CFG: it is no UTF-8 text~",
    ),
    (b"/x\x1A\xFF", "tlink F|0||"),
    (b"", "tlink /x F|0||"),
    (
        b"/x\r\n/z\r\n",
        "tlink F|2||doslink: TLINK.CFG: line 2, column 1: \"/z\": unknown option~",
    ),
    (
        b"/x\r\n/c\r\n",
        "tlink F /z|2||doslink: line 1, column 3: \"/z\": unknown option~",
    ),
    (
        b"/x\n /c A\n",
        "tlink F|2||doslink: TLINK.CFG: line 2, column 5: \"A\": an option is expected~",
    ),
    (
        b"@OBJS",
        "tlink F|2||doslink: TLINK.CFG: line 1, column 1: \"@OBJS\": an option is expected~",
    ),
    (
        b"/x,",
        "tlink F|2||doslink: TLINK.CFG: line 1, column 3: \",\": an option is expected~",
    ),
    (
        b"/x\n/v\n/f\n",
        "tlink F|0||doslink: warning: TLINK.CFG: line 2, column 1: no data for debuggers is written~doslink: warning: TLINK.CFG: line 3, column 1: the program isn't packed: it runs the same~",
    ),
    (
        b"/i",
        "tlink F|2||doslink: /i isn't followed: segments without data take no bytes of the file~",
    ),
    (b"/i", "tlink /x /i- F|0||"),
    (b"/s", "tlink F|0||"),
    (
        b"/x",
        "tlink F,TLINK.CFG|2||doslink: TLINK.CFG: it is read and would be written~",
    ),
    (
        b"/m",
        "tlink F,P,LINKED.CFG|2||doslink: LINKED.CFG: it is read and would be written~",
    ),
    (b"/x", "tlink F|0||"),
];
