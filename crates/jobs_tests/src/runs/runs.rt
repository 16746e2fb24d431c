//! Runs over a world in memory.
use super::forms::{FORM_LINES, FORM_MODULES, FORM_RUNS, FORMED};
use super::fronts::{CONFIGURED, FRONTED, Front};
use super::lines::{LINE_FILES, LINE_MAPS, LINE_RUNS, LINED, MAPPED};
use super::looking::{LOOKED, LOOKED_FILES, LOOKING_RUNS};
use super::modules::LIBRARY;
use super::naming::{
    DIRECTIVE_FILES, DIRECTIVE_RUNS, NAMED_FILES, NAMED_PROGRAMS, NAMING_RUNS, WHOLE_NAMES,
};
use super::tables::{
    ALIAS_RUNS, COMMUNAL_RUNS, DEFAULT_RUNS, DOUBLED_RUNS, LIMITED_RUNS, LOCAL_DEFAULT_RUNS,
    LONG_RUNS, MISSING_RUNS, REFUSED_RUNS, REPEATED, RUNS, SEARCH_RUNS, SUM_RUNS, SYMBOL_RUNS,
    WARNED_RUNS,
};
use super::world::{
    ARCHIVES, AS_MANY, CUT, CUT_TO_16, CUT_TO_32, DIRECTIVES, FAR_DATA, FAR_TOO_LONG,
    FURTHER_MODULES, MODULES, RESPONSE, SORTS, WRONG,
};
use super::written::{MAP, PROGRAMS, WRITTEN};
use desk::{Count, Desk, Page, Pen};
use doslink_asked::{Request, language_of};
use doslink_jobs::run_words;
use omf_files::BufferedSink;
use omf_frame::WriteSink;
use std::alloc::{AllocError, Global};
use std::process::Abort;
use std::test::*;

/// The most bytes that are written to a file or a stream.
const ROOM: usize = 20_000;

/// What a run did: its status, both streams, and the program and its map, which were `old`.
#[derive(Drop)]
struct Done {
    status: u8,
    output: Vec<u8>,
    errors: Vec<u8>,
    out: Vec<u8>,
    map: Vec<u8>,
}

/// What begins the warnings of what no module has, which most of these modules haven't: they are looked at in rows of
/// their own alone.
const LACKING: &str = "doslink: warning: no module has a ";

/// What a run of these words tells, as a row of the table has it, with the warnings of what no module has or without.
fn told(alloc: Global, words: &str, lacking: bool) -> Result<Vec<u8>, AllocError> {
    told_of(alloc, words, run_row(alloc, words, "")?, lacking)
}

/// The same of a run that is done.
fn told_of(alloc: Global, words: &str, done: Done, lacking: bool) -> Result<Vec<u8>, AllocError> {
    let mut row = Vec::from_slice(alloc, words.as_bytes())?;
    row.push(b'|')?;
    row.push(b'0' + done.status % 10)?;
    for text in [done.output, done.errors] {
        row.push(b'|')?;
        for line in text.split(|byte| *byte == b'\n') {
            if !line.is_empty() && (lacking || !line.starts_with(LACKING.as_bytes())) {
                row.extend_from_slice(line)?;
                row.push(b'~')?;
            }
        }
    }
    Ok(row)
}

/// Puts the texts of the world behind its modules, and what is made of others.
fn put_others<'a>(files: &mut Vec<(&'a str, &'a [u8])>) -> Result<(), AllocError> {
    files.extend_from_slice(&[
        ("OUTPUT", b""),
        ("WRONG", WRONG.as_bytes()),
        ("CUT.LIB", &LIBRARY.as_slice()[..CUT]),
        ("WORDS", RESPONSE.as_bytes()),
        ("LINES", DIRECTIVES.as_bytes()),
        ("CUT16", CUT_TO_16.as_bytes()),
        ("FARS", FAR_DATA.as_bytes()),
        ("LONGFARS", FAR_TOO_LONG.as_bytes()),
        ("CUT32", CUT_TO_32.as_bytes()),
        ("UNCUT", AS_MANY.as_bytes()),
        ("SORTS", SORTS.as_bytes()),
        ("HALF.OBJ", super::lengths::HALF.as_slice()),
        ("FULL.OBJ", super::lengths::FULL.as_slice()),
        ("GROUPED.OBJ", super::lengths::GROUPED.as_slice()),
        ("LARGE.OBJ", super::lengths::LARGE.as_slice()),
    ])
}

/// Puts the modules and libraries of the world behind files.
fn put_modules<'a>(files: &mut Vec<(&'a str, &'a [u8])>) -> Result<(), AllocError> {
    files.extend_from_slice(&MODULES)?;
    files.extend_from_slice(&FURTHER_MODULES)?;
    files.extend_from_slice(&FORM_MODULES)?;
    files.extend_from_slice(&FORM_LINES)?;
    files.extend_from_slice(&LINE_FILES)?;
    files.extend_from_slice(&LOOKED_FILES)?;
    files.extend_from_slice(&DIRECTIVE_FILES)?;
    files.extend_from_slice(&ARCHIVES)
}

/// What a run of these words does that may write a program at a path, or at any if it is empty, and a map at P.MAP.
fn run_row(alloc: Global, row: &str, path: &str) -> Result<Done, AllocError> {
    run_with(alloc, Front::none(), row, path)
}

/// The same with what stands in front of the words.
fn run_with(alloc: Global, front: Front<'_>, row: &str, path: &str) -> Result<Done, AllocError> {
    let mut files = Vec::new(alloc);
    put_modules(&mut files)?;
    put_others(&mut files)?;
    files.extend_from_slice(front.files)?;
    let out = Page::new(alloc, path, b"old", ROOM)?;
    let map = Page::new(alloc, "P.MAP", b"old", ROOM)?;
    let output_page = Page::new(alloc, "", b"", ROOM)?;
    let error_page = Page::new(alloc, "", b"", ROOM)?;
    let opened = Page::new(alloc, "", b"", 0)?;
    let count = Count::new();
    let desk = Desk {
        files: files.as_slice(),
        folders: &["RUN", "LIBS", "LIBS/"],
        devices: &["DEVICE"],
        locked: front.locked,
        links: &[
            ("./HAS.LIB", "HAS.LIB"),
            ("LINK.EXE", "F.OBJ"),
            ("LINKED.CFG", "TLINK.CFG"),
            ("/dev/stdout", "OUTPUT"),
        ],
        out: &out,
        map: &map,
        opened: &opened,
        count: &count,
    };
    let words = row.split_ascii_whitespace().collect::<Vec<&str>>(alloc)?;
    let Ok(mut output) = BufferedSink::new(alloc, Pen::new(&output_page)) else {
        return Err(AllocError);
    };
    let mut errors = WriteSink::new(Pen::new(&error_page));
    let status = match request_of(&words, front.link) {
        Some(request) => run_words(alloc, desk, &request, &mut output, &mut errors),
        None => 9,
    };
    Ok(Done {
        status,
        output: output_page.bytes(alloc)?,
        errors: error_page.bytes(alloc)?,
        out: out.bytes(alloc)?,
        map: map.bytes(alloc)?,
    })
}

/// What a program's name and the words after it ask for.
fn request_of<'r>(words: &'r [&'r str], link: &'r str) -> Option<Request<'r>> {
    let [program, words @ ..] = words else {
        return None;
    };
    Some(Request {
        language: language_of(program),
        words,
        link,
        folders: &["", "ENV"],
    })
}

/// The first row that isn't what its run tells, if there is one, with the warnings of what no module has or without.
fn first_other(alloc: Global, rows: &str, lacking: bool) -> Result<Option<String>, AllocError> {
    for row in rows.lines() {
        let words = match row.split_once('|') {
            Some((words, _)) => words,
            None => row,
        };
        let line = told(alloc, words, lacking)?;
        if line.as_slice() != row.as_bytes() {
            return Ok(Some(String::from_utf8_lossy(alloc, &line)?));
        }
    }
    Ok(None)
}

/// Whether a run of a row with what stands in front of its words tells what the row has.
fn check_front<R: Abort>(rt: &R, alloc: Global, front: Front<'_>, row: &str) -> Result<(), Fail> {
    let (words, _) = row.split_once('|').unwrap_or((row, ""));
    let done = run_with(alloc, front, words, "")?;
    let line = told_of(alloc, words, done, false)?;
    let line = String::from_utf8_lossy(alloc, &line)?;
    assert_eq!(rt; line.as_str(), row);
    Ok(())
}

/// The same without those warnings.
fn first_wrong(alloc: Global, rows: &str) -> Result<Option<String>, AllocError> {
    first_other(alloc, rows, false)
}

#[test]
fn runs_tell_these_lines(rt: HostRuntime) -> Result<(), Fail> {
    let wrong = first_wrong(rt.alloc(), RUNS)?;
    assert_eq!(rt; wrong, None);
    Ok(())
}

#[test]
fn runs_with_missing_names_tell_these_lines(rt: HostRuntime) -> Result<(), Fail> {
    let wrong = first_wrong(rt.alloc(), MISSING_RUNS)?;
    assert_eq!(rt; wrong, None);
    Ok(())
}

#[test]
fn communal_runs_tell_these_lines(rt: HostRuntime) -> Result<(), Fail> {
    let wrong = first_wrong(rt.alloc(), COMMUNAL_RUNS)?;
    assert_eq!(rt; wrong, None);
    Ok(())
}

#[test]
fn alias_runs_tell_these_lines(rt: HostRuntime) -> Result<(), Fail> {
    let wrong = first_wrong(rt.alloc(), ALIAS_RUNS)?;
    assert_eq!(rt; wrong, None);
    Ok(())
}

#[test]
fn naming_runs_tell_these_lines(rt: HostRuntime) -> Result<(), Fail> {
    let wrong = first_wrong(rt.alloc(), NAMING_RUNS)?;
    assert_eq!(rt; wrong, None);
    Ok(())
}

#[test]
fn directive_runs_tell_these_lines(rt: HostRuntime) -> Result<(), Fail> {
    let wrong = first_wrong(rt.alloc(), DIRECTIVE_RUNS)?;
    assert_eq!(rt; wrong, None);
    Ok(())
}

#[test]
fn naming_runs_write_these_files(rt: HostRuntime) -> Result<(), Fail> {
    for (row, bytes) in &NAMED_PROGRAMS {
        let done = run_row(rt.alloc(), row, "")?;
        assert!(rt; done.out.ends_with(bytes), "{row}");
    }
    for (row, path, program, map) in &NAMED_FILES {
        let done = run_row(rt.alloc(), row, path)?;
        assert!(rt; done.out.as_slice() == *program, "{row}");
        assert!(rt; done.map.as_slice() == map.as_bytes(), "{row}");
    }
    for (row, path, bytes) in &WHOLE_NAMES {
        let done = run_row(rt.alloc(), row, path)?;
        assert!(rt; done.out.ends_with(bytes), "{row}");
    }
    Ok(())
}

#[test]
fn looking_runs_tell_these_lines(rt: HostRuntime) -> Result<(), Fail> {
    let wrong = first_wrong(rt.alloc(), LOOKING_RUNS)?;
    assert_eq!(rt; wrong, None);
    for (row, path, bytes) in &LOOKED {
        let done = run_row(rt.alloc(), row, path)?;
        assert!(rt; done.out.ends_with(bytes), "{row}");
    }
    Ok(())
}

#[test]
fn sum_runs_tell_these_lines(rt: HostRuntime) -> Result<(), Fail> {
    let wrong = first_wrong(rt.alloc(), SUM_RUNS)?;
    assert_eq!(rt; wrong, None);
    Ok(())
}

#[test]
fn default_runs_tell_these_lines(rt: HostRuntime) -> Result<(), Fail> {
    let wrong = first_wrong(rt.alloc(), DEFAULT_RUNS)?;
    assert_eq!(rt; wrong, None);
    Ok(())
}

#[test]
fn local_default_runs_tell_these_lines(rt: HostRuntime) -> Result<(), Fail> {
    let wrong = first_wrong(rt.alloc(), LOCAL_DEFAULT_RUNS)?;
    assert_eq!(rt; wrong, None);
    Ok(())
}

#[test]
fn search_runs_tell_these_lines(rt: HostRuntime) -> Result<(), Fail> {
    let wrong = first_wrong(rt.alloc(), SEARCH_RUNS)?;
    assert_eq!(rt; wrong, None);
    Ok(())
}

#[test]
fn symbol_runs_tell_these_lines(rt: HostRuntime) -> Result<(), Fail> {
    let wrong = first_wrong(rt.alloc(), SYMBOL_RUNS)?;
    assert_eq!(rt; wrong, None);
    Ok(())
}

#[test]
fn refused_runs_tell_these_lines(rt: HostRuntime) -> Result<(), Fail> {
    let wrong = first_wrong(rt.alloc(), REFUSED_RUNS)?;
    assert_eq!(rt; wrong, None);
    Ok(())
}

#[test]
fn doubled_runs_tell_these_lines(rt: HostRuntime) -> Result<(), Fail> {
    let wrong = first_wrong(rt.alloc(), DOUBLED_RUNS)?;
    assert_eq!(rt; wrong, None);
    Ok(())
}

#[test]
fn long_runs_tell_these_lines(rt: HostRuntime) -> Result<(), Fail> {
    let wrong = first_wrong(rt.alloc(), LONG_RUNS)?;
    assert_eq!(rt; wrong, None);
    Ok(())
}

/// How many lines of a text aren't of what no module has.
fn count_lines(text: &[u8]) -> usize {
    let lines = text.split(|byte| *byte == b'\n');
    lines
        .filter(|line| !line.is_empty() && !line.starts_with(LACKING.as_bytes()))
        .count()
}

#[test]
fn limited_runs_tell_so_many_lines(rt: HostRuntime) -> Result<(), Fail> {
    for (front, word, count, last) in &LIMITED_RUNS {
        let mut words = String::from_str(rt.alloc(), front)?;
        for _ in 0..22 {
            words.push_str(word)?;
        }
        let done = run_row(rt.alloc(), words.as_str(), "")?;
        assert_eq!(rt; count_lines(&done.errors), *count, "{front}{word}");
        let told = String::from_utf8_lossy(rt.alloc(), &done.errors)?;
        assert!(rt; told.as_str().contains(last), "{front}{word}");
    }
    Ok(())
}

/// What a run does of words behind which others stand so many times.
fn run_repeated(alloc: Global, front: &str, word: &str, times: usize) -> Result<Done, AllocError> {
    let mut words = String::from_str(alloc, front)?;
    for _ in 0..times {
        words.push_str(word)?;
    }
    run_row(alloc, words.as_str(), "")
}

#[test]
fn so_many_files_and_folders_are_taken(rt: HostRuntime) -> Result<(), Fail> {
    for (front, word, most, last) in &REPEATED {
        let done = run_repeated(rt.alloc(), front, word, *most)?;
        assert_eq!(rt; (done.status, count_lines(&done.errors)), (0, 0), "{word}");
        let done = run_repeated(rt.alloc(), front, word, *most + 1)?;
        let told = String::from_utf8_lossy(rt.alloc(), &done.errors)?;
        assert_eq!(rt; done.status, 2, "{word}");
        assert_eq!(rt; told.as_str(), *last, "{word}");
    }
    Ok(())
}

#[test]
fn warned_runs_tell_these_lines(rt: HostRuntime) -> Result<(), Fail> {
    let wrong = first_other(rt.alloc(), WARNED_RUNS, true)?;
    assert_eq!(rt; wrong, None);
    Ok(())
}

#[test]
fn programs_end_in_these_bytes(rt: HostRuntime) -> Result<(), Fail> {
    for (row, bytes) in &PROGRAMS {
        let done = run_row(rt.alloc(), row, "")?;
        assert!(rt; done.out.ends_with(bytes), "{row}");
    }
    Ok(())
}

#[test]
fn runs_with_a_form_tell_these_lines(rt: HostRuntime) -> Result<(), Fail> {
    let wrong = first_other(rt.alloc(), FORM_RUNS, true)?;
    assert_eq!(rt; wrong, None);
    Ok(())
}

#[test]
fn runs_with_a_form_write_these_files(rt: HostRuntime) -> Result<(), Fail> {
    for (row, path, bytes) in &FORMED {
        let done = run_row(rt.alloc(), row, path)?;
        assert!(rt; done.out.as_slice() == *bytes, "{row}");
    }
    Ok(())
}

#[test]
fn lines_tell_these_lines(rt: HostRuntime) -> Result<(), Fail> {
    let wrong = first_wrong(rt.alloc(), LINE_RUNS)?;
    assert_eq!(rt; wrong, None);
    Ok(())
}

#[test]
fn lines_behind_link_tell_these_lines(rt: HostRuntime) -> Result<(), Fail> {
    // an option of TLINK alone
    let files: [(&str, &[u8]); 1] = [("TLINK.CFG", b"/k")];
    for (link, row) in &FRONTED {
        let front = Front {
            link,
            files: &files,
            locked: &[],
        };
        check_front(&rt, rt.alloc(), front, row)?;
    }
    Ok(())
}

#[test]
fn lines_behind_tlink_cfg_tell_these_lines(rt: HostRuntime) -> Result<(), Fail> {
    for (bytes, row) in &CONFIGURED {
        let files: [(&str, &[u8]); 1] = [("TLINK.CFG", bytes)];
        let front = Front {
            link: "/z",
            files: &files,
            locked: &[],
        };
        check_front(&rt, rt.alloc(), front, row)?;
    }
    Ok(())
}

#[test]
fn tlink_cfg_that_cannot_be_opened_is_told(rt: HostRuntime) -> Result<(), Fail> {
    let front = Front {
        link: "",
        files: &[],
        locked: &["TLINK.CFG"],
    };
    let row = "tlink /x F|3||doslink: TLINK.CFG: 1 Device at record 0: no permission~";
    check_front(&rt, rt.alloc(), front, row)
}

#[test]
fn default_library_that_cannot_be_opened_is_told(rt: HostRuntime) -> Result<(), Fail> {
    let front = Front {
        link: "",
        files: &[],
        locked: &["NONE.LIB"],
    };
    let row = "doslink E.OBJ|3||doslink: NONE: 1 Device at record 0: no permission~";
    check_front(&rt, rt.alloc(), front, row)
}

#[test]
fn lines_write_these_files(rt: HostRuntime) -> Result<(), Fail> {
    for (row, path, bytes) in &LINED {
        let done = run_row(rt.alloc(), row, path)?;
        assert!(rt; done.out.as_slice() == *bytes, "{row}");
    }
    Ok(())
}

#[test]
fn lines_write_these_maps(rt: HostRuntime) -> Result<(), Fail> {
    for (row, map) in &LINE_MAPS {
        let done = run_row(rt.alloc(), row, "P.EXE")?;
        assert!(rt; done.map.as_slice() == map.as_bytes(), "{row}");
    }
    Ok(())
}

#[test]
fn lines_write_a_map_where_they_ask_for_one(rt: HostRuntime) -> Result<(), Fail> {
    for (row, path, writes) in &MAPPED {
        let done = run_row(rt.alloc(), row, path)?;
        assert!(rt;
            (done.map.as_slice() != b"old".as_slice()) == *writes,
            "{row}"
        );
    }
    Ok(())
}

#[test]
fn runs_write_these_files(rt: HostRuntime) -> Result<(), Fail> {
    for (row, path, program, map) in &WRITTEN {
        let done = run_row(rt.alloc(), row, path)?;
        assert!(rt; done.out.as_slice() == *program, "{row}");
        assert!(rt; done.map.as_slice() == map.as_bytes(), "{row}");
    }
    Ok(())
}
