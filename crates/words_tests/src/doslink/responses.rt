//! The words of a program that takes directives.
use doslink_words::{parse_words, response_word, text_asked};
use std::alloc::{AllocError, Global};

/// The words of a line, the program's left out.
fn words_of<'a>(alloc: Global, line: &'a str) -> Result<Vec<&'a str>, AllocError> {
    line.split(' ').skip(1).collect(alloc)
}

/// The word that stands for those of a line, printed.
fn word_of(alloc: Global, line: &str) -> Result<String, AllocError> {
    let words = words_of(alloc, line)?;
    format!(in alloc; "{:?}", response_word(alloc, &words))
}

#[test]
fn joins_a_path_in_quotes(rt: HostRuntime) {
    let table = r##"wlink @"out dir/link5500.res" => Ok(Some("@out dir/link5500.res"))
wlink @"a b c d" => Ok(Some("@a b c d"))
wlink @"it's/a.res" => Ok(Some("@it's/a.res"))
wlink @"" => Ok(Some("@"))
wlink @" " => Ok(Some("@ "))
wlink @link.res => Ok(None)
wlink @"out dir/link.res => Ok(None)
wlink @"out "dir" => Ok(None)
wlink @"a" @"b" => Ok(None)
wlink "@a" => Ok(None)
wlink @a b" => Ok(None)
wlink => Ok(None)"##;
    for row in table.split('\n') {
        let (line, wanted) = row.split_once(" => ").unwrap_or((row, "no part"));
        let printed = word_of(rt.alloc(), line).expect(&rt, "text");
        assert_eq!(&rt; printed.as_str(), wanted);
    }
}

/// What words are told that are no directives, its first line.
fn told(alloc: Global, line: &str) -> Result<&'static str, AllocError> {
    let words = words_of(alloc, line)?;
    let text = text_asked(&words).unwrap_or("nothing");
    Ok(text.split_once('\n').map_or(text, |(first, _)| first))
}

#[test]
fn tells_help_and_version(rt: HostRuntime) {
    let table =
        "wlink --help => Links what compilers for DOS write, with libraries, into an MS-DOS program
wlink -h => Links what compilers for DOS write, with libraries, into an MS-DOS program
wlink -? => Links what compilers for DOS write, with libraries, into an MS-DOS program
wlink --version => doslink 1.0
wlink -V => doslink 1.0
wlink --help --help => nothing
wlink file a => nothing
wlink => nothing";
    for row in table.split('\n') {
        let (line, wanted) = row.split_once(" => ").unwrap_or((row, "no part"));
        assert_eq!(&rt; told(rt.alloc(), line).expect(&rt, "text"), wanted);
    }
}

/// The lines of a list in help keep the blanks at their fronts.
#[test]
fn keeps_the_layout_of_help(rt: HostRuntime) {
    let text = text_asked(&["--help"]).unwrap_or("nothing");
    for line in [
        "       wlink DIRECTIVE..",
        "  name FILE              the program to write (n)",
    ] {
        assert!(rt; text.split('\n').any(|it| it == line), "{line}");
    }
}

/// Both programs have one version.
#[test]
fn tells_one_version(rt: HostRuntime) {
    let words = ["--version"];
    let printed = match parse_words(rt.alloc(), &words) {
        Err(fault) => format!(in rt.alloc(); "{fault}"),
        Ok(_) => format!(in rt.alloc(); "job"),
    };
    assert_eq!(&rt;
        printed.expect(&rt, "text").as_str(),
        text_asked(&words).unwrap_or("nothing")
    );
}
