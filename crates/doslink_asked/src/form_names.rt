//! The name of an EXE file that says another form.
ghost use Rattle.std.specs.Prelude.{◌≡◌, ◌++◌, OnOk};
ghost use Rattle.doslink_asked.specs.inside.FormNames as spec;
ghost use Rattle.doslink_asked.specs.inside.FormNames.{said_words};

use crate::languages::is_named;
use crate::paths::{extension_of, is_of_other_form};
use doslink_words::{Job, has_header};
use std::alloc::AllocError;

/// What makes files of other forms than EXE files.
#[derive(Clone, Copy)]
pub(crate) struct FormWords {
    /// What makes a .COM file.
    com_file: &'static [u8],
    /// What makes a raw image.
    raw_image: &'static [u8],
}

/// That in a line of LINK.
pub(crate) const LINK_WORDS: FormWords = FormWords {
    com_file: b"/T makes a .COM file",
    raw_image: b"doslink --form bin makes a raw image",
};

/// That in one of TLINK.
pub(crate) const TLINK_WORDS: FormWords = FormWords {
    com_file: b"/t makes a .COM file",
    raw_image: b"doslink --form bin makes a raw image",
};

/// That in directives.
pub(crate) const DIRECTIVE_WORDS: FormWords = FormWords {
    com_file: b"format dos com makes a .COM file",
    raw_image: b"output raw makes a raw image",
};

// What makes a file of the form that an extension is of.
fn form_help(words: FormWords, extension: &str) -> &'static [u8]
    ensures { result.now ≡ spec.form_help (said_words words) extension.now }
{
    if is_named(extension.as_bytes(), b"com") {
        words.com_file
    } else if is_named(extension.as_bytes(), b"sys") {
        b"doslink --form sys makes a device driver"
    } else {
        words.raw_image
    }
}

// Appends the line of an EXE file by this name.
fn push_form_line(words: FormWords, out: &str, lines: &mut Vec<u8>) -> Result<(), AllocError>
    ensures { OnOk result (lines.new.items ≡ lines.old.items ++ spec.form_line (said_words words) out.now) }
{
    lines.extend_from_slice(b"doslink: warning: ")?;
    lines.extend_from_slice(out.as_bytes())?;
    lines.extend_from_slice(b": an EXE file is written: ")?;
    lines.extend_from_slice(form_help(words, extension_of(out)))?;
    lines.extend_from_slice(b"\n")
}

// Whether the file that a job writes at a path has a header, and the name of one without.
fn is_misnamed(job: &Job<'_>, out: &str) -> bool
    ensures { result ≡ spec.is_misnamed job.now out.now }
{
    has_header(job.form) && is_of_other_form(out)
}

// Appends a line where this is so.
fn push_misnamed(
    job: &Job<'_>,
    words: FormWords,
    out: &str,
    lines: &mut Vec<u8>,
) -> Result<(), AllocError>
    ensures { OnOk result
        (lines.new.items ≡ lines.old.items ++ spec.misnamed_warning job.now (said_words words) out.now) }
{
    if !is_misnamed(job, out) {
        return Ok(());
    }
    push_form_line(words, out, lines)
}

/// Warns where the file that a job writes has a header, and the name of one without.
pub(crate) fn push_form_warning(
    job: &Job<'_>,
    words: FormWords,
    lines: &mut Vec<u8>,
) -> Result<(), AllocError>
    ensures { OnOk result (lines.new.items ≡ lines.old.items ++ spec.form_warning job.now (said_words words)) }
{
    match job.out {
        Some(out) => push_misnamed(job, words, out, lines),
        None => Ok(()),
    }
}
