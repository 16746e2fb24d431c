//! The name of the program that directives say, made whole.
ghost use Rattle.std.specs.Prelude.{◌≡◌, IfOk, string_bytes};
ghost use Rattle.std.specs.Option.{option_map};
ghost use Rattle.doslink_asked.specs.Named as spec;

use crate::line_names::{base_of, whole_path};
use crate::paths::{first_file, is_output, path_after};
use doslink_words::{Form, Job};
use std::alloc::{AllocError, Global};

// The extension of a file of a form, in small letters.
fn small_extension(form: Option<Form>) -> &'static str
    ensures { result.now ≡ spec.small_extension form }
{
    match form {
        None | Some(Form::Exe | Form::LimitedExe { .. }) => ".exe",
        Some(Form::Com | Form::FromStart) => ".com",
        Some(Form::Raw { .. }) => ".bin",
        Some(Form::Driver) => ".sys",
    }
}

// The first object's name, with that extension.
fn small_name(alloc: Global, job: &Job<'_>) -> Result<String, AllocError>
    ensures { IfOk result (λ name. string_bytes name ≡ spec.small_name job.now) }
{
    let name = base_of(first_file(&job.inputs));
    path_after(alloc, name, small_extension(job.form))
}

// A name that is said of a job's program.
fn named_out(alloc: Global, job: &Job<'_>, out: &str) -> Result<String, AllocError>
    ensures { IfOk result (λ made. string_bytes made ≡ spec.named_out job.now out.now) }
{
    if is_output(out) {
        return String::from_str(alloc, out);
    }
    let name = small_name(alloc, job)?;
    whole_path(alloc, out, name.as_str(), small_extension(job.form))
}

/// The name of the program that a job says, with the extension that it takes.
pub(crate) fn name_of(alloc: Global, job: &Job<'_>) -> Result<Option<String>, AllocError>
    ensures { IfOk result (λ name. option_map string_bytes name
        ≡ option_map (λ out. spec.named_out job.now out.now) job.now.out) }
{
    match job.out {
        Some(out) => Ok(Some(named_out(alloc, job, out)?)),
        None => Ok(None),
    }
}

// The text of a name.
fn name_text<'n>(name: &'n Option<String>) -> Option<&'n str>
    ensures { option_map (λ text. text.now) result ≡ option_map string_bytes name.now }
{
    match name {
        Some(name) => Some(name.as_str()),
        None => None,
    }
}

/// A job with this name, of an EXE file where no form is said.
pub(crate) fn with_name<'n>(job: Job<'n>, name: &'n Option<String>) -> Job<'n>
    ensures { (option_map string_bytes name.now
        ≡ option_map (λ out. spec.named_out job.entry out.now) job.entry.out)
        → spec.IsNamed job.entry result }
{
    Job {
        out: name_text(name),
        form: Some(job.form.unwrap_or(Form::Exe)),
        ..job
    }
}
