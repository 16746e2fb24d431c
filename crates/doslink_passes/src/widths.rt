//! Segments of 32 bits, which are linked as ones of 16.
ghost use Rattle.std.specs.Prelude.{◌≡◌, ◌++◌, IfOk, OnOk};
ghost use Rattle.std.specs.List.{flat_map};
ghost use Rattle.doslink_link.specs.Linking.{bytes_of};
ghost use Rattle.doslink_telling.specs.Lines.{wide_line};
ghost use Rattle.doslink_telling.specs.Words.{word_at};
ghost use Rattle.doslink_passes.specs.inside.WideSegments as spec;

use crate::request::LinkRequest;
use doslink_telling::{push_rest, push_wide_line, told_count};
use omf_plain::Widths;
use std::alloc::{AllocError, Allocator};

/// The words for the modules that have such segments.
fn wide_words<'t, A: Allocator + Copy>(
    alloc: A,
    request: &LinkRequest<'t, '_, '_, '_, A>,
    widths: &[Widths],
) -> Result<Vec<&'t [u8], A>, AllocError>
    ensures { IfOk result
        (λ v. bytes_of v.items ≡ spec.wide_words (word_at request.now.words.now) widths.now) }
{
    let mut words = Vec::new(alloc);
    for (index, one) in widths.iter().enumerate() {
        if one.segments {
            words.push(request.word(index))?;
        }
    }
    Ok(words)
}

/// Warns of each of these words.
fn push_told<A: Allocator + Copy>(told: &[&[u8]], lines: &mut Vec<u8, A>) -> Result<(), AllocError>
    ensures { OnOk result (lines.new.items ≡ lines.old.items ++ flat_map (λ w. wide_line w.now) told.now) }
{
    for word in told {
        push_wide_line(lines, word)?;
    }
    Ok(())
}

/// Warns of each module that has such a segment, unless the job is to be quiet.
pub(crate) fn warn_of_wide_segments<A: Allocator + Copy>(
    alloc: A,
    request: &LinkRequest<'_, '_, '_, '_, A>,
    widths: &[Widths],
    lines: &mut Vec<u8, A>,
) -> Result<(), AllocError>
    ensures { OnOk result (lines.new.items ≡ lines.old.items
        ++ spec.wide_warnings request.now.job.now (word_at request.now.words.now) widths.now) }
{
    if request.job.quiet {
        return Ok(());
    }
    let words = wide_words(alloc, request, widths)?;
    let words = words.as_slice();
    let told = told_count(words.len(), request.job.verbose);
    push_told(&words[..told], lines)?;
    push_rest(lines, words.len() - told)
}
