//! What is to be linked, and how.
ghost use Rattle.std.specs.Prelude.{◌≡◌, [], slice_get, unwrap_or};
ghost use Rattle.doslink_telling.specs.Words.{word_at};
ghost use Rattle.doslink_passes.specs.Request as spec;
ghost use Rattle.doslink_passes.specs.Request.{given_of, names_of};

use doslink_stock::Handed;
use doslink_words::Job;
use omf_place::Names;
use omf_search::Said;
use std::alloc::Allocator;

/// Which names agree in a job.
pub fn names_of(job: &Job<'_>) -> Names
    ensures { result ≡ spec.names_of job.now.ignore_case }
{
    if job.ignore_case {
        Names::AsciiFolded
    } else {
        Names::Exact
    }
}

/// The modules that a link takes, and the job that they are linked for.
#[derive(Clone, Copy)]
pub struct LinkRequest<'t, 'j, 'm, 'a, A: Allocator + Copy> {
    pub job: &'t Job<'j>,
    /// The modules, in their order.
    pub handed: &'t [Handed<'m, 'a, A>],
    /// For each the word for it in a line: its file's path, and the member's name in parentheses.
    pub words: &'t [Vec<u8, A>],
    /// What each says of names.
    pub says: &'t [Said<'m, 'a>],
    /// Whether marks are wanted that no module defines.
    pub marks: bool,
}

impl<'t, 'a, A: Allocator + Copy> LinkRequest<'t, '_, '_, 'a, A> {
    /// Which names agree.
    pub fn names(&self) -> Names
        ensures { result ≡ spec.names_of self.now.job.now.ignore_case }
    {
        names_of(self.job)
    }

    /// The word for the module with this index; empty behind the last.
    pub fn word(&self, index: usize) -> &'t [u8]
        ensures { result.now ≡ word_at self.now.words.now index }
    {
        match self.words.get(index) {
            Some(word) => word.as_slice(),
            None => b"",
        }
    }

    /// The module with this index, as it is given; no bytes behind the last.
    pub(crate) fn given(&self, index: usize) -> GivenModule<'t, 'a>
        ensures { result.bytes.now ≡ unwrap_or (slice_get (given_of self.now) index) [] }
    {
        let bytes = match self.handed.get(index) {
            Some(each) => each.entry.bytes,
            None => b"",
        };
        let word = self.word(index);
        GivenModule { bytes, word }
    }

    /// The words from that for the module with this index on; none behind the last.
    pub fn words_from(&self, index: usize) -> &'t [Vec<u8, A>] {
        &self.words[index.min(self.words.len())..]
    }
}

/// A module as it is given, and the word for it in a line.
#[derive(Clone, Copy)]
pub struct GivenModule<'w, 'a> {
    pub bytes: &'a [u8],
    pub word: &'w [u8],
}
