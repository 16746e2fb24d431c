//! What `show` prints of a file.

ghost use Rattle.std.specs.Prelude.{◌≡◌, ◌++◌, IfOk, OnOk, map};
ghost use Rattle.omf_frame.specs.Lending.{plain_frame};
ghost use Rattle.omf_library.specs.Members.{plain_member};
ghost use Rattle.doslib_text.specs.Faults.{place_behind};
ghost use Rattle.doslib_show.specs.Show as spec;
ghost use Rattle.doslib_show.specs.inside.Adding.{AddsMember, AddsRead, AddsReads};
ghost use Rattle.doslib_show.specs.inside.Meaning.{meaning_view};

use crate::meaning::{Meaning, meaning_of};
use crate::names::Names;
use crate::said::push_meaning;
use crate::types::push_type;
use doslib_text::{push_located, push_member_line, push_title};
use omf_frame::Frame;
use omf_library::{FileKind, Member, module_frames};
use omf_text::{Piece, push_pieces};
use omf_types::{RecordType, record_type};
use std::alloc::{AllocError, Allocator};

/// What is printed of a file.
#[derive(Drop)]
pub struct Shown<A: Allocator> {
    /// Its heading, and that of each member with its records.
    pub text: Vec<u8, A>,
    /// A line for each record whose body is none of its type.
    pub faults: Vec<u8, A>,
}

/// Appends the place of a record in the file, and its type.
fn push_head<A: Allocator + Copy>(
    lines: &mut Vec<u8, A>,
    place: u64,
    kind: u8,
    record_type: Option<RecordType>,
) -> Result<(), AllocError>
    ensures { OnOk result (lines.new.items ≡ lines.old.items ++ spec.head_text place kind record_type) }
{
    let pieces = [
        Piece::Text("    "),
        Piece::FilePlace(place),
        Piece::Text(" "),
    ];
    push_pieces(lines, pieces.as_slice())?;
    push_type(lines, kind, record_type)
}

/// The place in the file of a record of a module that begins at another one.
fn place_in_file(begin: usize, frame: &Frame<'_>) -> usize
    ensures { result ≡ place_behind begin frame.now.place }
{
    begin.saturating_add(frame.place as usize)
}

/// Appends the line of the fault of a record of such a module, where its body is none of its type.
fn push_wrong_line<A: Allocator + Copy>(
    lines: &mut Vec<u8, A>,
    path: &str,
    begin: usize,
    frame: &Frame<'_>,
    meaning: &Meaning<'_, A>,
) -> Result<(), AllocError>
    ensures { OnOk result (lines.new.items ≡ lines.old.items
        ++ spec.wrong_line path.now begin (plain_frame frame.now) (meaning_view meaning.now)) }
{
    match meaning {
        Meaning::Wrong { .. } => push_located(
            lines,
            path,
            (6, "Body"),
            place_in_file(begin, frame),
        ),
        Meaning::Says(_) | Meaning::SaysMore(_) | Meaning::Comments { .. } | Meaning::Unknown => Ok(
            (),
        ),
    }
}

impl<A: Allocator + Copy> Shown<A> {
    /// Adds a record of a module that begins at a place of the file.
    fn add_record<'a>(
        &mut self,
        path: &str,
        begin: usize,
        frame: &Frame<'a>,
        names: &mut Names<'a, A>,
    ) -> Result<(), AllocError>
    where
        A: 'a,
        ensures { OnOk result (AddsRead path.now begin (plain_frame frame.now) names.old names.new self.old self.new) }
    {
        let known = record_type(frame.kind);
        let meaning = meaning_of(*self.text.allocator(), frame)?;
        let place = place_in_file(begin, frame);
        push_head(&mut self.text, place as u64, frame.kind, known)?;
        push_meaning(names, &mut self.text, frame.body, &meaning)?;
        push_wrong_line(&mut self.faults, path, begin, frame, &meaning)?;
        names.follow(&meaning)
    }

    /// Adds the records of such a module.
    fn add_records<'a>(
        &mut self,
        path: &str,
        begin: usize,
        frames: &[Frame<'a>],
    ) -> Result<(), AllocError>
    where
        A: 'a,
        ensures { OnOk result (AddsReads path.now begin (map plain_frame frames.now) self.old self.new) }
    {
        let mut names = Names::new(*self.text.allocator());
        for frame in frames {
            self.add_record(path, begin, frame, &mut names)?;
        }
        Ok(())
    }

    /// Adds a member.
    fn add_member(&mut self, path: &str, member: &Member<'_>) -> Result<(), AllocError>
        ensures { OnOk result (AddsMember path.now (plain_member member.now) self.old self.new) }
    {
        push_member_line(&mut self.text, member)?;
        let frames = module_frames(*self.text.allocator(), member.bytes)?;
        self.add_records(path, member.place, &frames)
    }
}

/// What `show` prints of a file of this kind at a path, with these members: each record of theirs with its place, its
/// type, and what it says by the names that records before it have defined.
pub fn show<A: Allocator + Copy>(
    alloc: A,
    path: &str,
    kind: FileKind,
    members: &[Member<'_>],
) -> Result<Shown<A>, AllocError>
    ensures { IfOk result (λ s.
        spec.Shown kind path.now (map plain_member members.now) s.text.items s.faults.items) }
{
    let mut shown = Shown {
        text: Vec::new(alloc),
        faults: Vec::new(alloc),
    };
    push_title(&mut shown.text, kind, path, members.len())?;
    for member in members {
        shown.add_member(path, member)?;
    }
    Ok(shown)
}
