//! What a comment says, by its class.
#![tactic(auto, unfolding(crate::specs::CommentView::comment_view))]

ghost use Rattle.std.specs.Prelude.{◌≡◌, ◌≤◌, ◌⊎◌, ◌||◌, ◌==◌, ℕ, List, IfOk, IsTrue, Some};
ghost use Rattle.omf_comments.specs.CommentView.{TellsComment};
ghost use Rattle.omf_comments.specs.Comments.{is_text_class, is_bare_class};
ghost use Rattle.omf_comments.specs.declared.comments.WeakExternal.{WeakExternal};
ghost use Rattle.omf_comments.specs.inside.Comments as fields;

use crate::extensions::{Extension, extension_of};
use crate::finding::{find_text, split};
use omf_codec::codec::{Made, Of};
use omf_codec::primitives::{Index, Name, Word};
use omf_codec::whole::ToEnd;
use std::alloc::{AllocError, Allocator, Global};

/// An external, by its index, that is another one where no module defines it.
#[derive(Clone, Copy, Debug, PartialEq, Eq)]
pub struct WeakExternal {
    pub external: u16,
    /// The index of the other one.
    pub default: u16,
}

impl Made<(Index, Index)> for WeakExternal {
    type Item = WeakExternal;

    ghost Value = { WeakExternal };

    ghost format = { λ _. fields.weak };

    ghost is_made = { λ _. fields.weak_made };

    fn make(_number: u64, (external, default): (u16, u16)) -> WeakExternal {
        WeakExternal { external, default }
    }

    fn parts(item: &WeakExternal) -> (u16, u16) {
        (item.external, item.default)
    }
}

/// What a comment says. Names and texts are slices of its bytes.
#[derive(Drop)]
#[derive_where(Debug)]
pub enum Comment<'a, A: Allocator + Copy = Global> {
    /// 00 translator, 01 copyright, 81H and 9FH default library, 9CH version of DOS, 9DH memory model, A4H EXESTR, DAH
    /// comment, DBH compiler, DCH date, DDH time stamp, DFH user, FFH command line: a text.
    Text {
        class: u8,
        text: &'a [u8],
    },
    /// 9EH DOSSEG, A6H INCERR: the class alone.
    Bare {
        class: u8,
    },
    /// A0H, an extension of the format.
    Extension {
        extension: Extension<'a>,
    },
    /// A1H, the form of the debug information.
    DebugStyle {
        version: u8,
        style: &'a [u8],
    },
    /// A2H, the linker's first pass needs nothing of what stands behind it.
    PassSeparator,
    /// A3H LIBMOD, the module's name in its library.
    Libmod {
        name: &'a [u8],
    },
    /// A7H NOPAD, segments behind which nothing is padded, by their indexes.
    Nopad {
        segments: Vec<u16, A>,
    },
    /// A8H WKEXT, externals for which no library is searched.
    Wkext {
        externals: Vec<WeakExternal, A>,
    },
    /// A9H LZEXT, externals for which libraries are searched only where another module uses them.
    Lzext {
        externals: Vec<WeakExternal, A>,
    },
    /// E9H, a file that the module is made of, with its time and its date as DOS has them.
    Dependency {
        time: u16,
        date: u16,
        name: &'a [u8],
    },
    /// E9H, behind the last of these files.
    DependencyEnd,
}

/// What a comment's bytes say.
type Told<'a, A> = Result<Option<Comment<'a, A>>, AllocError>;

/// A class whose comments are texts.
fn is_text_class(class: u8) -> bool
    ensures { result ≡ is_text_class class }
{
    matches!(
        class,
        0x00 | 0x01 | 0x81 | 0x9C | 0x9D | 0x9F | 0xA4 | 0xDA | 0xDB | 0xDC | 0xDD | 0xDF | 0xFF
    )
}

/// A text.
fn text<'a, A: Allocator + Copy>(class: u8, bytes: &'a [u8]) -> Comment<'a, A>
    requires { IsTrue (is_text_class class) }
    ensures { TellsComment class bytes.now (Some result) }
{
    Comment::Text { class, text: bytes }
}

/// A class alone.
fn bare<'a, A: Allocator + Copy>(class: u8, bytes: &'a [u8]) -> Option<Comment<'a, A>>
    requires { IsTrue (is_bare_class class) }
    ensures { TellsComment class bytes.now result }
{
    match bytes {
        [] => Some(Comment::Bare { class }),
        _ => None,
    }
}

/// An extension of the format.
#[tactic(auto, unfolding(crate::specs::CommentView::comment_view), using(crate::proofs::Told::extension_text, crate::proofs::Told::none_extended, crate::proofs::Told::none_extended_empty))]
fn extended<'a, A: Allocator + Copy>(alloc: A, bytes: &'a [u8]) -> Told<'a, A>
    ensures { IfOk result (TellsComment 0xA0 bytes.now) }
{
    match split(bytes) {
        Some((number, rest)) => match extension_of(alloc, number, rest)? {
            Some(extension) => Ok(Some(Comment::Extension { extension })),
            None => Ok(None),
        },
        None => Ok(None),
    }
}

/// The form of the debug information.
#[tactic(auto, unfolding(crate::specs::CommentView::comment_view), using(crate::proofs::Told::debug_text, crate::proofs::Told::none_debug))]
fn debug_style<'a, A: Allocator + Copy>(bytes: &'a [u8]) -> Option<Comment<'a, A>>
    ensures { TellsComment 0xA1 bytes.now result }
{
    match split(bytes) {
        Some((version, style)) => Some(Comment::DebugStyle { version, style }),
        None => None,
    }
}

/// The end of what the first pass needs.
fn pass_separator<'a, A: Allocator + Copy>(bytes: &'a [u8]) -> Option<Comment<'a, A>>
    ensures { TellsComment 0xA2 bytes.now result }
{
    match bytes {
        [1] => Some(Comment::PassSeparator),
        _ => None,
    }
}

/// The module's name in its library.
fn libmod<'a, A: Allocator + Copy>(alloc: A, bytes: &'a [u8]) -> Told<'a, A>
    ensures { IfOk result (TellsComment 0xA3 bytes.now) }
{
    match find_text::<A, Name<'a>>(alloc, bytes)? {
        Some(name) => Ok(Some(Comment::Libmod { name })),
        None => Ok(None),
    }
}

/// Segments behind which nothing is padded.
fn nopad<'a, A: Allocator + Copy + 'a>(alloc: A, bytes: &'a [u8]) -> Told<'a, A>
    ensures { IfOk result (TellsComment 0xA7 bytes.now) }
{
    match find_text::<A, ToEnd<A, Index>>(alloc, bytes)? {
        Some(segments) => Ok(Some(Comment::Nopad { segments })),
        None => Ok(None),
    }
}

/// Weak externals.
fn wkext<'a, A: Allocator + Copy + 'a>(alloc: A, bytes: &'a [u8]) -> Told<'a, A>
    ensures { IfOk result (TellsComment 0xA8 bytes.now) }
{
    match find_text::<A, ToEnd<A, Of<(Index, Index), WeakExternal>>>(alloc, bytes)? {
        Some(externals) => Ok(Some(Comment::Wkext { externals })),
        None => Ok(None),
    }
}

/// Lazy externals.
fn lzext<'a, A: Allocator + Copy + 'a>(alloc: A, bytes: &'a [u8]) -> Told<'a, A>
    ensures { IfOk result (TellsComment 0xA9 bytes.now) }
{
    match find_text::<A, ToEnd<A, Of<(Index, Index), WeakExternal>>>(alloc, bytes)? {
        Some(externals) => Ok(Some(Comment::Lzext { externals })),
        None => Ok(None),
    }
}

/// A file that the module is made of, or that there is none any more.
#[tactic(auto, unfolding(crate::specs::CommentView::comment_view), using(crate::proofs::Told::none_dependency))]
fn dependency<'a, A: Allocator + Copy>(alloc: A, bytes: &'a [u8]) -> Told<'a, A>
    ensures { IfOk result (TellsComment 0xE9 bytes.now) }
{
    if bytes.is_empty() {
        return Ok(Some(Comment::DependencyEnd));
    }
    match find_text::<A, (Word, (Word, Name<'a>))>(alloc, bytes)? {
        Some((time, (date, name))) => Ok(Some(Comment::Dependency { time, date, name })),
        None => Ok(None),
    }
}

/// What the bytes behind the class of a comment say, as far as that is fixed: none, where they say nothing of the
/// class, or nothing is known of it. An error where the lists find no memory.
pub fn parse_comment<'a, A: Allocator + Copy + 'a>(
    alloc: A,
    class: u8,
    bytes: &'a [u8],
) -> Result<Option<Comment<'a, A>>, AllocError>
    ensures { IfOk result (TellsComment class bytes.now) }
{
    match class {
        0x9E | 0xA6 => Ok(bare(class, bytes)),
        0xA0 => extended(alloc, bytes),
        0xA1 => Ok(debug_style(bytes)),
        0xA2 => Ok(pass_separator(bytes)),
        0xA3 => libmod(alloc, bytes),
        0xA7 => nopad(alloc, bytes),
        0xA8 => wkext(alloc, bytes),
        0xA9 => lzext(alloc, bytes),
        0xE9 => dependency(alloc, bytes),
        _ => {
            if is_text_class(class) {
                Ok(Some(text(class, bytes)))
            } else {
                Ok(None)
            }
        }
    }
}
