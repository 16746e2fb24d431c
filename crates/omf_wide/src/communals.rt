//! The entries of COMDEF and LCOMDEF: communal variables.

ghost use Rattle.std.specs.Prelude.{◌≡◌, ◌≤◌, ◌↔◌, ℕ, List, Option, IsTrue, IfOk};
ghost use Rattle.omf_wide.specs.Communals as says;
ghost use Rattle.omf_wide.specs.Communals.{FrontsCommunal};
ghost use Rattle.omf_wide.specs.declared.communals.Extent.{Extent};
ghost use Rattle.omf_wide.specs.inside.Communals as comms;

use omf_codec::choice::{Then, When};
use omf_codec::codec::{Blank, Codec, Field, Free, Made, Of, Read, ReadError};
use omf_codec::numbers::DoubleWord;
use omf_codec::output::{Output, Written};
use omf_codec::primitives::{Byte, First, Head, Index, Name, Word, ZeroHead};
use std::alloc::{AllocError, Allocator};

/// How far a communal variable lies, and how long it is.
#[derive(Clone, Copy, Debug, PartialEq, Eq)]
pub enum Extent {
    /// 62H, near: so many bytes.
    Near { length: u32 },
    /// 61H, far: so many elements, each of `size` bytes.
    Far { elements: u32, size: u32 },
    /// Another data type. What stands behind it isn't known.
    Other { data_type: u8 },
}

/// An entry of COMDEF or LCOMDEF.
#[derive(Clone, Copy, Debug)]
pub struct Communal<'a> {
    pub name: &'a [u8],
    pub type_index: u16,
    pub extent: Extent,
}

/// The first byte of a number, and the bytes that it says stand behind it.
type CountParts = Then<First<Count>, CountTailParts>;

/// Two bytes, three or four.
type CountTailParts = (
    When<1, 256, 0x81, Word>,
    (
        When<1, 256, 0x84, (Byte, Word)>,
        When<1, 256, 0x88, DoubleWord>,
    ),
);

/// The same as values.
type CountTail = (Option<u16>, (Option<(u8, u16)>, Option<u32>));

/// A number of one byte, two, three or four: a length, or how many elements there are.
pub struct Count;

impl Head for Count {
    ghost Begins = { comms.IsCount };

    fn begins(byte: u8) -> bool {
        byte <= 0x81 || byte == 0x84 || byte == 0x88
    }
}

impl ZeroHead for Count {
    ghost zero = { comms.count_zero };
}

impl Made<CountParts> for Count {
    type Item = u32;

    ghost Value = { ℕ };

    ghost format = { λ _. comms.count };

    ghost is_made = { λ _. comms.count_made };

    fn make(_number: u64, parts: (u64, CountTail)) -> u32 {
        count_of(parts.0, parts.1)
    }

    fn parts(item: &u32) -> (u64, CountTail) {
        count_parts(*item)
    }
}

/// The number that its first byte and what stands behind it say.
fn count_of(byte: u64, tail: CountTail) -> u32
    ensures { result ≡ comms.count_of byte tail }
{
    match tail {
        (Some(two), _) => u32::from(two),
        (None, (Some((low, high)), _)) => u32::from(low) + 256 * u32::from(high),
        (None, (None, Some(four))) => four,
        (None, (None, None)) => (byte % 256) as u32,
    }
}

/// The first byte of the shortest spelling of a number, and what stands behind it.
fn count_parts(number: u32) -> (u64, CountTail)
    ensures { result ≡ (comms.count_head number, comms.count_tail number) }
{
    if number < 129 {
        (u64::from(number), (None, (None, None)))
    } else if number < 65_536 {
        (0x81, (Some(number as u16), (None, None)))
    } else if number < 16_777_216 {
        (
            0x84,
            (
                None,
                (Some(((number % 256) as u8, (number / 256) as u16)), None),
            ),
        )
    } else {
        (0x88, (None, (None, Some(number))))
    }
}

/// A number as a field of others.
pub struct CountField;

impl Codec for CountField {
    type Item = u32;

    ghost Value = { ℕ };

    ghost format = { λ _. comms.count };

    ghost lawful = { λ _. comms.count_lawful };

    fn put<O: Output>(item: &u32, number: u64, out: &mut O) -> Written {
        <Of<CountParts, Count> as Codec>::put(item, number, out)
    }
}

impl<'a, A: Allocator + Copy> Field<'a, A> for CountField {
    fn read(alloc: A, number: u64, bytes: &'a [u8]) -> Read<'a, u32> {
        <Of<CountParts, Count> as Field<'a, A>>::read(alloc, number, bytes)
    }
}

impl Free for CountField {
    ghost free = { λ _ _. tt };
}

impl Blank for CountField {
    ghost blank = { λ _. comms.count_blank };
}

/// A data type, and the numbers that it says stand behind it.
type ExtentParts = Then<
    First<Extent>,
    (
        When<1, 256, 0x61, (CountField, CountField)>,
        When<1, 256, 0x62, CountField>,
    ),
>;

/// The numbers as values: how many elements and the size of one, or the length.
type ExtentTail = (Option<(u32, u32)>, Option<u32>);

impl Head for Extent {
    ghost Begins = { comms.IsDataType };

    fn begins(_byte: u8) -> bool {
        true
    }
}

impl ZeroHead for Extent {
    ghost zero = { comms.data_type_zero };
}

impl Made<ExtentParts> for Extent {
    type Item = Extent;

    ghost Value = { Extent };

    ghost format = { λ _. comms.extent };

    ghost is_made = { λ _. comms.extent_made };

    fn make(_number: u64, parts: (u64, ExtentTail)) -> Extent {
        extent_of(parts.0, parts.1)
    }

    fn parts(item: &Extent) -> (u64, ExtentTail) {
        extent_parts(*item)
    }
}

/// What a data type and the numbers behind it say.
fn extent_of(byte: u64, tail: ExtentTail) -> Extent
    ensures { result ≡ comms.extent_of byte tail }
{
    match tail {
        (Some((elements, size)), _) => Extent::Far { elements, size },
        (None, Some(length)) => Extent::Near { length },
        (None, None) => Extent::Other {
            data_type: (byte % 256) as u8,
        },
    }
}

/// The byte of a data type, and the numbers behind it. One that begins nothing, where the type has numbers.
fn extent_parts(extent: Extent) -> (u64, ExtentTail)
    ensures { result ≡ (comms.extent_head extent, comms.extent_tail extent) }
{
    match extent {
        Extent::Near { length } => (0x62, (None, Some(length))),
        Extent::Far { elements, size } => (0x61, (Some((elements, size)), None)),
        Extent::Other {
            data_type: 0x61 | 0x62,
        } => (256, (None, None)),
        Extent::Other { data_type } => (u64::from(data_type), (None, None)),
    }
}

/// A data type with its numbers as a field of others.
pub struct ExtentField;

impl Codec for ExtentField {
    type Item = Extent;

    ghost Value = { Extent };

    ghost format = { λ _. comms.extent };

    ghost lawful = { λ _. comms.extent_lawful };

    fn put<O: Output>(item: &Extent, number: u64, out: &mut O) -> Written {
        <Of<ExtentParts, Extent> as Codec>::put(item, number, out)
    }
}

impl<'a, A: Allocator + Copy> Field<'a, A> for ExtentField {
    fn read(alloc: A, number: u64, bytes: &'a [u8]) -> Read<'a, Extent> {
        <Of<ExtentParts, Extent> as Field<'a, A>>::read(alloc, number, bytes)
    }
}

impl Free for ExtentField {
    ghost free = { λ _ _. tt };
}

impl Blank for ExtentField {
    ghost blank = { λ _. comms.extent_blank };
}

impl<'a> Made<(Name<'a>, (Index, ExtentField))> for Communal<'a> {
    type Item = Communal<'a>;

    ghost Value = { says.Communal };

    ghost format = { λ _. comms.communal };

    ghost is_made = { λ _. comms.communal_made };

    fn make(_number: u64, (name, (type_index, extent)): (&'a [u8], (u16, Extent))) -> Communal<'a> {
        Communal {
            name,
            type_index,
            extent,
        }
    }

    fn parts(item: &Communal<'a>) -> (&'a [u8], (u16, Extent)) {
        (item.name, (item.type_index, item.extent))
    }
}

/// The entry of COMDEF or LCOMDEF at the front of the bytes, and the bytes behind it. None where they end inside it, or
/// a number begins with another byte than 0 to 80H, 81H, 84H or 88H.
pub fn read_communal<'a, A: Allocator + Copy>(
    alloc: A,
    bytes: &'a [u8],
) -> Result<Option<(Communal<'a>, &'a [u8])>, AllocError>
    ensures { IfOk result (FrontsCommunal bytes.now) }
{
    match <Of<(Name<'a>, (Index, ExtentField)), Communal<'a>> as Field<'a, A>>::read(
        alloc, 0, bytes,
    ) {
        Ok(read) => Ok(Some(read)),
        Err(ReadError::Refused(_)) => Ok(None),
        Err(ReadError::Memory) => Err(AllocError),
    }
}
