//! The bodies of object module records (TIS OMF 1.1): what each says, its canonical body, and repeated data.
#![tactic(auto)]

mod blocks;
mod bodies;
mod content;
mod encode;
mod expand;
pub mod externals;
mod fault;
pub mod fixups;
mod grammar;
mod parse;
mod record;
mod repeated;
pub mod segments;

pub use blocks::Block;
pub use content::place_in_content;
pub use encode::{encode_record, fits_frame};
pub use expand::expand_into;
pub use externals::{External, Line, Public, PublicBase};
pub use fault::NoRecord;
pub use fixups::{
    Datum, Fixup, FrameMethod, Location, Reference, Subrecord, TargetMethod, ThreadNumber,
    location_number, thread_number,
};
pub use grammar::{canonical_shortest, encoded_is_read, one_value};
pub use parse::{RecordFault, parse_record};
pub use record::Record;
pub use repeated::expanded_len;
pub use segments::{
    Alignment, Combination, SegmentDefinition, SegmentLength, alignment_number, combination_number,
};
