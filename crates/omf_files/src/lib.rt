//! The files that a job names, read and written in the surroundings of the program.
#![tactic(auto)]

mod files;
mod host;
mod streams;
mod world;

pub use files::{BufferedSink, CreatedFile, FileSource, Keep, Stage, open_source, open_sources};
pub use host::NewFile;
pub use streams::{StreamInput, StreamOutput, Streams};
pub use world::{FileId, Looked, PlaceKind, World};
