//! The types of records that TIS OMF 1.1 lists and the classes of comments, each by its number and what it is called.
#![tactic(auto)]

mod types;

pub use types::{CommentClass, RecordType, comment_class, record_name, record_type};
