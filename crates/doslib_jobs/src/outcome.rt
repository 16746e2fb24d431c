//! What a job comes to.

ghost use Rattle.std.specs.Prelude.{◌≡◌, ◌++◌, [], OnOk, max};
ghost use Rattle.doslib_jobs.specs.Reading.{faults_status, unread_line};

use crate::reading::push_unread;
use doslink_files::ReadFault;
use std::alloc::{AllocError, Allocator};

/// The exit status where a file is at fault.
pub(crate) const AT_FAULT: u8 = 1;

/// The exit status of wrong words.
pub(crate) const WRONG_WORDS: u8 = 2;

/// The exit status where a device or memory failed.
pub(crate) const FAILED: u8 = 3;

/// What a job came to.
#[derive(Drop)]
pub struct Outcome<A: Allocator> {
    /// A line for each fault.
    pub(crate) lines: Vec<u8, A>,
    /// 0; 1 where a file is at fault, 2 where the words are wrong, and 3 where a file can't be read.
    pub(crate) status: u8,
}

impl<A: Allocator + Copy> Outcome<A> {
    /// No file was at fault.
    pub(crate) fn new(alloc: A) -> Outcome<A>
        ensures lines { result.lines.items ≡ [] }
        ensures status { result.status ≡ 0 }
    {
        Outcome {
            lines: Vec::new(alloc),
            status: 0,
        }
    }

    /// Gives it a status, where it has none that is greater.
    pub(crate) fn raise(&mut self, status: u8)
        ensures lines { self.new.lines.items ≡ self.old.lines.items }
        ensures status { self.new.status ≡ max self.old.status status }
    {
        if self.status < status {
            self.status = status;
        }
    }

    /// Adds the lines of the faults of a file.
    pub(crate) fn add_faults(&mut self, faults: &[u8]) -> Result<(), AllocError>
        ensures lines { OnOk result (self.new.lines.items ≡ self.old.lines.items ++ faults.now) }
        ensures status { OnOk result (self.new.status ≡ max self.old.status (faults_status faults.now)) }
    {
        self.lines.extend_from_slice(faults)?;
        if !faults.is_empty() {
            self.raise(AT_FAULT);
        }
        Ok(())
    }

    /// Adds that a file at a path isn't read, and why.
    pub(crate) fn add_unread(&mut self, path: &str, fault: ReadFault) -> Result<(), AllocError>
        ensures lines { OnOk result (self.new.lines.items ≡ self.old.lines.items ++ unread_line path.now fault) }
        ensures status { OnOk result (self.new.status ≡ max self.old.status 3) }
    {
        push_unread(&mut self.lines, path, fault)?;
        self.raise(FAILED);
        Ok(())
    }
}
