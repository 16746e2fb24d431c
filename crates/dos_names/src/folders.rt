//! The names of the folders that were looked into, each read once.

use crate::choice::{Choice, choice_of};
use omf_files::{FileId, Streams, World};
use std::alloc::{AllocError, Global};
use std::collections::BTreeMap;
use std::fs;
use std::io::{self, ErrorKind};

/// The names of a folder by what they are in small letters: of those that are the same, the first two.
#[derive(Drop)]
pub(crate) struct Listing {
    alike: BTreeMap<String, Vec<String>>,
    /// Whether the system tells what stands in the folder.
    is_told: bool,
}

/// A name in small letters.
fn in_small_letters(alloc: Global, name: &str) -> Result<String, AllocError> {
    let mut small = String::from_str(alloc, name)?;
    small.make_ascii_lowercase();
    Ok(small)
}

impl Listing {
    /// Adds a name, where fewer than two that are the same are there.
    fn add(&mut self, alloc: Global, name: &str) -> Result<(), AllocError> {
        let small = in_small_letters(alloc, name)?;
        let alike = self.alike.entry(small)?.or_insert(Vec::new(alloc));
        if alike.len() < 2 {
            alike.push(String::from_str(alloc, name)?)?;
        }
        Ok(())
    }

    /// The names of what stands in a folder, but for those that are no text.
    fn read(rt: &HostRuntime, folder: &str) -> io::Result<Listing> {
        let mut listing = Listing {
            alike: BTreeMap::new(rt.alloc()),
            is_told: true,
        };
        for entry in fs::read_dir(rt, folder)? {
            match entry {
                Ok(entry) => listing.add(rt.alloc(), entry.file_name())?,
                Err(error) if error.kind() == ErrorKind::InvalidFilename => {}
                Err(error) => return Err(error),
            }
        }
        Ok(listing)
    }

    /// The same, and no name where they can't be told.
    fn told(rt: &HostRuntime, folder: &str) -> io::Result<Listing> {
        match Listing::read(rt, folder) {
            Err(error) if error.kind() != ErrorKind::OutOfMemory => Ok(Listing {
                alike: BTreeMap::new(rt.alloc()),
                is_told: false,
            }),
            told => told,
        }
    }

    /// Whether none of the names is the same as one that is wanted, where the system tells them.
    pub(crate) fn lacks(&self, alloc: Global, wanted: &str) -> Result<bool, AllocError> {
        let choice = self.choice(alloc, wanted)?;
        Ok(self.is_told && choice == Choice::Nothing)
    }

    /// Which of the names are the same as one that is wanted.
    pub(crate) fn choice(&self, alloc: Global, wanted: &str) -> Result<Choice<'_>, AllocError> {
        let small = in_small_letters(alloc, wanted)?;
        let Some(alike) = self.alike.get(small.as_str()) else {
            return Ok(Choice::Nothing);
        };
        let names = alike
            .iter()
            .map(|name| name.as_str())
            .collect::<Vec<&str>>(alloc)?;
        Ok(choice_of(wanted, &names))
    }
}

/// The names of folders, by what these are: one folder is read once, however its path is spelled.
#[derive(Drop)]
pub(crate) struct Folders {
    listings: BTreeMap<FileId, Listing>,
}

impl Folders {
    /// No folder was looked into.
    pub(crate) fn new(alloc: Global) -> Folders {
        Folders {
            listings: BTreeMap::new(alloc),
        }
    }

    /// The names of what stands in a folder whose path has `/` at its end, or which is this one, where the path is
    /// empty. None where they can't be told.
    pub(crate) fn names_in(
        &mut self,
        rt: &HostRuntime,
        folder: &str,
    ) -> io::Result<Option<&Listing>> {
        let path = if folder.is_empty() { "." } else { folder };
        match Streams::of(rt).look(path) {
            Ok(found) => {
                let listing = self
                    .listings
                    .entry(found.id)?
                    .or_try_insert_with(|| Listing::told(rt, path))?;
                Ok(Some(listing))
            }
            Err(error) if error.kind() != ErrorKind::OutOfMemory => Ok(None),
            Err(error) => Err(error),
        }
    }
}
