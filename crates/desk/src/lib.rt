//! A world in memory, for tests.
#![tactic(auto)]

ghost use Rattle.std.specs.Prelude.{◌≤◌, IfOk, length};

use omf_files::{FileId, Looked, PlaceKind, World};
use std::alloc::{AllocError, Global};
use std::cell::{Cell, RefCell};
use std::io::{self, ErrorKind, Read, Write};

/// What is written to a file or a stream, which takes so many bytes and then fails.
#[derive(Drop)]
pub struct Page<'a> {
    path: &'a str,
    room: Cell<usize>,
    bytes: RefCell<Vec<u8>>,
    // what is written beside it
    draft: RefCell<Vec<u8>>,
    stays: Cell<bool>,
}

impl<'a> Page<'a> {
    /// One that has these bytes to begin with.
    pub fn new(
        alloc: Global,
        path: &'a str,
        bytes: &[u8],
        room: usize,
    ) -> Result<Page<'a>, AllocError> {
        let bytes = Vec::from_slice(alloc, bytes)?;
        Ok(Page {
            path,
            room: Cell::new(room),
            bytes: RefCell::new(bytes),
            draft: RefCell::new(Vec::new(alloc)),
            stays: Cell::new(false),
        })
    }

    /// One without bytes.
    pub fn blank(alloc: Global, path: &'a str, room: usize) -> Page<'a> {
        Page {
            path,
            room: Cell::new(room),
            bytes: RefCell::new(Vec::new(alloc)),
            draft: RefCell::new(Vec::new(alloc)),
            stays: Cell::new(false),
        }
    }

    /// Lets no other file take its place from here on.
    pub fn stay(&self) {
        self.stays.set(true);
    }

    /// The bytes.
    pub fn bytes(&self, alloc: Global) -> Result<Vec<u8>, AllocError> {
        match self.bytes.try_borrow() {
            Ok(bytes) => Vec::from_slice(alloc, bytes.as_slice()),
            Err(_) => Err(AllocError),
        }
    }

    /// Puts bytes at its end, or at the end of what is written beside it, as many as there is room for.
    fn append(&self, bytes: &[u8], beside: bool) -> io::Result<usize>
        ensures { IfOk result (λ n. n ≤ length bytes.now) }
    {
        let room = self.room.get();
        let n = bytes.len().min(room);
        if n == 0 {
            return Err(io::Error::from(ErrorKind::StorageFull));
        }
        self.room.set(room - n);
        let page = if beside { &self.draft } else { &self.bytes };
        match page.try_borrow_mut() {
            Ok(mut page) => {
                page.extend_from_slice(&bytes[..n])?;
                Ok(n)
            }
            Err(_) => Err(io::Error::from(ErrorKind::Other)),
        }
    }

    /// Whether it is the file at a path.
    fn stands_at(&self, path: &str) -> bool {
        self.path.is_empty() || self.path == path
    }

    /// Takes away what was written beside it.
    fn clear(&self) {
        if let Ok(mut draft) = self.draft.try_borrow_mut() {
            draft.clear();
        }
    }

    /// Puts what was written beside it in its place.
    fn turn(&self) -> io::Result<()> {
        if self.stays.get() {
            return Err(io::Error::from(ErrorKind::ResourceBusy));
        }
        match (self.bytes.try_borrow_mut(), self.draft.try_borrow_mut()) {
            (Ok(mut page), Ok(mut draft)) => {
                page.clear();
                page.append(&mut draft)?;
                Ok(())
            }
            _ => Err(io::Error::from(ErrorKind::Other)),
        }
    }
}

/// Writes to a page.
#[derive(Drop)]
pub struct Pen<'a> {
    page: &'a Page<'a>,
    beside: bool,
}

impl<'a> Pen<'a> {
    /// One that writes at the end of the page.
    pub fn new(page: &'a Page<'a>) -> Pen<'a> {
        Pen {
            page,
            beside: false,
        }
    }
}

impl Write for Pen<'_> {
    fn write(&mut self, buf: &[u8]) -> io::Result<usize> {
        self.page.append(buf, self.beside)
    }

    fn flush(&mut self) -> io::Result<()> {
        Ok(())
    }
}

/// How many files are open, and how many were at most.
#[derive(Drop)]
pub struct Count {
    now: Cell<usize>,
    most: Cell<usize>,
}

/// What is opened: counted while it is open.
pub struct Scroll<'f, 'p> {
    /// What is left of a file; none of a folder, which can't be read.
    rest: Option<&'f [u8]>,
    count: &'p Count,
}

impl Drop for Scroll<'_, '_> {
    fn drop(self) {
        let Self { rest: _, count } = self;
        count.now.set(count.now.get().saturating_sub(1));
    }
}

impl Read for Scroll<'_, '_> {
    fn read(&mut self, buf: &mut [u8]) -> io::Result<usize> {
        let Some(left) = self.rest else {
            return Err(io::Error::from(ErrorKind::IsADirectory));
        };
        let n = buf.len().min(left.len());
        let (front, rest) = left.split_at(n);
        buf[..n].copy_from_slice(front);
        self.rest = Some(rest);
        Ok(n)
    }
}

impl Count {
    /// None is open.
    pub fn new() -> Count {
        Count {
            now: Cell::new(0),
            most: Cell::new(0),
        }
    }

    /// How many files are open.
    pub fn open(&self) -> usize {
        self.now.get()
    }

    /// How many files were open at most.
    pub fn most(&self) -> usize {
        self.most.get()
    }
}

/// Files that can be read by their paths, folders, pages that can be written, and a page that lists what was opened.
#[derive(Clone, Copy)]
pub struct Desk<'f, 'p> {
    /// The files that can be read.
    pub files: &'f [(&'f str, &'f [u8])],
    /// The folders.
    pub folders: &'f [&'f str],
    /// Devices, which are no regular files and hold no byte.
    pub devices: &'f [&'f str],
    /// Files that can't be opened, though they are there.
    pub locked: &'f [&'f str],
    /// Other paths, each with that of the file that it leads to.
    pub links: &'f [(&'f str, &'f str)],
    /// A file that can be written; one without a path is any.
    pub out: &'p Page<'p>,
    /// Another one.
    pub map: &'p Page<'p>,
    /// The paths that were opened or tried, each ended by a space.
    pub opened: &'p Page<'p>,
    /// How many files are open.
    pub count: &'p Count,
}

/// Where a path stands among some.
fn place_of(paths: &[&str], path: &str) -> Option<usize> {
    paths.iter().position(|each| *each == path)
}

/// What stands at a path, where it is of this kind and the one at this place among those.
fn looked(kind: PlaceKind, device: u64, place: usize) -> Looked {
    let number = place as u64;
    Looked {
        kind,
        id: FileId { device, number },
    }
}

impl<'f, 'p> Desk<'f, 'p> {
    /// Opens a file of which this is left, or a folder.
    fn scroll(&self, rest: Option<&'f [u8]>) -> Scroll<'f, 'p> {
        let now = self.count.now.get().saturating_add(1);
        self.count.now.set(now);
        self.count.most.set(now.max(self.count.most.get()));
        Scroll {
            rest,
            count: self.count,
        }
    }

    /// The path of the file to which a path leads.
    fn target<'a>(&self, path: &'a str) -> &'a str
    where
        'f: 'a,
    {
        for (link, target) in self.links {
            if *link == path {
                return target;
            }
        }
        path
    }

    /// The page at a path.
    fn page(&self, path: &str) -> Option<&'p Page<'p>> {
        let target = self.target(path);
        if self.out.stands_at(target) {
            Some(self.out)
        } else if self.map.stands_at(target) {
            Some(self.map)
        } else {
            None
        }
    }

    /// What can be read at a path: the bytes of a file, or none of a folder.
    fn contents(&self, path: &str) -> io::Result<Option<&'f [u8]>> {
        let target = self.target(path);
        if place_of(self.locked, target).is_some() {
            return Err(io::Error::from(ErrorKind::PermissionDenied));
        }
        for (name, bytes) in self.files {
            if *name == target {
                return Ok(Some(*bytes));
            }
        }
        if place_of(self.devices, target).is_some() {
            return Ok(Some(&[]));
        }
        match place_of(self.folders, target) {
            Some(_) => Ok(None),
            None => Err(io::Error::from(ErrorKind::NotFound)),
        }
    }
}

impl<'f, 'p> World for Desk<'f, 'p> {
    type Input = Scroll<'f, 'p>;

    type Created = Pen<'p>;

    fn open(&self, path: &str) -> io::Result<Scroll<'f, 'p>> {
        for text in [path, " "] {
            // a full page lists no more
            let _ = self.opened.append(text.as_bytes(), false);
        }
        let rest = self.contents(path)?;
        Ok(self.scroll(rest))
    }

    fn look(&self, path: &str) -> io::Result<Looked> {
        let target = self.target(path);
        if let Some(place) = self.files.iter().position(|(name, _)| *name == target) {
            return Ok(looked(PlaceKind::Regular, 1, place));
        }
        if let Some(place) = place_of(self.folders, target) {
            return Ok(looked(PlaceKind::Folder, 2, place));
        }
        if let Some(place) = place_of(self.devices, target) {
            return Ok(looked(PlaceKind::Other, 3, place));
        }
        if let Some(place) = place_of(self.locked, target) {
            return Ok(looked(PlaceKind::Regular, 4, place));
        }
        Err(io::Error::from(ErrorKind::NotFound))
    }

    fn create(&self, path: &str) -> io::Result<Pen<'p>> {
        match self.page(path) {
            Some(page) => {
                page.clear();
                Ok(Pen { page, beside: true })
            }
            None => Err(io::Error::from(ErrorKind::NotFound)),
        }
    }

    fn keep(&self, file: Pen<'p>, _path: &str) -> io::Result<()> {
        file.page.turn()
    }
}
