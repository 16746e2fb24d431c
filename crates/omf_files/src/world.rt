//! What the program takes of its surroundings.
ghost use Rattle.std.specs.Prelude.{◌≡◌, ℕ, List, IfOk, IfSome, OnOk, None};
ghost use Rattle.std.specs.declared.option.Option.{Option};
ghost use Rattle.std.specs.Result.{result_ok};
ghost use Rattle.omf_files.specs.declared.world.FileId as ids;
ghost use Rattle.omf_files.specs.declared.world.Looked as looking;
ghost use Rattle.omf_files.specs.declared.world.PlaceKind.TheVariants.{Regular};

use std::io::{self, Read, Write};

/// What stands at a path.
#[derive(Clone, Copy, Debug, PartialEq, Eq)]
pub enum PlaceKind {
    /// A regular file: bytes that stay.
    Regular,
    /// A folder.
    Folder,
    /// Something else, as a device or a pipe.
    Other,
}

/// Which file it is, whatever the path that led to it: two paths lead to one file where these are the same.
#[derive(Clone, Copy, Debug, PartialEq, Eq, PartialOrd, Ord, Hash)]
pub struct FileId {
    /// The number of the device that it is on.
    pub device: u64,
    /// Its number on that device.
    pub number: u64,
}

/// What stands at a path, and which file it is.
#[derive(Clone, Copy, Debug, PartialEq, Eq)]
pub struct Looked {
    /// What stands there.
    pub kind: PlaceKind,
    /// Which file it is.
    pub id: FileId,
}

/// Files by their paths. Tests have worlds of their own.
pub trait World {
    /// A file that is read.
    type Input: Read + Drop;

    /// A file that is written. Where it is dropped before it is kept, what stood at its path stays as it was.
    type Created: Write + Drop;

    // The bytes of the file at a path, where the world tells them.
    ghost bytes: { Self → List ℕ → Option (List ℕ) } = { λ _ _. None };

    // The bytes of each regular file, whatever the path that leads to it, where the world tells them.
    ghost holds: { Self → ids.FileId → Option (List ℕ) } = { λ _ _. None };

    // What stands at each path, and none where nothing does, where the world tells it.
    ghost looks: { Self → Option (List ℕ → Option looking.Looked) } = { λ _. None };

    // The bytes of a file that was just created: none, where the world tells what files that are written hold.
    ghost blank: { Self → Option (List ℕ) } = { λ _. None };

    // A file that holds these bytes was put at the path.
    ghost Puts: { Self → List ℕ → List ℕ → Type 0 } = { λ _ _ _. Unit {0} };

    /// The file at the path, of which no byte has been read.
    fn open(&self, path: &str) -> io::Result<Self::Input>
        ensures { IfOk result (λ file. Self.Input.remaining file ≡ bytes self.now path.now) };

    /// What stands at the path. Where that is a link, what it leads to.
    fn look(&self, path: &str) -> io::Result<Looked>
        ensures told { IfSome (looks self.now) (λ told. result_ok result ≡ told path.now) }
        ensures holds { IfOk result (λ looked. looked.kind ≡ Regular → bytes self.now path.now ≡ holds self.now
            looked.id) };

    /// A file without bytes that can be put at the path.
    fn create(&self, path: &str) -> io::Result<Self::Created>
        ensures { IfOk result (λ file. Self.Created.contents file ≡ blank self.now) };

    /// Puts a file that was created for the path there, in the place of what stood there before. Where that fails, what
    /// stood there stays as it was.
    fn keep(&self, file: Self::Created, path: &str) -> io::Result<()>
        ensures { OnOk result (IfSome (Self.Created.contents file) (Puts self.now path.now)) };
}
