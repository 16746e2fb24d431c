//! Files that a program reads and writes, as devices.
ghost use Rattle.std.specs.Prelude.{All, ◌≡◌, ◌+◌, ◌-◌, ◌^◌, ◌<◌, ◌≤◌, ℕ, List, [], IfOk, IfSome, None, OnErr, OnOk};
ghost use Rattle.std.specs.Prelude.{is_ok, length, map, take, if◌then◌else◌};
ghost use Rattle.std.specs.Io.KnownBytes.{Consumes, IsAtEnd, Keeps};
ghost use Rattle.omf_frame.specs.Device.{SameWhereTold};
ghost use Rattle.omf_files.specs.Files.{HoldsNothing, IsPut, created_bytes, held_back, is_out_of_memory, sink_bytes};
ghost use Rattle.omf_files.specs.Files.{sink_failures, stage_bytes};
ghost use Rattle.omf_files.specs.inside.Files.{IsOpenedAt};

use crate::world::World;
use omf_frame::{IoFault, Sink, Source};
use std::alloc::{AllocError, Allocator, Global};
use std::io::{self, BufReader, BufWriter, Read, Write};
use std::snapshot::Snapshot;

/// How many bytes of an input are read at a time.
const PIECE: usize = 4096;

/// How far a file is read.
#[derive(Drop)]
pub enum Stage<F, A: Allocator> {
    /// It isn't opened yet.
    Waiting,
    /// It is read, through a buffer.
    Open(BufReader<F, A>),
    /// It couldn't be opened.
    Failed,
    /// There was no memory for its buffer.
    NoMemory,
    /// It was closed, and its buffer given back, with these bytes to come.
    Finished(Snapshot<BufReader<F, A>>),
}

/// The file at the path, opened, behind a buffer.
fn open<W: World, A: Allocator>(alloc: A, world: &W, path: &str) -> Stage<W::Input, A>
    ensures { IsOpenedAt W.Input.remaining (W.bytes world.now path.now) result }
{
    let Ok(file) = world.open(path) else {
        return Stage::Failed;
    };
    match BufReader::with_capacity(alloc, PIECE, file) {
        Ok(reader) => Stage::Open(reader),
        Err(_) => Stage::NoMemory,
    }
}

/// The bytes of the file at a path, read in large pieces. The file is opened at the first read; where that fails, each
/// read fails and it isn't tried again. Once finished, the file is closed and holds no memory.
#[derive(Drop)]
pub struct FileSource<'a, W: World + Copy, A: Allocator = Global> {
    alloc: A,
    world: W,
    path: &'a str,
    stage: Stage<W::Input, A>,
    failures: u64,
}

impl<W: World + Copy, A: Allocator + Copy> FileSource<'_, W, A> {
    /// Whether a read failed since there was no memory for the buffer.
    pub fn lacks_memory(&self) -> bool
        ensures { result ≡ is_out_of_memory self.now.stage }
    {
        matches!(&self.stage, Stage::NoMemory)
    }
}

impl<W: World + Copy, A: Allocator + Copy> Source for FileSource<'_, W, A> {
    ghost remaining = { λ s. stage_bytes W.Input.remaining (W.bytes s.world s.path.now) s.stage };

    ghost failures = { λ s. s.failures };

    fn read_some(&mut self, buf: &mut [u8]) -> Result<usize, IoFault> {
        if matches!(&self.stage, Stage::Waiting) {
            self.stage = open(self.alloc, &self.world, self.path);
        }
        if let Stage::Open(reader) = &mut self.stage {
            if let Ok(n) = reader.read(buf) {
                return Ok(n);
            }
        }
        self.failures += 1;
        Err(IoFault)
    }

    fn finish(&mut self)
        ensures told { stage_bytes W.Input.remaining (W.bytes self.new.world self.new.path.now) self.new.stage
            ≡ stage_bytes W.Input.remaining (W.bytes self.old.world self.old.path.now) self.old.stage }
        ensures failures { self.new.failures ≡ self.old.failures }
        // The file is closed, and its buffer given back.
        ensures closed { HoldsNothing self.new.stage }
    {
        if let Stage::Open(reader) = &self.stage {
            self.stage = Stage::Finished(Snapshot::of(reader));
        }
    }

    fn failures(&self) -> u64 {
        self.failures
    }
}

/// The bytes of the file at the path, which isn't opened yet.
pub fn open_source<'a, W: World + Copy, A: Allocator + Copy>(
    alloc: A,
    world: W,
    path: &'a str,
) -> FileSource<'a, W, A>
    ensures world { result.world ≡ world }
    ensures path { result.path ≡ path.entry }
    ensures waiting { result.stage ≡ Stage.Waiting }
    ensures failures { result.failures ≡ 0 }
{
    FileSource {
        alloc,
        world,
        path,
        stage: Stage::Waiting,
        failures: 0,
    }
}

/// The bytes of the files at the paths, in their order. None is opened yet.
pub fn open_sources<'a, W: World + Copy, A: Allocator + Copy>(
    alloc: A,
    world: W,
    paths: &[&'a str],
) -> Result<Vec<FileSource<'a, W, A>, A>, AllocError>
    ensures paths { IfOk result (λ sources. map (λ s. s.path) sources.items ≡ paths.now) }
    ensures waiting { IfOk result (λ sources. All (λ s. (s.world ≡ world) × (s.stage ≡ Stage.Waiting)) sources.items) }
    ensures failures { IfOk result (λ sources. All (λ s. s.failures ≡ 0) sources.items) }
{
    let mut sources = Vec::new(alloc);
    for path in paths {
        sources.push(open_source(alloc, world, path))?;
    }
    Ok(sources)
}

/// A file that is created when its first byte is written, and takes its place at the path when it is kept.
#[derive(Drop)]
pub struct CreatedFile<'a, W: World + Copy> {
    world: W,
    path: &'a str,
    file: Option<W::Created>,
}

impl<'a, W: World + Copy> CreatedFile<'a, W> {
    /// The file at the path, which is left as it is until a byte is written.
    pub fn new(world: W, path: &'a str) -> CreatedFile<'a, W>
        ensures world { result.world ≡ world }
        ensures path { result.path ≡ path.entry }
        ensures untouched { result.file ≡ None }
    {
        CreatedFile {
            world,
            path,
            file: None,
        }
    }
}

impl<W: World + Copy> Write for CreatedFile<'_, W> {
    ghost contents = { λ s. created_bytes W.Created.contents (W.blank s.world) s.file };

    fn write(&mut self, buf: &[u8]) -> io::Result<usize> {
        if buf.is_empty() {
            return Ok(0);
        }
        if self.file.is_none() {
            self.file = Some(self.world.create(self.path)?);
        }
        match &mut self.file {
            Some(file) => file.write(buf),
            None => Ok(0),
        }
    }

    fn flush(&mut self) -> io::Result<()> {
        match &mut self.file {
            Some(file) => file.flush(),
            None => Ok(()),
        }
    }
}

/// What is written, and then put in its place.
pub trait Keep: Write + Drop {
    // What was written, these bytes, stands in its place.
    ghost Stands: { Self → List ℕ → Type 0 } = { λ _ _. Unit {0} };

    /// Puts what was written in its place. Dropped without that, it leaves what stood there before as it was.
    fn keep(self) -> io::Result<()>
        ensures { OnOk result (IfSome (Self.contents self) (Stands self)) };
}

impl<W: World + Copy> Keep for CreatedFile<'_, W> {
    ghost Stands = { λ s bytes. IsPut (W.Puts s.world s.path.now) s.file bytes };

    // Where nothing was written, the older file stays.
    fn keep(self) -> io::Result<()> {
        let CreatedFile { world, path, file } = self;
        match file {
            Some(file) => world.keep(file, path),
            None => Ok(()),
        }
    }
}

/// Bytes that go to a writer in large pieces. What is held back goes out at `flush`.
#[derive(Drop)]
pub struct BufferedSink<W: Write + Drop, A: Allocator = Global> {
    writer: BufWriter<W, A>,
    failures: u64,
}

impl<W: Write + Drop, A: Allocator> BufferedSink<W, A> {
    /// A sink over the writer.
    pub fn new(alloc: A, writer: W) -> Result<BufferedSink<W, A>, AllocError>
        ensures contents { IfOk result (λ s. sink_bytes W.contents s ≡ W.contents writer) }
        ensures failures { IfOk result (λ s. sink_failures s ≡ 0) }
    {
        match BufWriter::new(alloc, writer) {
            Ok(writer) => Ok(BufferedSink {
                writer,
                failures: 0,
            }),
            Err(_) => Err(AllocError),
        }
    }

    /// Hands on what is held back. A failure is one failure of the sink; what it leaves stays held back.
    pub fn flush(&mut self) -> Result<(), IoFault>
        requires { sink_failures self.old < 2 ^ 64 - 1 }
        ensures count { sink_failures self.new ≡ sink_failures self.old + (if is_ok result then 0 else 1) }
        ensures same { Keeps (sink_bytes W.contents self.old) (sink_bytes W.contents self.new) }
        ensures all { OnOk result (held_back self.new ≡ []) }
    {
        if self.writer.flush().is_err() {
            self.failures += 1;
            return Err(IoFault);
        }
        Ok(())
    }
}

impl<W: Keep, A: Allocator> BufferedSink<W, A> {
    /// Hands on what is held back, and puts what was written in its place.
    pub fn keep(self) -> Result<(), IoFault>
        // A writer that held all the bytes was kept.
        ensures { OnOk result ((w : W) × IfSome (sink_bytes W.contents self) (W.Stands w)) }
    {
        let Ok(writer) = self.writer.into_inner() else {
            return Err(IoFault);
        };
        match writer.keep() {
            Ok(()) => Ok(()),
            Err(_) => Err(IoFault),
        }
    }
}

impl<W: Write + Drop, A: Allocator> Sink for BufferedSink<W, A> {
    ghost written = { sink_bytes W.contents };

    ghost failures = { sink_failures };

    fn write_some(&mut self, bytes: &[u8]) -> Result<usize, IoFault> {
        match self.writer.write(bytes) {
            Ok(n) if n > 0 || bytes.is_empty() => Ok(n),
            _ => {
                self.failures += 1;
                Err(IoFault)
            }
        }
    }

    fn failures(&self) -> u64 {
        self.failures
    }
}
