//! A world in which one path stands for the standard streams.

use crate::host::NewFile;
use crate::world::{Looked, PlaceKind, World};
use std::fs::File;
use std::io::{self, Read, Stdin, Stdout, Write};

/// The path of the standard streams.
const STREAM: &str = "-";

/// The files of the machine, where the path `-` is that of the standard input, for what is read, and of the standard
/// output, for what is written.
#[derive(Clone, Copy)]
pub struct Streams<'a> {
    rt: &'a HostRuntime,
}

impl<'a> Streams<'a> {
    /// Those of the program with this handle.
    pub fn of(rt: &'a HostRuntime) -> Streams<'a> {
        Streams { rt }
    }
}

/// A file that is read, or the standard input.
#[derive(Drop)]
pub enum StreamInput {
    /// A file.
    File(File),
    /// The standard input.
    Input(Stdin),
}

impl Read for StreamInput {
    fn read(&mut self, buf: &mut [u8]) -> io::Result<usize> {
        match self {
            StreamInput::File(file) => file.read(buf),
            StreamInput::Input(input) => input.read(buf),
        }
    }
}

/// A file that is written, or the standard output.
#[derive(Drop)]
pub enum StreamOutput<'a> {
    /// A file.
    File(NewFile<'a>),
    /// The standard output.
    Output(Stdout),
}

impl Write for StreamOutput<'_> {
    fn write(&mut self, buf: &[u8]) -> io::Result<usize> {
        match self {
            StreamOutput::File(file) => file.write(buf),
            StreamOutput::Output(output) => output.write(buf),
        }
    }

    fn flush(&mut self) -> io::Result<()> {
        match self {
            StreamOutput::File(file) => file.flush(),
            StreamOutput::Output(output) => output.flush(),
        }
    }
}

impl<'a> World for Streams<'a> {
    type Input = StreamInput;

    type Created = StreamOutput<'a>;

    fn open(&self, path: &str) -> io::Result<StreamInput> {
        if path == STREAM {
            return Ok(StreamInput::Input(self.rt.stdin()));
        }
        Ok(StreamInput::File(self.rt.open(path)?))
    }

    // The standard input is no regular file here, also where it is read from one.
    fn look(&self, path: &str) -> io::Result<Looked> {
        if path != STREAM {
            return self.rt.look(path);
        }
        Ok(Looked {
            kind: PlaceKind::Other,
            id: self.rt.look("/dev/stdin")?.id,
        })
    }

    fn create(&self, path: &str) -> io::Result<StreamOutput<'a>> {
        if path == STREAM {
            return Ok(StreamOutput::Output(self.rt.stdout()));
        }
        Ok(StreamOutput::File(self.rt.create(path)?))
    }

    fn keep(&self, file: StreamOutput<'a>, path: &str) -> io::Result<()> {
        match file {
            StreamOutput::File(file) => self.rt.keep(file, path),
            StreamOutput::Output(mut output) => output.flush(),
        }
    }
}
