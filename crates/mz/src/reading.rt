//! Reading a file.
ghost use Rattle.std.specs.Prelude.{◌≡◌, ℕ, List, ◌+◌, ◌-◌, ◌*◌, ◌^◌, ◌<◌, ◌≤◌, length, vec_len, IfOk, IfErr, OnOk};
ghost use Rattle.std.specs.Prelude.{OnErr, IfSome, IsTrue};
ghost use Rattle.std.specs.List.{list_all};
ghost use Rattle.std.specs.Io.KnownBytes.{Consumes};
ghost use Rattle.omf_frame.specs.Device.{TakesAtMost};
ghost use Rattle.mz.specs.declared.fault.MzFault.TheVariants.{Memory};
ghost use Rattle.mz.specs.Header.{header_len, told_len, is_accepted, is_inside};
ghost use Rattle.mz.specs.Reading.{entries_at, reading, Gives, failures_in, Takes};
ghost use Rattle.mz.specs.inside.Steps.{ReadsOn, Stops, header_in, file_in};

use crate::fault::{FileFault, MzFault};
use crate::format::{ENTRY_LEN, Entry, HEADER_LEN, Header, MAGIC, word};
use omf_frame::{IoFault, Source};
use std::alloc::{AllocError, Allocator, Global};
use std::marker::Model;

/// How many bytes are asked of the source at once.
const PIECE_LEN: usize = 512;

/// A file that was read: the words of its header, its relocation table and its image.
#[derive(Drop)]
pub struct MzFile<A: Allocator + Copy = Global> {
    header: Header,
    entries: Vec<Entry, A>,
    // The file, from its first byte to the length that the header tells.
    bytes: Vec<u8, A>,
}

impl<A: Allocator + Copy> Model for MzFile<A> {
    ghost use Rattle.std.specs.Prelude.{◌-◌, ◌≤◌, length, drop, IsTrue};
    ghost use Rattle.std.specs.List.{list_all};
    ghost use Rattle.mz.specs.File.{MzFile};

    ghost Value = { MzFile };

    ghost use Rattle.mz.specs.Header.{header_len, is_inside};

    ghost view = { λ f. record {
      header = f.header;
      entries = f.entries.items;
      image = drop
          (header_len f.header) f.bytes.items;
    } };

    ghost invariant = { λ f. (header_len f.header ≤ length f.bytes.items)
        × IsTrue (list_all (is_inside (length f.bytes.items - header_len f.header)) f.entries.items) };
}

impl<A: Allocator + Copy> MzFile<A> {
    /// The words of the header.
    pub fn header(&self) -> Header
        ensures { result ≡ self.now.header }
    {
        self.header
    }

    /// The entries of the relocation table, in its order.
    pub fn entries(&self) -> &[Entry]
        ensures same { result.now ≡ self.now.entries }
        ensures inside { IsTrue (list_all (is_inside (length self.now.image)) self.now.entries) }
    {
        &self.entries
    }

    /// The image: the bytes from the header's end to the file's.
    pub fn image(&self) -> &[u8]
        ensures { result.now ≡ self.now.image }
    {
        &self.bytes[self.header.header_len()..]
    }
}

/// Reads behind the bytes until there are `len` of them or the source is at its end.
fn read_up_to<A: Allocator + Copy, S: Source>(
    source: &mut S,
    bytes: &mut Vec<u8, A>,
    len: usize,
) -> Result<(), MzFault>
    requires working { S.failures source.old < 2 ^ 64 - 1 }
    requires short { vec_len bytes.old ≤ len }
    ensures device { S.failures source.new ≡ S.failures source.old + failures_in result }
    ensures stops { IfErr result Stops }
    ensures read { OnOk result (ReadsOn len (S.remaining source.old)
        (S.remaining source.new) bytes.old.items bytes.new.items) }
    ensures failed { OnErr result (TakesAtMost (S.remaining source.old) (S.remaining source.new)
        (len - vec_len bytes.old)) }
    ensures memory { IfErr result (λ e. e ≡ Memory → (more : List ℕ)
        × Consumes (S.remaining source.old) (S.remaining source.new) more) }
{
    let mut piece = [0; PIECE_LEN];
    while bytes.len() < len {
        let room = (len - bytes.len()).min(PIECE_LEN);
        let Ok(count) = source.read_some(&mut piece[..room]) else {
            return Err(MzFault::File(FileFault::Device));
        };
        if count == 0 {
            break;
        }
        bytes.extend_from_slice(&piece[..count])?;
    }
    Ok(())
}

/// The header in the first bytes of a file: 28, or all that there are.
fn read_header(bytes: &[u8]) -> Result<Header, FileFault>
    ensures { result ≡ header_in bytes.now }
{
    if bytes.len() >= 2 && word(bytes, 0) != MAGIC {
        return Err(FileFault::Magic);
    }
    if bytes.len() < HEADER_LEN {
        return Err(FileFault::Truncated);
    }
    let header = Header::read(bytes);
    if !header.is_accepted() {
        return Err(FileFault::Header);
    }
    Ok(header)
}

/// The entries of the relocation table.
fn read_entries<A: Allocator + Copy>(
    alloc: A,
    header: Header,
    bytes: &[u8],
) -> Result<Vec<Entry, A>, AllocError>
    requires { 0 < header.relocation_count → header.relocation_table + 4 * header.relocation_count ≤ length bytes.now }
    ensures { IfOk result
        (λ entries. entries.items ≡ entries_at header.relocation_count header.relocation_table bytes.now) }
{
    let mut entries = Vec::new(alloc);
    let start = usize::from(header.relocation_table);
    for index in 0..usize::from(header.relocation_count) {
        entries.push(Entry::read(bytes, start + ENTRY_LEN * index))?;
    }
    Ok(entries)
}

/// Whether the word of each entry lies in an image of this length.
fn are_inside(entries: &[Entry], len: usize) -> bool
    ensures { result ≡ list_all (is_inside len) entries.now }
{
    entries.iter().all(|entry| entry.is_inside(len))
}

/// The file of these bytes, under its header.
fn file_of<A: Allocator + Copy>(
    alloc: A,
    header: Header,
    bytes: Vec<u8, A>,
) -> Result<MzFile<A>, MzFault>
    requires accepted { IsTrue (is_accepted header) }
    requires whole { vec_len bytes ≡ told_len header }
    ensures works { failures_in result ≡ 0 }
    ensures exact { Gives result (file_in header bytes.items) }
{
    let entries = read_entries(alloc, header, &bytes)?;
    let image_len = bytes.len() - header.header_len();
    if !are_inside(&entries, image_len) {
        return Err(MzFault::File(FileFault::RelocationOutside));
    }
    Ok(MzFile {
        header,
        entries,
        bytes,
    })
}

/// Reads a file, no byte more than its header tells, and keeps its header words, its relocation table and its image.
/// Memory is taken as the bytes come, whatever the header promises.
///
/// The fault is the first of `Magic`, `Header`, `Truncated` and `RelocationOutside` that stands; `Device` where the
/// source failed, and then once; or `Memory`. After `Magic` and `Header` at most the 28 bytes of the header's words
/// were taken, after `Truncated` the source is at its end, after `RelocationOutside` just past the file.
pub fn read_mz<A: Allocator + Copy, S: Source>(
    alloc: A,
    source: &mut S,
) -> Result<MzFile<A>, MzFault>
    requires { S.failures source.old < 2 ^ 64 - 1 }
    // The source failed exactly where the answer is `Device`.
    ensures device { S.failures source.new ≡ S.failures source.old + failures_in result }
    // The answer is what the bytes say.
    ensures exact { IfSome (S.remaining source.old) (λ b. Gives result (reading b)) }
    // What was taken.
    ensures stands { Takes (S.remaining source.old) (S.remaining source.new) result }
{
    let mut bytes = Vec::new(alloc);
    read_up_to(source, &mut bytes, HEADER_LEN)?;
    let header = read_header(&bytes)?;
    let len = header.told_len();
    read_up_to(source, &mut bytes, len)?;
    if bytes.len() < len {
        return Err(MzFault::File(FileFault::Truncated));
    }
    file_of(alloc, header, bytes)
}
