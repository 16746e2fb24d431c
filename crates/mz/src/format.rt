//! The header of the file, and the entries of its relocation table.
ghost use Rattle.std.specs.Prelude.{◌≡◌, ◌+◌, ◌*◌, ◌≤◌, length};
ghost use Rattle.omf_image.specs.Words.{word_at};
ghost use Rattle.mz.specs.Header.{header_at, entry_at, entry_address, header_len};
ghost use Rattle.mz.specs.inside.Format.{header_bytes, entry_bytes};
ghost use Rattle.mz.specs.Header.{told_len, is_accepted, is_inside};
ghost use Rattle.mz.specs.inside.Format.{has_table_inside};

use byteorder::{ByteOrder, LittleEndian};
use omf_image::Registers;

/// How many bytes the words of the header have.
pub(crate) const HEADER_LEN: usize = 28;

/// The first word of the file, the letters MZ.
pub(crate) const MAGIC: u16 = 0x5A4D;

/// The bytes of a page of the file.
pub(crate) const PAGE_LEN: usize = 512;

/// The bytes of a paragraph.
pub(crate) const PARAGRAPH_LEN: usize = 16;

/// The bytes of an entry of the relocation table.
pub(crate) const ENTRY_LEN: usize = 4;

/// The words of the header behind the first one, in their order and with Microsoft's names for them.
#[derive(Clone, Copy, Debug, PartialEq, Eq)]
pub struct Header {
    /// The bytes on the file's last page, 0 for a full one (`e_cblp`).
    pub last_page_bytes: u16,
    /// The file's pages of 512 bytes, the last one counted (`e_cp`).
    pub pages: u16,
    /// The number of entries of the relocation table (`e_crlc`).
    pub relocation_count: u16,
    /// The header's paragraphs of 16 bytes, the relocation table included (`e_cparhdr`).
    pub header_paragraphs: u16,
    /// The paragraphs that the program needs at least behind the whole paragraphs of its image (`e_minalloc`).
    pub least_extra_paragraphs: u16,
    /// The paragraphs that the program wants at most behind its image (`e_maxalloc`).
    pub greatest_extra_paragraphs: u16,
    /// The registers at the program's start, their frames counted from the image's (`e_cs`, `e_ip`, `e_ss`, `e_sp`).
    pub registers: Registers,
    /// A checksum, which nothing looks at (`e_csum`).
    pub checksum: u16,
    /// The place of the relocation table in the file (`e_lfarlc`).
    pub relocation_table: u16,
    /// The overlay's number, 0 for the main program (`e_ovno`).
    pub overlay: u16,
}

/// The word at a place, low byte first.
pub(crate) fn word(bytes: &[u8], at: usize) -> u16
    requires { at + 2 ≤ length bytes.now }
    ensures { result ≡ word_at bytes.now at }
{
    LittleEndian::read_u16(&bytes[at..])
}

impl Header {
    /// The header that begins a file.
    #[tactic(auto, unfolding(crate::specs::Header::header_at))]
    pub(crate) fn read(bytes: &[u8]) -> Header
        requires { 28 ≤ length bytes.now }
        ensures { result ≡ header_at bytes.now }
    {
        Header {
            last_page_bytes: word(bytes, 0x02),
            pages: word(bytes, 0x04),
            relocation_count: word(bytes, 0x06),
            header_paragraphs: word(bytes, 0x08),
            least_extra_paragraphs: word(bytes, 0x0A),
            greatest_extra_paragraphs: word(bytes, 0x0C),
            registers: Registers {
                cs: word(bytes, 0x16),
                ip: word(bytes, 0x14),
                ss: word(bytes, 0x0E),
                sp: word(bytes, 0x10),
            },
            checksum: word(bytes, 0x12),
            relocation_table: word(bytes, 0x18),
            overlay: word(bytes, 0x1A),
        }
    }

    /// The header's bytes in the file.
    pub(crate) fn to_bytes(&self) -> [u8; HEADER_LEN]
        ensures { result ≡ header_bytes self.now }
    {
        let words = [
            MAGIC,
            self.last_page_bytes,
            self.pages,
            self.relocation_count,
            self.header_paragraphs,
            self.least_extra_paragraphs,
            self.greatest_extra_paragraphs,
            self.registers.ss,
            self.registers.sp,
            self.checksum,
            self.registers.ip,
            self.registers.cs,
            self.relocation_table,
            self.overlay,
        ];
        let mut bytes = [0; HEADER_LEN];
        LittleEndian::write_u16_into(&words, &mut bytes);
        bytes
    }

    /// How many bytes the header has with its table, to the image's first byte.
    pub(crate) fn header_len(&self) -> usize
        ensures { result ≡ header_len self.now }
    {
        PARAGRAPH_LEN * usize::from(self.header_paragraphs)
    }

    /// How many bytes of the file belong to the program.
    pub(crate) fn told_len(&self) -> usize
        ensures { result ≡ told_len self.now }
    {
        let last = usize::from(self.last_page_bytes);
        if last == 0 {
            PAGE_LEN * usize::from(self.pages)
        } else {
            PAGE_LEN * usize::from(self.pages.saturating_sub(1)) + last
        }
    }

    /// Whether the relocation table lies behind the header's words, in the header.
    fn has_table_inside(&self) -> bool
        ensures { result ≡ has_table_inside self.now }
    {
        let start = usize::from(self.relocation_table);
        let end = start + ENTRY_LEN * usize::from(self.relocation_count);
        HEADER_LEN <= start && end <= self.header_len()
    }

    /// Whether the words agree with one another.
    pub(crate) fn is_accepted(&self) -> bool
        ensures { result ≡ is_accepted self.now }
    {
        self.pages >= 1
            && self.last_page_bytes <= 511
            && HEADER_LEN <= self.header_len()
            && self.header_len() <= self.told_len()
            && (self.relocation_count == 0 || self.has_table_inside())
    }
}

/// An entry of the relocation table: where a word stands to which the loader adds the paragraph.
#[derive(Clone, Copy, Debug, PartialEq, Eq)]
pub struct Entry {
    /// The word's offset in the segment.
    pub offset: u16,
    /// The segment's frame, counted from the image's start.
    pub segment: u16,
}

impl Entry {
    /// The entry at a place of the file.
    pub(crate) fn read(bytes: &[u8], at: usize) -> Entry
        requires { at + 4 ≤ length bytes.now }
        ensures { result ≡ entry_at at bytes.now }
    {
        Entry {
            offset: word(bytes, at),
            segment: word(bytes, at + 2),
        }
    }

    /// The entry's bytes in the file.
    pub(crate) fn to_bytes(self) -> [u8; ENTRY_LEN]
        ensures { result ≡ entry_bytes self }
    {
        let mut bytes = [0; ENTRY_LEN];
        LittleEndian::write_u16_into(&[self.offset, self.segment], &mut bytes);
        bytes
    }

    /// The word's address, counted from the image's first byte.
    pub fn address(self) -> usize
        ensures { result ≡ entry_address self }
    {
        PARAGRAPH_LEN * usize::from(self.segment) + usize::from(self.offset)
    }

    /// Whether the word lies in its segment and in an image of this length.
    pub(crate) fn is_inside(self, len: usize) -> bool
        ensures { result ≡ is_inside len self }
    {
        self.offset != u16::MAX && self.address() + 2 <= len
    }
}
