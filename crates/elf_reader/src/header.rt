//! The headers of an ELF file, with the fields that matter here in the System V ABI's names.

ghost use Rattle.std.specs.Prelude.{◌≡◌, ◌≤◌, ◌+◌, length, drop};
ghost use Rattle.elf_reader.specs.Header.{file_header, program_header, header_place};
ghost use Rattle.elf_reader.specs.Refusal.{lacks_table};

use byteorder::{ByteOrder, LittleEndian};

/// The header of a file (System V ABI, "ELF Header").
#[derive(Clone, Copy, Debug)]
pub(crate) struct FileHeader {
    pub e_type: u16,
    pub e_machine: u16,
    pub e_entry: u32,
    pub e_phoff: u32,
    pub e_flags: u32,
    pub e_phentsize: u16,
    pub e_phnum: u16,
}

/// An entry of the table of program headers (System V ABI, "Program Header").
#[derive(Clone, Copy, Debug)]
pub(crate) struct ProgramHeader {
    pub p_type: u32,
    pub p_offset: u32,
    pub p_vaddr: u32,
    pub p_filesz: u32,
    pub p_memsz: u32,
}

impl FileHeader {
    /// The size of a file's header in bytes.
    pub(crate) const SIZE: usize = 52;

    /// Reads the header at the front of a file.
    pub(crate) fn read(file: &[u8]) -> FileHeader
        requires { 52 ≤ length file.now }
        ensures { result ≡ file_header file.now }
    {
        FileHeader {
            e_type: LittleEndian::read_u16(&file[16..]),
            e_machine: LittleEndian::read_u16(&file[18..]),
            e_entry: LittleEndian::read_u32(&file[24..]),
            e_phoff: LittleEndian::read_u32(&file[28..]),
            e_flags: LittleEndian::read_u32(&file[36..]),
            e_phentsize: LittleEndian::read_u16(&file[42..]),
            e_phnum: LittleEndian::read_u16(&file[44..]),
        }
    }

    /// Whether there are program headers, and they are not 32 bytes long or their table ends past
    /// the file.
    pub(crate) fn lacks_table(&self, file: &[u8]) -> bool
        ensures { result ≡ lacks_table file.now self.now }
    {
        let size = ProgramHeader::SIZE * usize::from(self.e_phnum);
        self.e_phnum > 0
            && (usize::from(self.e_phentsize) != ProgramHeader::SIZE
                || self.e_phoff as usize + size > file.len())
    }
}

impl ProgramHeader {
    /// The type of a segment that is loaded.
    pub(crate) const PT_LOAD: u32 = 1;

    /// The type of an interpreter's name.
    pub(crate) const PT_INTERP: u32 = 3;

    /// The size of an entry in bytes.
    pub(crate) const SIZE: usize = 32;

    /// Reads the entry of this number in the table of a file.
    pub(crate) fn read(file: &[u8], header: &FileHeader, number: u16) -> ProgramHeader
        requires { header_place header.now number + 32 ≤ length file.now }
        ensures { result ≡ program_header (drop (header_place header.now number) file.now) }
    {
        let entry = &file[header.e_phoff as usize + ProgramHeader::SIZE * usize::from(number)..];
        ProgramHeader {
            p_type: LittleEndian::read_u32(entry),
            p_offset: LittleEndian::read_u32(&entry[4..]),
            p_vaddr: LittleEndian::read_u32(&entry[8..]),
            p_filesz: LittleEndian::read_u32(&entry[16..]),
            p_memsz: LittleEndian::read_u32(&entry[20..]),
        }
    }
}
