//! The tests that a file has to pass, in the order of the refusals.

ghost use Rattle.std.specs.Prelude.{◌≡◌, ◌≤◌, length, IfOk, OnOk};
ghost use Rattle.std.specs.List.{list_any};
ghost use Rattle.std.specs.Result.{result_err};
ghost use Rattle.elf_reader.specs.Header.{file_header, program_headers};
ghost use Rattle.elf_reader.specs.Refusal.{first_that_stands, identification_rows, header_rows, is_interpreter, fault_rows, faults, refusal, HasTable};

use crate::ElfErr;
use crate::header::{FileHeader, ProgramHeader};

/// The bytes that an ELF file begins with.
const MAGIC: [u8; 4] = [0x7F, b'E', b'L', b'F'];

/// `EI_CLASS` of a 32-bit file.
const ELFCLASS32: u8 = 1;

/// `EI_DATA` of a little-endian file.
const ELFDATA2LSB: u8 = 1;

/// `EI_VERSION` of each file so far.
const EV_CURRENT: u8 = 1;

/// `e_type` of an executable at fixed addresses.
const ET_EXEC: u16 = 2;

/// `e_machine` of RISC-V.
const EM_RISCV: u16 = 243;

/// The bits of `e_flags` for compressed code, for floats in registers and for RV32E (RISC-V ELF
/// psABI, "File Header").
const UNSUPPORTED_FLAGS: u32 = 0xF;

/// The greatest number of program headers.
const MOST_HEADERS: u16 = 64;

/// Where a part may end at most. The first break is then an address too.
const HIGHEST_END: u64 = 0xFFFF_F000;

/// Tests a file, and gives its header if it is accepted. The error is the first refusal that stands.
pub(crate) fn accept(file: &[u8]) -> Result<FileHeader, ElfErr>
    ensures refused { result_err result ≡ refusal file.now }
    ensures header { IfOk result (λ header. header ≡ file_header file.now) }
{
    test_identification(file)?;
    let header = FileHeader::read(file);
    test_header(file, &header)?;
    if has_interpreter(file, &header) {
        return Err(ElfErr::Interp);
    }
    test_loads(file, &header)?;
    Ok(header)
}

/// Tests the first bytes.
#[tactic(auto, unfolding(crate::specs::Refusal::identification_rows))]
fn test_identification(file: &[u8]) -> Result<(), ElfErr>
    ensures refused { result_err result ≡ first_that_stands (identification_rows file.now) }
    ensures long { OnOk result (52 ≤ length file.now) }
{
    if file.len() < FileHeader::SIZE {
        return Err(ElfErr::Short);
    }
    if !file.starts_with(&MAGIC) {
        return Err(ElfErr::Magic);
    }
    if file[4] != ELFCLASS32 {
        return Err(ElfErr::Class);
    }
    if file[5] != ELFDATA2LSB {
        return Err(ElfErr::Endian);
    }
    if file[6] != EV_CURRENT {
        return Err(ElfErr::Version);
    }
    Ok(())
}

/// Tests the rest of the file's header.
#[tactic(auto, unfolding(crate::specs::Refusal::header_rows))]
fn test_header(file: &[u8], header: &FileHeader) -> Result<(), ElfErr>
    ensures refused { result_err result ≡ first_that_stands (header_rows file.now header.now) }
    ensures table { OnOk result (HasTable file.now header.now) }
{
    if header.e_type != ET_EXEC {
        return Err(ElfErr::Kind);
    }
    if header.e_machine != EM_RISCV {
        return Err(ElfErr::Machine);
    }
    if header.e_flags & UNSUPPORTED_FLAGS != 0 {
        return Err(ElfErr::Flags);
    }
    if header.e_entry % 4 != 0 {
        return Err(ElfErr::Entry);
    }
    if header.lacks_table(file) {
        return Err(ElfErr::Table);
    }
    if header.e_phnum > MOST_HEADERS {
        return Err(ElfErr::TooMany);
    }
    Ok(())
}

/// Whether a program header asks for an interpreter.
fn has_interpreter(file: &[u8], header: &FileHeader) -> bool
    requires { HasTable file.now header.now }
    ensures { result ≡ list_any is_interpreter (program_headers file.now header.now) }
{
    for number in 0..header.e_phnum {
        if ProgramHeader::read(file, header, number).p_type == ProgramHeader::PT_INTERP {
            return true;
        }
    }
    false
}

/// Tests the program headers in their order, each under its number.
fn test_loads(file: &[u8], header: &FileHeader) -> Result<(), ElfErr>
    requires { HasTable file.now header.now }
    ensures { result_err result ≡ first_that_stands (faults file.now header.now) }
{
    for number in 0..header.e_phnum {
        let entry = ProgramHeader::read(file, header, number);
        test_load(file, u32::from(number), &entry)?;
    }
    Ok(())
}

/// Tests the program header of this number.
#[tactic(auto, unfolding(crate::specs::Refusal::fault_rows))]
fn test_load(file: &[u8], number: u32, entry: &ProgramHeader) -> Result<(), ElfErr>
    ensures { result_err result ≡ first_that_stands (fault_rows file.now number entry.now) }
{
    if entry.p_type != ProgramHeader::PT_LOAD {
        return Ok(());
    }
    if u64::from(entry.p_offset) + u64::from(entry.p_filesz) > file.len() as u64 {
        return Err(ElfErr::Outside(number));
    }
    if entry.p_filesz > entry.p_memsz {
        return Err(ElfErr::Larger(number));
    }
    if u64::from(entry.p_vaddr) + u64::from(entry.p_memsz) > HIGHEST_END {
        return Err(ElfErr::Wraps(number));
    }
    Ok(())
}
