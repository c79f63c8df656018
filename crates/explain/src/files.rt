// The kind of a file that is not a shared object.
ghost use Rattle.std.specs.Prelude.{◌≡◌, slice_get};
ghost use Rattle.abi_base.specs.Numbers.{number_at};
ghost use Rattle.explain.specs.Faults.{class_words, file_words, order_words, other_file_words, short_words, type_words};
ghost use Rattle.explain.specs.Faults as spec;

use crate::constants::{
    E_TYPE, EI_CLASS, EI_DATA, ELF_MAGIC, ELFCLASS32, ELFDATA2MSB, ET_CORE, ET_EXEC, ET_REL,
};
use abi_base::{FaultKind, u16_at};

// The magic strings of a static archive, and of a thin archive, which holds no copies of its members.
const ARCHIVE: &[u8] = b"!<arch>\n";

const THIN_ARCHIVE: &[u8] = b"!<thin>\n";

// The beginning of a Debian package: the magic string of the archive, and the name of its first member (deb(5)).
const DEBIAN_ARCHIVE: &[u8] = b"!<arch>\ndebian-binary";

// The magic number of an RPM package.
const RPM_MAGIC: &[u8] = b"\xed\xab\xee\xdb";

// Whether a file begins as a linker script usually does.
fn is_script(bytes: &[u8]) -> bool
    ensures { result ≡ spec.is_script bytes.now }
{
    bytes.starts_with(b"/* GNU ld script")
        || bytes.starts_with(b"INPUT")
        || bytes.starts_with(b"GROUP")
        || bytes.starts_with(b"OUTPUT_FORMAT")
        || bytes.starts_with(b"OUTPUT_ARCH")
}

// The words for a file that is not an ELF file.
#[tactic(auto, unfolding(crate::specs::Faults::other_file_words))]
fn other_file(bytes: &[u8]) -> &'static str
    ensures { result.now ≡ other_file_words bytes.now }
{
    if bytes.starts_with(DEBIAN_ARCHIVE) {
        "it is a Debian package; give a shared object (.so) out of it, or compare packages with abi-packages"
    } else if bytes.starts_with(RPM_MAGIC) {
        "it is an RPM package; give a shared object (.so) out of it, or compare packages with abi-packages"
    } else if bytes.starts_with(ARCHIVE) || bytes.starts_with(THIN_ARCHIVE) {
        "it is a static archive; give the shared object (.so) itself"
    } else if is_script(bytes) {
        "it is a linker script; give the shared object that it names"
    } else {
        "it is not an ELF file"
    }
}

// The words for an ELF file that is not a shared object.
fn other_object(bytes: &[u8]) -> &'static str
    ensures { result.now ≡ type_words (number_at 2 bytes.now 16) }
{
    match u16_at(bytes, E_TYPE) {
        Some(ET_REL) => "it is an object file (.o), not a shared object",
        Some(ET_EXEC) => {
            "it is an executable at a fixed address (compiled with -no-pie), not a shared object or a position-independent executable"
        }
        Some(ET_CORE) => "it is a core dump, not a shared object",
        _ => "it is not a shared object",
    }
}

// The words for a file that is too short for an ELF header.
fn short_file(bytes: &[u8], length: u64) -> &'static str
    ensures { result.now ≡ short_words length bytes.now }
{
    if length == 0 {
        "it is empty"
    } else if bytes.starts_with(ELF_MAGIC) {
        "it ends inside its ELF header"
    } else {
        other_file(bytes)
    }
}

// The words for a file that is not 64-bit.
fn other_class(bytes: &[u8]) -> &'static str
    ensures { result.now ≡ class_words (slice_get bytes.now 4) }
{
    match bytes.get(EI_CLASS) {
        Some(&ELFCLASS32) => "it is a 32-bit file; only 64-bit shared objects for x86-64 are read",
        _ => "it is not a 64-bit file; only 64-bit shared objects for x86-64 are read",
    }
}

// The words for a file that is not little-endian.
fn other_order(bytes: &[u8]) -> &'static str
    ensures { result.now ≡ order_words (slice_get bytes.now 5) }
{
    match bytes.get(EI_DATA) {
        Some(&ELFDATA2MSB) => "it is a big-endian file; only shared objects for x86-64 are read",
        _ => "it is not a little-endian file; only shared objects for x86-64 are read",
    }
}

/// The words for a fault of this kind in the header of a file, at this position. The bytes may be empty, if they cannot be read a
/// second time.
#[tactic(auto, unfolding(crate::specs::Faults::file_words))]
pub(crate) fn file_sentence(kind: FaultKind, at: u64, bytes: &[u8]) -> &'static str
    ensures { result.now ≡ file_words kind at bytes.now }
{
    match kind {
        FaultKind::ShortFile => short_file(bytes, at),
        FaultKind::NotElf => other_file(bytes),
        FaultKind::Class => other_class(bytes),
        FaultKind::Data => other_order(bytes),
        FaultKind::Version => "it is of an ELF version that does not exist",
        FaultKind::NotShared => other_object(bytes),
        FaultKind::Machine => "it is for another processor than x86-64",
        FaultKind::SectionTable => {
            "its section table is missing or damaged; a file whose section headers were stripped cannot be read"
        }
        FaultKind::NoDynamicSymbols => "it has no table of dynamic symbols (.dynsym)",
        FaultKind::VersionTable =>
            "its table of symbol versions has not one entry for each dynamic symbol",
        _ => "it is longer than 256 MiB",
    }
}
