// A library, from its bytes.
ghost use Rattle.std.specs.Prelude.{◌≡◌, ◌≤◌, length, IfErr, IfOk, None};
ghost use Rattle.std.specs.Option.{option_copied};
ghost use Rattle.abi_base.specs.Limits.{input_limit};
ghost use Rattle.abi_base.specs.Outcome.{Judges, OnLimit, OnPast};
ghost use Rattle.abi_types.specs.Plain.{plain_exports};
ghost use Rattle.elf.specs.symbols.Dynamic.{soname_of};
ghost use Rattle.library_read.specs.Debug.{debug_of};
ghost use Rattle.library_read.specs.Exports.{typed_exports_of};
ghost use Rattle.library_read.specs.Faults.{library_fault};
ghost use Rattle.library_read.specs.Limits.{LibraryPasses, OnTypesPass, PartsPass};
ghost use Rattle.library_read.specs.Libraries.{library_of, uncalled_graph_of};

use crate::laws::readable_files_are_libraries;
use crate::listing::{Listing, read_listing};
use crate::room::ask_room;
use crate::typing::{Typed, with_types};
use abi_base::{NoMemory, Refusal};
use abi_types::{Index, Library};
use dwarf_entries::Dwarf;
use elf::file::read_elf;
use psabi::call_shapes;
use std::alloc::Global;

// What was read of a file.
#[derive(Drop)]
struct Parts<'a, Ix: Index> {
    // The soname, where there is one.
    soname: Option<&'a [u8]>,
    // The exports, and the types that they reach.
    typed: Typed<'a, Ix>,
    // The debug information.
    dwarf: Dwarf<'a>,
}

// The parts of the library that a file is, and its debug information. The fault is the first one of all groups, since they are read
// in their order.
fn read_parts<'a, Ix: Index>(alloc: Global, bytes: &'a [u8]) -> Result<Parts<'a, Ix>, Refusal>
    requires { length bytes.now ≤ input_limit }
    ensures judged { Judges result (library_fault bytes.now) }
    ensures soname { IfOk result (λ parts. option_copied parts.soname ≡ soname_of bytes.now) }
    ensures exports { IfOk result (λ parts. plain_exports parts.typed.exports ≡ typed_exports_of bytes.now) }
    ensures graph { IfOk result (λ parts. parts.typed.graph ≡ uncalled_graph_of bytes.now) }
    ensures debug { IfOk result (λ parts. parts.dwarf ≡ debug_of bytes.now) }
    ensures past { IfErr result (λ e. OnPast e (PartsPass bytes.now)) }
{
    let file = read_elf(bytes)?;
    let Listing { soname, exports } = read_listing(alloc, &file)?;
    let (typed, dwarf) = match with_types(alloc, &file, exports, bytes.len()) {
        Ok(read) => read,
        Err(refused) => return Err(refused),
    };
    Ok(Parts {
        soname,
        typed,
        dwarf,
    })
}

// The library of a readable file, by what was read of it. Its functions get the places of their calls.
#[tactic(auto, using(crate::proofs::LimitLemmas::room_pass, crate::proofs::LimitLemmas::leaves_pass))]
fn library_with<'a, Ix: Index>(
    alloc: Global,
    bytes: &'a [u8],
    soname: Option<&'a [u8]>,
    typed: Typed<'a, Ix>,
) -> Result<Library<'a, Ix>, NoMemory>
    requires small { length bytes.now ≤ input_limit }
    requires readable { library_fault bytes.now ≡ None }
    requires soname { option_copied soname ≡ soname_of bytes.now }
    requires exports { plain_exports typed.exports ≡ typed_exports_of bytes.now }
    requires graph { typed.graph ≡ uncalled_graph_of bytes.now }
    ensures library { IfOk result (λ library. library ≡ library_of bytes.now) }
    ensures past { IfErr result (λ e. OnLimit e (OnTypesPass bytes.now)) }
{
    readable_files_are_libraries();
    let Typed { exports, graph } = typed;
    ask_room(bytes.len(), &graph)?;
    let calls = call_shapes(alloc, &graph)?;
    let graph = graph.with_calls(calls);
    Library::new(alloc, bytes, soname, exports, graph)
}

/// The library that a file is. The fault is the first one of its header and sections, of its symbols, of its dynamic table, of
/// its versions, of its exports, of its units and entries, and of the types that its exports reach. Names are slices of the file;
/// nothing else of the debug information is kept. Returns `NoMemory` past a limit, too: the types may have too many parts or too
/// long names for the size of the file, and the names under which exports are declared may be too long.
#[tactic(auto, using(crate::proofs::LimitLemmas::parts_pass, crate::proofs::LimitLemmas::on_types_pass))]
pub fn read_library<'a, Ix: Index>(
    alloc: Global,
    bytes: &'a [u8],
) -> Result<Library<'a, Ix>, Refusal>
    requires { length bytes.now ≤ input_limit }
    ensures judged { Judges result (library_fault bytes.now) }
    ensures library { IfOk result (λ library. library ≡ library_of bytes.now) }
    ensures past { IfErr result (λ e. OnPast e (LibraryPasses bytes.now)) }
{
    let Parts {
        soname,
        typed,
        dwarf,
    } = match read_parts(alloc, bytes) {
        Ok(parts) => parts,
        Err(refused) => return Err(refused),
    };
    // Call places take memory of their own: the debug information is freed first.
    drop(dwarf);
    let library = library_with(alloc, bytes, soname, typed)?;
    Ok(library)
}

/// A library, and the debug information that it was read from.
#[derive(Drop)]
pub struct WithDebug<'a, Ix: Index> {
    /// The library.
    pub library: Library<'a, Ix>,
    /// The debug information of its file.
    pub dwarf: Dwarf<'a>,
}

/// The library that a file is, and the debug information that it was read from: for callers that need both, which then read the
/// file once. Faults and limits are those of `read_library`.
#[tactic(auto, using(crate::proofs::LimitLemmas::parts_pass, crate::proofs::LimitLemmas::on_types_pass))]
pub fn read_with_debug<'a, Ix: Index>(
    alloc: Global,
    bytes: &'a [u8],
) -> Result<WithDebug<'a, Ix>, Refusal>
    requires { length bytes.now ≤ input_limit }
    ensures judged { Judges result (library_fault bytes.now) }
    ensures library { IfOk result (λ r. r.library ≡ library_of bytes.now) }
    ensures debug { IfOk result (λ r. r.dwarf ≡ debug_of bytes.now) }
    ensures past { IfErr result (λ e. OnPast e (LibraryPasses bytes.now)) }
{
    let Parts {
        soname,
        typed,
        dwarf,
    } = match read_parts(alloc, bytes) {
        Ok(parts) => parts,
        Err(refused) => return Err(refused),
    };
    let library = library_with(alloc, bytes, soname, typed)?;
    Ok(WithDebug { library, dwarf })
}
