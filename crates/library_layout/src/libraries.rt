// The layout of a structure in a library, from the library's bytes.
ghost use Rattle.std.specs.Prelude.{◌≡◌, ◌≤◌, ◌↔◌, [], ◌∷◌, length, None, OnOk, IfOk, IfErr, IsTrue, map};
ghost use Rattle.abi_base.specs.Limits.{input_limit};
ghost use Rattle.abi_base.specs.declared.fault.NoMemory.TheVariants.{Allocation};
ghost use Rattle.commands.specs.Faults.{AreReadable, StopsAt, StopsOn};
ghost use Rattle.library_read.specs.Faults.{library_fault};
ghost use Rattle.library_read.specs.Libraries.{library_of};
ghost use Rattle.library_read.specs.Limits.{LibraryPasses};
ghost use Rattle.library_layout.specs.Command.{layout_asks, layout_passes, layout_says, no_tag_text};
ghost use Rattle.library_layout.specs.Near.{AreNearTags, AreNearestTags, IsDeclaredTag, IsOtherTag};

use crate::laws::a_layout_covers_each_bit;
use crate::layouts::{is_declared, laid_in};
use crate::near::near_in;
use crate::others::{OtherTag, other_in};
use abi_base::NoMemory;
use abi_types::{Library, OldIx};
use commands::{Input, Judgement, Stop, Verdict, stop_at};
use library_read::read_library;
use std::alloc::Global;

/// Help for a tag that no structure with a definition has.
#[derive(Drop)]
pub struct NearTags<'a> {
    /// Whether a structure with this tag is declared.
    pub is_declared: bool,
    /// The type beside structures that has this tag.
    pub other: Option<OtherTag>,
    /// Tags of other structures, the most similar one first.
    pub tags: Vec<&'a [u8]>,
}

// Reads the library in a file.
fn read(alloc: Global, bytes: &[u8]) -> Result<Library<'_, OldIx>, Stop>
    requires { length bytes.now ≤ input_limit }
    ensures readable { OnOk result (library_fault bytes.now ≡ None) }
    ensures library { IfOk result (λ library. library ≡ library_of bytes.now) }
    ensures stops { IfErr result (StopsOn Input.Library (library_fault bytes.now) (LibraryPasses bytes.now)) }
{
    match read_library(alloc, bytes) {
        Ok(library) => Ok(library),
        Err(refusal) => Err(stop_at(Input::Library, refusal)),
    }
}

// The line about a tag that no structure has.
fn no_tag(alloc: Global) -> Result<Vec<u8>, NoMemory>
    ensures made { IfOk result (λ text. text.items ≡ no_tag_text) }
    ensures named { IfErr result (λ e. e ≡ Allocation) }
{
    Ok(String::from_str(alloc, "refused 85 NoTag 0\n")?.into_bytes())
}

/// The layout of the structure with a tag that the exports of the library reach: its members and, if none overlap and none ends
/// outside, the holes between them and the padding after them; otherwise the overlaps and the members that end outside. If several
/// structures have the tag, the one with the earliest entry counts. If none has it, the tag is refused. Err means that the library is
/// unreadable or memory ran out.
#[tactic(auto, using(crate::proofs::LimitLemmas::reading_passes, crate::proofs::LimitLemmas::tag_passes_in))]
pub fn layout_of(alloc: Global, library: &[u8], tag: &str) -> Result<Judgement, Stop>
    requires { length library.now ≤ input_limit }
    ensures readable { OnOk result (AreReadable layout_asks (library.now ∷ [])) }
    ensures said { IfOk result (λ j. layout_says tag.now (library.now ∷ []) j.verdict j.untyped j.text.items) }
    ensures stops { IfErr result (StopsAt layout_asks (layout_passes tag.now) (library.now ∷ [])) }
{
    a_layout_covers_each_bit();
    let types = read(alloc, library)?;
    match laid_in(alloc, types.graph(), tag.as_bytes(), library.len())? {
        Some(text) => Ok(Judgement {
            verdict: Verdict::Done,
            untyped: None,
            text,
        }),
        None => Ok(Judgement {
            verdict: Verdict::Refused,
            untyped: None,
            text: no_tag(alloc)?,
        }),
    }
}

/// Tags similar to one for which `layout_of` finds no structure: up to five tags of structures with a definition that the exports
/// of the library reach, the most similar one first, whether a structure with the given tag is declared, and whether a union or an
/// enumeration has it. Only the first 64 bytes of tags are compared. Err means that the library is unreadable or memory ran out. The
/// only limits that can be passed are those on reading the library.
pub fn near_tags<'a>(alloc: Global, library: &'a [u8], tag: &str) -> Result<NearTags<'a>, Stop>
    requires short { length library.now ≤ input_limit }
    ensures readable { OnOk result (library_fault library.now ≡ None) }
    ensures few { IfOk result (λ near. length near.tags.items ≤ 5) }
    ensures reached { IfOk result (λ near. AreNearTags library.now (map (λ t. t.now) near.tags.items)) }
    ensures nearest { IfOk result (λ near. AreNearestTags library.now tag.now (map (λ t. t.now) near.tags.items)) }
    ensures declared { IfOk result (λ near. IsTrue near.is_declared ↔ IsDeclaredTag library.now tag.now) }
    ensures other { IfOk result (λ near. IsOtherTag library.now tag.now near.other) }
    ensures stops { IfErr result (StopsOn Input.Library (library_fault library.now) (LibraryPasses library.now)) }
{
    let reached = read(alloc, library)?;
    let is_declared = is_declared(reached.graph(), tag.as_bytes());
    let other = other_in(reached.graph(), tag.as_bytes());
    let tags = near_in(alloc, reached.graph(), tag.as_bytes())?;
    Ok(NearTags {
        is_declared,
        other,
        tags,
    })
}
