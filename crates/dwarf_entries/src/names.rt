// The names of entries.
ghost use Rattle.std.specs.Prelude.{◌≡◌, ◌<◌, length};
ghost use Rattle.std.specs.Option.{option_copied};
ghost use Rattle.dwarf_entries.specs.Chains.{name_of};

use crate::source::Source;
use abi_base::dwarf::DW_AT_name;
use dwarf_tree::EntryNumber;

// The name of an entry, along the chain.
#[tactic(auto, unfolding(crate::specs::Chains::name_of), using(crate::proofs::TextLemmas::short_name))]
pub(crate) fn name<'a>(source: &Source<'a>, e: EntryNumber) -> Option<&'a [u8]>
    requires { e < length source.now.tree.entries }
    ensures { option_copied result ≡ name_of source.now e }
{
    if let Some(place) = source.tree().short_text(e, DW_AT_name) {
        return source.str_text(place.get());
    }
    match source.links().held(e, DW_AT_name) {
        Some((holder, value)) => match source.text(holder, &value) {
            Ok(name) => Some(name),
            Err(_) => None,
        },
        None => None,
    }
}
