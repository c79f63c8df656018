// The type behind typedefs and qualifiers.
ghost use Rattle.std.specs.Prelude.{◌≡◌, ◌<◌, ◌+◌, length, Some, IfSome};
ghost use Rattle.abi_base.specs.Limits.{depth_limit};
ghost use Rattle.type_reach.specs.References as references;
ghost use Rattle.type_notes.specs.Chains as spec;

use dwarf_entries::Dwarf;
use dwarf_forms::DebugInfoOffset;
use dwarf_tree::EntryNumber;
use type_reach::{Role, role_of, type_of};

// The most entries in the chain from a type to the type for which it stands: one by-value step more than a library may have.
pub(crate) const ENTRIES: usize = 513;

// The type behind typedefs, qualifiers, variables and signatures.
fn behind(dwarf: &Dwarf, from: Option<EntryNumber>) -> Option<EntryNumber>
    requires { IfSome from (λ e. e < length dwarf.now.tree.entries) }
    ensures found { result ≡ spec.behind dwarf.now.tree (depth_limit + 1) from }
    ensures inside { IfSome result (λ e. e < length dwarf.now.tree.entries) }
{
    let mut at = from;
    'chain: for passed in 0..ENTRIES {
        match at {
            None => return None,
            Some(e) => match role_of(dwarf, e) {
                Role::Wrapper => at = type_of(dwarf, e),
                _ => return Some(e),
            },
        }
    }
    None
}

// The entry for which the type at an offset stands.
pub(crate) fn core_at(dwarf: &Dwarf, offset: DebugInfoOffset) -> Option<EntryNumber>
    ensures found { result ≡ spec.core_at dwarf.now.tree offset }
    ensures inside { IfSome result (λ e. e < length dwarf.now.tree.entries) }
{
    behind(dwarf, dwarf.find(offset))
}

// The entry for which the type of an entry stands.
pub(crate) fn core_of_type(dwarf: &Dwarf, e: EntryNumber) -> Option<EntryNumber>
    requires { e < length dwarf.now.tree.entries }
    ensures found { result ≡ spec.behind dwarf.now.tree (depth_limit + 1) (references.type_of dwarf.now.tree e) }
    ensures inside { IfSome result (λ e. e < length dwarf.now.tree.entries) }
{
    behind(dwarf, type_of(dwarf, e))
}

// Whether an entry of a role leads on to the type that has its qualifiers.
fn leads_further(role: Role) -> bool
    ensures { result ≡ spec.leads_further role }
{
    matches!(role, Role::Wrapper | Role::Array)
}

// Whether the chain from a type has an entry with a tag, also behind the elements of an array.
fn is_passed(dwarf: &Dwarf, from: Option<EntryNumber>, tag: u64) -> bool
    requires { IfSome from (λ e. e < length dwarf.now.tree.entries) }
    ensures { result ≡ spec.is_passed dwarf.now.tree tag (depth_limit + 1) from }
{
    let mut at = from;
    'chain: for passed in 0..ENTRIES {
        match at {
            None => return false,
            Some(e) => {
                if !leads_further(role_of(dwarf, e)) {
                    return false;
                }
                let here = dwarf.tag(e);
                if here == tag {
                    return true;
                }
                at = type_of(dwarf, e);
            }
        }
    }
    false
}

// Whether the type of an entry has the qualifier with a tag; an array has it if its elements do.
pub(crate) fn has_qualifier(dwarf: &Dwarf, e: EntryNumber, tag: u64) -> bool
    requires { e < length dwarf.now.tree.entries }
    ensures { result ≡ spec.has_qualifier dwarf.now.tree tag e }
{
    is_passed(dwarf, type_of(dwarf, e), tag)
}
