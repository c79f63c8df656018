// The codes of names.
ghost use Rattle.std.specs.Prelude.{◌≡◌};
ghost use Rattle.elf_bind.specs.NameOrder as spec;

use std::hash::{FoldHasher, Hasher};

/// The hash code of a name. A key of a tree has it before the name, so few comparisons of two keys read the names. If names have
/// the same code, the names decide.
#[tactic(auto, unfolding(crate::specs::NameOrder::code_of))]
pub fn code_of(name: &[u8]) -> u64
    ensures { result ≡ spec.code_of name.now }
{
    let mut hasher = FoldHasher::default();
    hasher.write(name);
    hasher.finish()
}
