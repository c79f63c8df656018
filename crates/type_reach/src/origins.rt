// The entries from which functions take their parameters. Many functions may share one; the entries below it are looked up once.
ghost use Rattle.std.specs.Prelude.{◌≡◌, ◌<◌, ℕ, if◌then◌else◌, ◌==◌, length, Some, None, IfSome, OnOk, IfErr};
ghost use Rattle.std.specs.Option.{option_map_or, option_or};
ghost use Rattle.abi_base.specs.declared.fault.NoMemory.TheVariants.{Allocation};
ghost use Rattle.type_reach.specs.declared.role.Role.TheVariants as roles;
ghost use Rattle.type_reach.specs.References as spec;
ghost use Rattle.type_reach.specs.Origins.{is_some_entry, number_under};

use crate::references::body_of;
use crate::role::Role;
use abi_base::NoMemory;
use dwarf_entries::Dwarf;
use dwarf_tree::EntryNumber;
use std::alloc::Global;
use std::collections::BTreeMap;

// The entry below which the parameters of a function are, if that is another entry.
pub(crate) fn other_body(dwarf: &Dwarf, e: EntryNumber, role: Role) -> Option<EntryNumber>
    requires inside { e < length dwarf.now.tree.entries }
    requires role { role ≡ spec.role_of dwarf.now.tree e }
    ensures role { IfSome result (λ b. spec.role_of dwarf.now.tree e ≡ roles.Function) }
    ensures body { IfSome result (λ b. b ≡ spec.body_of dwarf.now.tree e) }
{
    match role {
        Role::Function => {
            let body = body_of(dwarf, e);
            if body == e { None } else { Some(body) }
        }
        _ => None,
    }
}

// For each such entry the number of the first function that shares it.
#[derive(Drop)]
pub(crate) struct Origins {
    numbers: BTreeMap<EntryNumber, usize>,
}

impl Origins {
    // None yet.
    pub(crate) fn new(alloc: Global) -> Origins
        ensures { (b : ℕ) → number_under result b ≡ None }
    {
        Origins {
            numbers: BTreeMap::new(alloc),
        }
    }

    // The number of the first function that takes its parameters from this entry.
    pub(crate) fn first_with(&self, origin: &Option<EntryNumber>) -> Option<usize>
        ensures { result ≡ option_map_or (number_under self.now) origin.now None }
    {
        match origin {
            Some(body) => self.numbers.get(body).copied(),
            None => None,
        }
    }

    // Notes the number of a function that takes its parameters from this entry, if it is the first one.
    pub(crate) fn keep(
        &mut self,
        origin: Option<EntryNumber>,
        number: usize,
    ) -> Result<(), NoMemory>
        ensures numbers { OnOk result ((b : ℕ) → number_under self.new b
            ≡ option_or (number_under self.old b) (if is_some_entry b origin then Some number else None)) }
        ensures named { IfErr result (λ e. e ≡ Allocation) }
    {
        if let Some(body) = origin {
            if !self.numbers.contains_key(&body) {
                self.numbers.insert(body, number)?;
            }
        }
        Ok(())
    }
}
