// Lists that may gain an item.
ghost use Rattle.std.specs.Prelude.{◌≡◌, ◌++◌, option_to_list, OnOk, IfErr};
ghost use Rattle.abi_base.specs.declared.fault.NoMemory.TheVariants.{Allocation};

use abi_base::{List, NoMemory};

/// Appends the item of an option, if it has one.
pub fn push_some<T: Drop>(list: &mut List<T>, item: Option<T>) -> Result<(), NoMemory>
    ensures appended { OnOk result (list.new ≡ list.old ++ option_to_list item) }
    ensures named { IfErr result (λ e. e ≡ Allocation) }
{
    match item {
        None => Ok(()),
        Some(item) => list.push(item),
    }
}
