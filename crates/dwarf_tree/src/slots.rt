// Slots: where the values of an abbreviation's entries begin.
ghost use Rattle.std.specs.Prelude.{◌≡◌, ◌<◌, ◌≤◌, ◌^◌, length, true, IfErr, IfSome, OnOk, Some};
ghost use Rattle.abi_base.specs.declared.fault.NoMemory.TheVariants.{Allocation};
ghost use Rattle.dwarf_forms.specs.Values.{fixed_size_of, shape_of};
ghost use Rattle.dwarf_tree.specs.Keeping.{AreSlots, Extends, IsAsked, IsSlotFor, IsSlotOf, PassSame};
ghost use Rattle.dwarf_tree.specs.Keeping as keeping;

use crate::entry_records::{AbbreviationLayout, FORM_UNKNOWN, Slot};
use crate::names::is_asked;
use abi_base::NoMemory;
use dwarf_forms::abbreviations::{Spec, next_spec};
use dwarf_forms::laws::values_of_a_fixed_size_end_behind_it;
use dwarf_forms::{fixed_end, fixed_size};

// The most slots of an abbreviation.
const MOST_SLOTS: usize = 255;

// The slot of an attribute specification whose value begins `from` bytes after the code. None where one of its numbers has more
// than one byte, as in extensions.
fn slot_of(spec: Spec, from: usize) -> Option<Slot>
    requires { from < 2 ^ 16 }
    ensures { IfSome result (IsSlotOf spec from) }
{
    let Ok(attribute) = u8::try_from(spec.attribute) else {
        return None;
    };
    let Ok(form) = u8::try_from(spec.form) else {
        return None;
    };
    Some(Slot {
        attribute,
        form: if spec.implicit == 0 {
            form
        } else {
            FORM_UNKNOWN
        },
        from: from as u16,
    })
}

// Whether an attribute specification gets no slot: readers do not use its attribute, and its values take no bytes.
fn is_passed(spec: Spec) -> bool
    ensures other { result ≡ true → keeping.bit_of spec.attribute ≡ 63 }
    ensures sized { result ≡ true → fixed_size_of (shape_of spec.form) ≡ Some 0 }
{
    !is_asked(spec.attribute) && matches!(fixed_size(spec.form), Some(0))
}

// The offset of the next specification that gets a slot. It only saves time: the specifications that it skips could have slots too.
#[tactic(auto, using(crate::proofs::SlotLemmas::passed_self, crate::proofs::SlotLemmas::passed_next))]
fn pass_unasked(abbrevs: &[u8], from: usize) -> usize
    ensures { PassSame abbrevs.now result from }
{
    values_of_a_fixed_size_end_behind_it();
    let mut pairs = from;
    'pairs: while let Some((spec, next)) = next_spec(abbrevs, pairs) {
        if !is_passed(spec) {
            return pairs;
        }
        pairs = next;
    }
    pairs
}

// Appends the slots of the attribute specifications at an offset in `.debug_abbrev`. There are never more slots than that section
// has bytes.
pub(crate) fn push_slots(
    abbrevs: &[u8],
    specs_from: usize,
    slots: &mut Vec<Slot>,
) -> Result<(), NoMemory>
    requires { length slots.old.items < 2 ^ 32 }
    ensures lead { OnOk result (AreSlots abbrevs.now specs_from slots.new.items (length slots.old.items)
        (length slots.new.items)) }
    ensures extended { Extends slots.old.items slots.new.items }
    ensures few { length slots.new.items < 2 ^ 32 }
    ensures named { IfErr result (λ e. e ≡ Allocation) }
{
    values_of_a_fixed_size_end_behind_it();
    let most = abbrevs.len().min(u32::MAX as usize);
    let last = slots.len().saturating_add(MOST_SLOTS).min(most);
    let mut pairs = specs_from;
    let mut from = 0;
    'pairs: while slots.len() < last {
        let first = pass_unasked(abbrevs, pairs);
        let Some((spec, next)) = next_spec(abbrevs, first) else {
            return Ok(());
        };
        let Some(slot) = slot_of(spec, from) else {
            return Ok(());
        };
        slots.push(slot)?;
        let Some(after) = fixed_end(spec.form, u64::from(u16::MAX), from) else {
            return Ok(());
        };
        pairs = next;
        from = after;
    }
    Ok(())
}

// The first slot of a shape for an attribute in the list of `names`.
#[inline(always)]
pub(crate) fn slot_for(slots: &[Slot], shape: AbbreviationLayout, name: u64) -> Option<Slot>
    requires { shape.slots_to ≤ length slots.now }
    ensures found { IfSome result (λ slot. IsSlotFor slots.now shape.slots_from shape.slots_to name slot) }
    ensures asked { IfSome result (λ slot. IsAsked name) }
{
    if !is_asked(name) {
        return None;
    }
    for place in shape.slots_from..shape.slots_to {
        let slot = slots[place as usize];
        if u64::from(slot.attribute) == name {
            return Some(slot);
        }
    }
    None
}
