// The printed form of the place of an argument or a result.
ghost use Rattle.std.specs.Prelude.{◌≡◌, ◌<◌, ◌≤◌, ◌++◌, length, take, OnOk, count_by, string_bytes};
ghost use Rattle.std.specs.List.{list_any};
ghost use Rattle.report.specs.Places.{place_text, plus_behind, register_text, registers_text, slot_at, slot_text, vector_text};
ghost use Rattle.report.specs.Places as spec;

use abi_types::{Place, Slot};
use std::alloc::{AllocError, Global};
use std::fmt::Write;

// The name of the general register with a number.
fn general_word(number: u8) -> &'static str
    ensures { result.now ≡ spec.general_word number }
{
    match number {
        0 => "rdi",
        1 => "rsi",
        2 => "rdx",
        3 => "rcx",
        4 => "r8",
        5 => "r9",
        6 => "rax",
        _ => "",
    }
}

// Whether an eightbyte is in a register.
fn is_used(slot: Slot) -> bool
    ensures { result ≡ spec.is_used slot }
{
    match slot {
        Slot::Unused => false,
        _ => true,
    }
}

// Whether two eightbytes are in one register.
fn same_register(a: Slot, b: Slot) -> bool
    ensures { result ≡ spec.same_register a b }
{
    match (a, b) {
        (Slot::General(m), Slot::General(n)) => m == n,
        (Slot::Vector(m), Slot::Vector(n)) => m == n,
        (Slot::Vector(m), Slot::Upper(n)) => m == n,
        (Slot::Upper(m), Slot::Vector(n)) => m == n,
        (Slot::Upper(m), Slot::Upper(n)) => m == n,
        (Slot::X87(m), Slot::X87(n)) => m == n,
        _ => false,
    }
}

// The number of slots in the register of a slot.
fn eightbytes_in(slots: &[Slot], slot: Slot) -> usize
    ensures { result ≡ count_by (spec.same_register slot) slots.now }
{
    slots
        .iter()
        .filter(|other| same_register(slot, **other))
        .count()
}

// Whether some slot is in the register of a slot.
fn is_in_some(slots: &[Slot], slot: Slot) -> bool
    ensures { result ≡ list_any (spec.same_register slot) slots.now }
{
    slots.iter().any(|other| same_register(slot, *other))
}

// Whether some slot is in a register.
fn are_some_used(slots: &[Slot]) -> bool
    ensures { result ≡ list_any spec.is_used slots.now }
{
    slots.iter().any(|slot| is_used(*slot))
}

// Appends a vector register, with the number of eightbytes that it holds if there are several.
fn push_vector(text: &mut String, number: u8, eightbytes: usize) -> Result<(), AllocError>
    ensures { OnOk result (string_bytes text.new ≡ string_bytes text.old ++ vector_text number eightbytes) }
{
    if eightbytes <= 1 {
        write!(text, "xmm{number}")
    } else {
        write!(text, "xmm{number}*{eightbytes}")
    }
}

// Appends the register of one of the slots.
fn push_register(text: &mut String, slots: &[Slot], slot: Slot) -> Result<(), AllocError>
    ensures { OnOk result (string_bytes text.new ≡ string_bytes text.old ++ register_text slots.now slot) }
{
    match slot {
        Slot::Unused => Ok(()),
        Slot::General(number) => text.push_str(general_word(number)),
        Slot::Vector(number) => push_vector(text, number, eightbytes_in(slots, slot)),
        Slot::Upper(number) => push_vector(text, number, eightbytes_in(slots, slot)),
        Slot::X87(number) => write!(text, "st{number}"),
    }
}

// Whether slot `k` is the first one in its register.
fn begins_register(slots: &[Slot], k: usize) -> bool
    requires { k < length slots.now }
    ensures { result ≡ spec.begins_register slots.now k }
{
    is_used(slots[k]) && !is_in_some(&slots[..k], slots[k])
}

// Appends a separator if some register precedes.
fn push_plus(text: &mut String, before: &[Slot]) -> Result<(), AllocError>
    ensures { OnOk result (string_bytes text.new ≡ string_bytes text.old ++ plus_behind before.now) }
{
    if are_some_used(before) {
        text.push_str("+")
    } else {
        Ok(())
    }
}

// Appends the text of slot `k`.
#[tactic(auto, unfolding(crate::specs::Places::slot_text))]
fn push_slot(text: &mut String, slots: &[Slot], k: usize) -> Result<(), AllocError>
    requires { k < length slots.now }
    ensures { OnOk result (string_bytes text.new ≡ string_bytes text.old ++ slot_text slots.now k) }
{
    if !begins_register(slots, k) {
        return Ok(());
    }
    push_plus(text, &slots[..k])?;
    push_register(text, slots, slots[k])
}

// Appends the registers of the slots.
#[tactic(auto, unfolding(crate::specs::Places::registers_text))]
fn push_registers(text: &mut String, slots: &[Slot]) -> Result<(), AllocError>
    ensures { OnOk result (string_bytes text.new ≡ string_bytes text.old ++ registers_text slots.now) }
{
    for k in 0..slots.len() {
        push_slot(text, slots, k)?;
    }
    Ok(())
}

/// Appends the printed form of a place: `none`; `memory` if the caller passes its address; `stack+OFFSET:SIZE`; or the registers of
/// its eightbytes, each once, joined by `+`. If a vector register holds several eightbytes, `*` and their number follow it.
pub fn push_place(text: &mut String, place: &Place) -> Result<(), AllocError>
    ensures { OnOk result (string_bytes text.new ≡ string_bytes text.old ++ place_text place.now) }
{
    match place {
        Place::Nothing => text.push_str("none"),
        Place::Hidden => text.push_str("memory"),
        Place::Stack { offset, size } => write!(text, "stack+{offset}:{size}"),
        Place::Registers { eightbytes } => push_registers(text, eightbytes),
    }
}
