// The registers and the stack space that arguments take (psABI, section 3.2.3 "Parameter Passing", "Passing").
ghost use Rattle.std.specs.Prelude.{◌≡◌, ◌<◌, ◌≤◌, ◌+◌, ◌^◌};
ghost use Rattle.std.specs.List.{list_any};
ghost use Rattle.abi_types.specs.Limits.{size_limit, align_limit, align_room, room_limit};
ghost use Rattle.psabi.specs.Arguments.{is_stacked};
ghost use Rattle.psabi.specs.Arguments as spec;
ghost use Rattle.psabi.specs.Psabi.{eightbyte_limit, general_registers, vector_registers};

use crate::class::Class;
use crate::registers::{general_count, has_no_place, vector_count};
use crate::sizes::{EIGHTBYTE, EIGHTBYTES};
use abi_types::{Place, Slot};

// The number of general registers for arguments: rdi, rsi, rdx, rcx, r8 and r9.
const GENERAL_REGISTERS: u64 = 6;

// The number of vector registers for arguments: xmm0 to xmm7.
const VECTOR_REGISTERS: u64 = 8;

// The alignment of the stack argument area.
const STACK_ALIGNMENT: u64 = 16;

/// The registers and the stack space that earlier arguments take.
#[derive(Clone, Copy)]
pub struct ArgumentRegisters {
    /// How many of the general argument registers are taken.
    pub general: u64,
    /// How many of the vector argument registers are taken.
    pub vector: u64,
    /// The end of the taken part of the stack argument area.
    pub stack: u64,
}

fn has_memory_class(classes: &[Class]) -> bool
    ensures { result ≡ list_any is_stacked classes.now }
{
    classes.iter().any(|class| {
        matches!(
            *class,
            Class::X87 | Class::X87Up | Class::ComplexX87 | Class::Memory
        )
    })
}

// Whether an argument is passed on the stack.
#[tactic(auto, unfolding(crate::specs::Arguments::goes_to_stack))]
fn goes_to_stack(taken: ArgumentRegisters, classes: &[Class; 8]) -> bool
    requires general { taken.general ≤ general_registers }
    requires vector { taken.vector ≤ vector_registers }
    ensures { result ≡ spec.goes_to_stack taken classes.now }
{
    if has_memory_class(classes) {
        return true;
    }
    let general = taken.general + general_count(classes);
    let vector = taken.vector + vector_count(classes);
    if general > GENERAL_REGISTERS {
        return true;
    }
    vector > VECTOR_REGISTERS
}

// The offset of the next argument on the stack.
#[tactic(auto, unfolding(crate::specs::Arguments::stack_offset))]
fn stack_offset(end: u64, align: u64) -> u64
    requires end { end ≤ room_limit }
    requires align { align ≤ align_limit }
    ensures { result ≡ spec.stack_offset end align }
{
    let step = if align < STACK_ALIGNMENT {
        EIGHTBYTE
    } else {
        align
    };
    (end + (step - 1)) / step * step
}

// The stack space of an argument, in bytes.
#[tactic(auto, unfolding(crate::specs::Arguments::stack_size))]
fn stack_size(size: u64) -> u64
    requires { size ≤ size_limit }
    ensures { result ≡ spec.stack_size size }
{
    (size + (EIGHTBYTE - 1)) / EIGHTBYTE * EIGHTBYTE
}

// The slot of an eightbyte of an argument in registers.
fn argument_slot(taken: ArgumentRegisters, classes: &[Class; 8], k: usize) -> Slot
    requires general { taken.general ≤ general_registers }
    requires vector { taken.vector ≤ vector_registers }
    requires k { k < eightbyte_limit }
    ensures { result ≡ spec.argument_slot taken classes.now k }
{
    let before = &classes[..k];
    match classes[k] {
        Class::Integer => Slot::General((taken.general + general_count(before)) as u8),
        Class::Sse => Slot::Vector((taken.vector + vector_count(before)) as u8),
        Class::SseUp => Slot::Upper((taken.vector + vector_count(before)).saturating_sub(1) as u8),
        _ => Slot::Unused,
    }
}

// The slots of an argument in registers.
fn argument_slots(taken: ArgumentRegisters, classes: &[Class; 8]) -> [Slot; 8]
    requires general { taken.general ≤ general_registers }
    requires vector { taken.vector ≤ vector_registers }
    ensures { result ≡ spec.argument_slots taken classes.now }
{
    let mut slots = [Slot::Unused; 8];
    for k in 0..EIGHTBYTES {
        slots[k] = argument_slot(taken, classes, k);
    }
    slots
}

impl ArgumentRegisters {
    /// The place of an argument with this size and alignment in bytes and these classes. Its registers or stack space count as
    /// taken for later arguments.
    pub fn place(&mut self, bytes: u64, align: u64, classes: &[Class; 8]) -> Place
        requires general { self.now.general ≤ general_registers }
        requires vector { self.now.vector ≤ vector_registers }
        requires stack { self.now.stack ≤ room_limit }
        requires size { bytes ≤ size_limit }
        requires align { align ≤ align_limit }
        ensures place { result ≡ spec.place_in self.old bytes align classes.now }
        ensures taken { self.new ≡ spec.taken_with self.old bytes align classes.now }
        ensures general { self.new.general ≤ general_registers }
        ensures vector { self.new.vector ≤ vector_registers }
        ensures stack { self.new.stack ≤ self.old.stack + (bytes + align_room) }
    {
        let before = *self;
        if has_no_place(bytes, classes) {
            return Place::Nothing;
        }
        if goes_to_stack(before, classes) {
            let offset = stack_offset(before.stack, align);
            let size = stack_size(bytes);
            self.stack = offset + size;
            return Place::Stack { offset, size };
        }
        self.general = before.general + general_count(classes);
        self.vector = before.vector + vector_count(classes);
        Place::Registers {
            eightbytes: argument_slots(before, classes),
        }
    }
}
