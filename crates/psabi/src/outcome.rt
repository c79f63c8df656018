// The places of results (psABI, section 3.2.3 "Parameter Passing", "Returning of Values").
ghost use Rattle.std.specs.Prelude.{◌≡◌, ◌<◌, length};
ghost use Rattle.abi_types.specs.Graphs.{view_at};
ghost use Rattle.psabi.specs.Found.{IsRight};
ghost use Rattle.psabi.specs.Psabi.{eightbyte_limit};
ghost use Rattle.psabi.specs.Results.{outcome_of, registers_of_result as what_the_result_takes};
ghost use Rattle.psabi.specs.Results as spec;

use crate::argument_registers::ArgumentRegisters;
use crate::class::{Class, has_memory};
use crate::classification::classes_with;
use crate::found::Found;
use crate::registers::{general_count, has_no_place, vector_count};
use crate::sizes::EIGHTBYTES;
use abi_types::{Graph, Index, Place, Slot};

// The numbers of general registers for results, in the order rdi, rsi, rdx, rcx, r8, r9, rax.
const RDX: u8 = 2;

const RAX: u8 = 6;

// The number of the top register of the x87 stack.
const ST0: u8 = 0;

// The number of eightbytes in an x87 register.
const X87_EIGHTBYTES: usize = 2;

// The general register for the next eightbyte of a result, after `general` eightbytes in general registers.
fn result_register(general: u64) -> u8
    ensures { result ≡ spec.result_register general }
{
    if general == 0 { RAX } else { RDX }
}

// The slot of an eightbyte of a result in registers.
fn result_slot(classes: &[Class; 8], k: usize) -> Slot
    requires { k < eightbyte_limit }
    ensures { result ≡ spec.result_slot classes.now k }
{
    let before = &classes[..k];
    match classes[k] {
        Class::Integer => Slot::General(result_register(general_count(before))),
        Class::Sse => Slot::Vector(vector_count(before) as u8),
        Class::SseUp => Slot::Upper(vector_count(before).saturating_sub(1) as u8),
        Class::X87 | Class::X87Up => Slot::X87(ST0),
        Class::ComplexX87 => Slot::X87((k / X87_EIGHTBYTES) as u8),
        _ => Slot::Unused,
    }
}

// The slots of a result in registers.
fn result_slots(classes: &[Class; 8]) -> [Slot; 8]
    ensures { result ≡ spec.result_slots classes.now }
{
    let mut slots = [Slot::Unused; 8];
    for k in 0..EIGHTBYTES {
        slots[k] = result_slot(classes, k);
    }
    slots
}

// The place of a result with this size and these classes.
#[tactic(auto, unfolding(crate::specs::Results::result_place))]
fn result_place(size: u64, classes: &[Class; 8]) -> Place
    ensures { result ≡ spec.result_place size classes.now }
{
    if has_no_place(size, classes) {
        return Place::Nothing;
    }
    if has_memory(classes) {
        return Place::Hidden;
    }
    Place::Registers {
        eightbytes: result_slots(classes),
    }
}

/// The place of the result of a function.
pub fn outcome<Ix: Index>(graph: &Graph<Ix>, ix: Ix, found: &mut [Found]) -> Place
    requires inside { Ix.number_of ix < length graph.now }
    requires right { IsRight graph.now found.now }
    ensures right { IsRight graph.now found.new }
    ensures place { result ≡ outcome_of graph.now (view_at graph.now (Ix.number_of ix)) }
{
    graph.known();
    let view = graph.view(ix);
    if view.parts_len() == 0 {
        return Place::Nothing;
    }
    match view.part(0).to() {
        None => Place::Nothing,
        Some(to) => {
            let result = graph.view(to);
            let classes = classes_with(graph, to, found);
            result_place(result.size, &classes)
        }
    }
}

/// The argument registers that a result takes: the address of a hidden result takes the first general one.
pub fn registers_of_result(outcome: &Place) -> ArgumentRegisters
    ensures { result ≡ what_the_result_takes outcome.now }
{
    let general = match outcome {
        Place::Hidden => 1,
        _ => 0,
    };
    ArgumentRegisters {
        general,
        vector: 0,
        stack: 0,
    }
}
