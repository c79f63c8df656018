//! Laws about classes and places, as the contracts of functions with empty bodies.
ghost use Rattle.psabi.specs.Laws.{LargeObjectsAreInMemory, StackTakesNoRegister, ArgumentsShareNoRegister, ArgumentsHoldTheirRegisters, HiddenResultsKeepRdi, StackPlacesAscend, EachParameterHasAPlace, PlacesAreCounted, RegistersAreCounted, RoundedIsFirst, StackPlacesAddUp, CallsStayInShapedGraphs, GivenCallsAreRight, GivenCallsHavePlaces};

use abi_types::laws::{params_are_counted, shapes_change_calls_alone};

/// An object larger than 64 bytes is in memory, whatever it consists of.
pub fn large_objects_have_memory_class()
    ensures { LargeObjectsAreInMemory }
{}

/// An argument on the stack takes no registers.
pub fn the_stack_takes_no_register()
    ensures { StackTakesNoRegister }
{}

/// No register holds parts of two arguments of a call.
pub fn arguments_share_no_register()
    ensures { ArgumentsShareNoRegister }
{}

/// Arguments are in rdi, rsi, rdx, rcx, r8 and r9, and in xmm0 to xmm7, and in no other registers.
pub fn arguments_hold_their_registers()
    ensures { ArgumentsHoldTheirRegisters }
{}

/// Where the result is in memory whose address the caller passes, no argument is in rdi, which holds that address.
pub fn hidden_results_keep_rdi()
    ensures { HiddenResultsKeepRdi }
{}

/// An argument on the stack begins at or after the end of each earlier one.
pub fn stack_places_ascend()
    ensures { StackPlacesAscend }
{}

/// The call of a function has a place for each of its parameters.
pub fn each_parameter_has_a_place()
    ensures { EachParameterHasAPlace }
{
    params_are_counted();
}

/// The places of a call are the only list in which each argument has the place that the arguments before it leave to it. An
/// argument without bytes or classes has no place. If no class needs the stack and enough registers remain, an argument is in the
/// integer and SSE registers after those that the address of a hidden result and earlier arguments take. Otherwise it is on the
/// stack, at the first offset with its alignment past all earlier arguments there.
pub fn places_are_counted()
    ensures { PlacesAreCounted }
{}

/// An argument in registers takes as many integer and SSE registers as its classes need.
pub fn registers_are_counted()
    ensures { RegistersAreCounted }
{}

/// An offset on the stack is rounded up to the next multiple of 8, or of the alignment where that is 16 or more.
pub fn rounded_is_first()
    ensures { RoundedIsFirst }
{}

/// If no argument up to this one has an alignment of 16 or more, its offset on the stack is the sum of the sizes of the
/// places before it.
pub fn stack_places_add_up()
    ensures { StackPlacesAddUp }
{}

/// The call shape of a node is the same in a graph and in that graph with any call shapes.
pub fn calls_stay_in_shaped_graphs()
    ensures { CallsStayInShapedGraphs }
{
    shapes_change_calls_alone();
}

/// In a graph that is given its nodes' call shapes, each node has its own call shape.
pub fn given_calls_are_right()
    ensures { GivenCallsAreRight }
{
    shapes_change_calls_alone();
}

/// A graph that is given its nodes' call shapes has a place for each parameter, as the graph of a library has.
pub fn given_calls_have_places()
    ensures { GivenCallsHavePlaces }
{
    params_are_counted();
    shapes_change_calls_alone();
}
