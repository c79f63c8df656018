//! Laws about generated libraries, as the contracts of functions with empty bodies.
ghost use Rattle.std.specs.Prelude.{◌≡◌, ◌≤◌, ◌<◌, ℕ, length};
ghost use Rattle.std.specs.List.{flat_map, range_with_len};
ghost use Rattle.abi_base.specs.Limits.{input_limit};
ghost use Rattle.trial_libraries.specs.declared.making.Side.{Side as AnySide};
ghost use Rattle.trial_libraries.specs.Libraries.{library};
ghost use Rattle.trial_libraries.specs.Limits.{most_functions};
ghost use Rattle.trial_libraries.specs.Units.{HasAt, functions_of, int, int_place, pointer, pointer_place, structure, structure_place, unit, unit_count};

use crate::making::MOST_FUNCTIONS;

/// The limit in the code is the one in the contracts.
pub fn the_limit_of_functions_is_as_said()
    ensures { MOST_FUNCTIONS ≡ most_functions }
{}

/// A generated library is within the limit on inputs.
pub fn made_libraries_are_no_longer_than_inputs()
    ensures { (n : ℕ) (side : AnySide) → n ≤ most_functions → length (library n side) ≤ input_limit }
{}

/// The units of a generated library have each of its functions once, in order.
pub fn units_have_each_function_once()
    ensures { (n : ℕ) → flat_map (functions_of n) (range_with_len 0 (unit_count n)) ≡ range_with_len 0 n }
{}

/// References lead to the entries that they are meant for: in each unit, `int`, each pointer of its ring and each structure.
pub fn references_lead_to_entries()
    ensures int { (n k u : ℕ) → HasAt (unit n k u) int_place int }
    ensures pointers { (n k u j : ℕ) → j < k → HasAt (unit n k u) (pointer_place j) (pointer k j) }
    ensures structures { (n k u j : ℕ) → j < k → HasAt (unit n k u) (structure_place k j) (structure k j) }
{}
