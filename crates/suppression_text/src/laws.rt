//! Laws of the faults of rule files. The functions do nothing.
ghost use Rattle.std.specs.Prelude.{◌≡◌, ℕ, List, Some, None};
ghost use Rattle.abi_base.specs.declared.fault.Fault.{Fault};
ghost use Rattle.suppression_text.specs.Faults.{rule_fault};
ghost use Rattle.suppression_text.specs.FirstFaults.{IsFirstFault, IsFaultless};

/// The fault of a rule file is that of its text; else that of the first line that has one, with the number of that line; else that
/// of the first section that selects nothing.
pub fn a_fault_is_the_first_one()
    ensures { (bytes : List ℕ) (f : Fault) → rule_fault bytes ≡ Some f → IsFirstFault bytes f }
{}

/// A rule file without a fault is UTF-8, none of its lines has a fault, and each of its sections selects something.
pub fn without_a_fault_nothing_is_wrong()
    ensures { (bytes : List ℕ) → rule_fault bytes ≡ None → IsFaultless bytes }
{}
