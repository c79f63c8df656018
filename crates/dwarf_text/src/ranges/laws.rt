//! Laws about range lists, as the contracts of functions with empty bodies.
ghost use Rattle.std.specs.Prelude.{ℕ, List, Option};
ghost use Rattle.abi_base.specs.Runs.{Chain};
ghost use Rattle.dwarf_text.specs.ranges.RangeLists.{State, list_step, list_run, pair_step, pair_run};

/// The entries of a list follow one another from its offset on, and the list ends after the last one.
pub fn entries_stand_one_after_another()
    ensures lists { (addr : List ℕ) (addr_base : Option ℕ) (entry : ℕ) (bytes : List ℕ) (s : State)
        → Chain (list_step addr addr_base entry bytes) s (list_run addr addr_base entry bytes s).items
        (list_run addr addr_base entry bytes s).end }
    ensures pairs { (entry : ℕ) (bytes : List ℕ) (s : State)
        → Chain (pair_step entry bytes) s (pair_run entry bytes s).items (pair_run entry bytes s).end }
{}
