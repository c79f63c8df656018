//! Laws of the comparison of two libraries. Each law is the contract of a function that only cites the laws below it.
ghost use Rattle.std.specs.Prelude.{◌≡◌, ◌↔◌, ℕ, [], List, Option, Some, None, map, slice_get};
ghost use Rattle.abi_base.specs.Outcome.{first};
ghost use Rattle.abi_types.specs.declared.library.Marks.{Marks};
ghost use Rattle.abi_types.specs.Exports.{PlainExport};
ghost use Rattle.abi_types.specs.Graphs.{IsGraph};
ghost use Rattle.abi_types.specs.Libraries.{PlainLibrary};
ghost use Rattle.elf.specs.symbols.Symbols.{PlainSymbol};
ghost use Rattle.elf.specs.versions.Versions.{PlainVersion};
ghost use Rattle.elf_bind.specs.Binding.{bind_to};
ghost use Rattle.elf_bind.specs.Exports.{duplicate_faults, export_fault, exports_with};
ghost use Rattle.type_classes.specs.Classes.{AreSound, PlainClasses};
ghost use Rattle.pair_explorer.specs.ByClass.{IsSound};
ghost use Rattle.cert_check.specs.Compatible.{IsCompatible, Sides, sides};
ghost use Rattle.pair_compare.specs.declared.comparing.Comparison.{Comparison};
ghost use Rattle.pair_compare.specs.Distinct.{AreDistinct, name_and_version};
ghost use Rattle.pair_compare.specs.Explored.{scope_of};
ghost use Rattle.pair_compare.specs.Judged.{IsRight};
ghost use Rattle.pair_compare.specs.Marking.{AreMarksOf, no_marks};

use crate::certificates::laws::a_certificate_is_one;
use crate::reports::laws::a_right_report_is_one;
use cert_check::laws::roots_are_typed_pairs;
use pair_rules::laws::{a_type_may_replace_itself, parts_match_in_order, steps_lead_to_nodes};

/// Where no two exports of a library have one name and one version, each export binds to itself, and the library may replace
/// itself, whatever is marked.
pub fn a_library_may_replace_itself()
    ensures binds { (exports : List PlainExport) (k : ℕ) (e : PlainExport) → AreDistinct exports
        → slice_get exports k ≡ Some e
        → bind_to exports e ≡ Some k }
    ensures replaces { (l : PlainLibrary) (m : Marks) → AreDistinct l.exports → IsCompatible (sides l l m) }
{
    a_type_may_replace_itself();
    parts_match_in_order();
    steps_lead_to_nodes();
    roots_are_typed_pairs();
}

/// No two exports have one name and one version exactly where none is a duplicate. So this holds for each file whose exports have
/// no fault, also once they have types.
pub fn exports_without_a_fault_are_distinct()
    ensures exact { (exports : List PlainExport) → (first (duplicate_faults [] exports) ≡ None) ↔ AreDistinct exports }
    ensures read { (symbols : List PlainSymbol) (versions : List (Option PlainVersion)) (exports : List PlainExport)
        → export_fault symbols versions ≡ None
        → map name_and_version exports ≡ map name_and_version (exports_with symbols versions) → AreDistinct exports }
{}

/// Where nothing is marked, nodes with equal labels are marked alike.
pub fn no_marks_are_even()
    ensures { (old : PlainLibrary) → AreMarksOf old (no_marks old) }
{}

/// The typed pairs of two libraries can be explored over classes of their nodes if nodes with equal labels are marked alike: then
/// the roots are nodes in order of their exports, and nodes of one class are marked alike.
pub fn typed_pairs_can_be_explored()
    ensures { (old new : PlainLibrary) (marks : Marks) (old_classes new_classes : PlainClasses) → AreMarksOf old marks
        → AreSound old_classes → AreSound new_classes → old_classes.nodes ≡ old.graph → new_classes.nodes ≡ new.graph
        → IsSound (scope_of (sides old new marks) old_classes new_classes) }
{
    roots_are_typed_pairs();
}

/// Two libraries and marks have at most one right result: what was read decides it.
pub fn two_libraries_have_one_right_answer()
    ensures { (s : Sides) (one other : Comparison) → IsGraph s.old.graph → IsGraph s.new.graph → IsRight s one
        → IsRight s other → one ≡ other }
{
    a_certificate_is_one();
    a_right_report_is_one();
}
