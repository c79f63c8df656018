//! Laws of rule files. The functions do nothing: their contracts are the laws.
ghost use Rattle.std.specs.Prelude.{◌≡◌, ℕ, List, Option};
ghost use Rattle.abi_types.specs.declared.kind.Way.TheVariants.{Direct, Pointer};
ghost use Rattle.abi_types.specs.Libraries.{PlainLibrary};
ghost use Rattle.abi_types.specs.Types.{PlainLabel};
ghost use Rattle.suppression_text.specs.Rules.{PlainRules, rules_of};
ghost use Rattle.suppressions.specs.Marks.{marks_of_text, AreAtBothWays, AreEvenMarks};
ghost use Rattle.suppressions.specs.Meaning.{is_marked};
ghost use Rattle.suppressions.specs.Reasons.{HasNoWays};

/// Every rule file gives types with equal labels equal marks, by value and through a pointer.
pub fn a_rule_file_marks_equal_labels_alike()
    ensures { (text : List ℕ) (library : PlainLibrary) → AreEvenMarks library (marks_of_text text library) }
{}

/// A rule file without `accessed_through` marks a type by value exactly if it marks it through a pointer, in the old library and in
/// the new one.
pub fn rules_without_accessed_through_see_no_way()
    ensures types { (rules : PlainRules) (soname : Option (List ℕ)) (labels : List PlainLabel) → HasNoWays rules
        → is_marked rules soname labels Direct ≡ is_marked rules soname labels Pointer }
    ensures marks { (text : List ℕ) (old new : PlainLibrary) → HasNoWays (rules_of text)
        → AreAtBothWays (marks_of_text text old) × AreAtBothWays (marks_of_text text new) }
{}
