//! Laws of the texts. Each law is the contract of a function that only cites the laws below it.
ghost use Rattle.std.specs.Prelude.{◌≡◌, ℕ};
ghost use Rattle.abi_types.specs.declared.rule.Rule.{Rule};
ghost use Rattle.abi_types.specs.ClassLooks.{view_seen};
ghost use Rattle.abi_types.specs.Types.{PlainView};
ghost use Rattle.report.specs.Steps.{step_text};
ghost use Rattle.report.specs.TypeRows.{type_detail};

use pair_rules::laws::parts_see_no_nodes;

/// The detail of a row on two types, and the step by a part, do not depend on the nodes that parts name. So types that look alike
/// have rows with the same text.
pub fn texts_see_no_nodes()
    ensures details { (f g : ℕ → ℕ) (rule : Rule) (v w : PlainView) (i : ℕ)
        → type_detail rule (view_seen f v) (view_seen g w) i ≡ type_detail rule v w i }
    ensures steps { (f : ℕ → ℕ) (v : PlainView) (i : ℕ) → step_text (view_seen f v) i ≡ step_text v i }
{
    parts_see_no_nodes();
}
