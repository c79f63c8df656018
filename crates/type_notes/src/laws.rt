//! What follows from the definitions of differences. Each law is the contract of a function that does nothing.
ghost use Rattle.std.specs.Prelude.{◌≡◌, ℕ, List, None, option_to_list};
ghost use Rattle.abi_types.specs.Graphs.{view_at};
ghost use Rattle.abi_types.specs.Types.{PlainNode};
ghost use Rattle.dwarf_entries.specs.Debug.{PlainDwarf};
ghost use Rattle.type_notes.specs.Between.{differences};
ghost use Rattle.type_notes.specs.DefinedElsewhere.{definition_change};
ghost use Rattle.type_notes.specs.Unions.{union_change};

/// A type does not differ from itself. The only possible note on it is that it is a union without members.
pub fn a_type_does_not_differ_from_itself()
    ensures { (d : PlainDwarf) (nodes : List PlainNode) (i : ℕ)
        → differences d d nodes nodes i i ≡ option_to_list (union_change (view_at nodes i) (view_at nodes i)) }
{}

/// A definition does not differ from itself.
pub fn a_definition_does_not_differ_from_itself()
    ensures { (d : PlainDwarf) (e : ℕ) → definition_change d d e e ≡ None }
{}
