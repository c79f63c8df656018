// Laws about abbreviation tables.
ghost use Rattle.std.specs.Prelude.{◌≡◌, ◌≢◌, ℕ, ◌==◌, All, List, [], Some, None, IsTrue};
ghost use Rattle.std.specs.List.{list_any};
ghost use Rattle.abi_base.specs.declared.fault.Fault.{Fault};
ghost use Rattle.abi_base.specs.declared.fault.FaultKind.TheVariants as kind;
ghost use Rattle.abi_base.specs.Leb.{uleb_at};
ghost use Rattle.abi_base.specs.Runs.{Chain};
ghost use Rattle.dwarf_forms.specs.declared.abbreviations.abbrev.Abbrev.{Abbrev};
ghost use Rattle.dwarf_forms.specs.abbreviations.Abbrevs.{spec_step, specs_run, abbrev_step, table_run};
ghost use Rattle.dwarf_forms.specs.abbreviations.Standing.{AbbrevAt, FollowAt, CodesApart, HasPairs, TableAt};

/// The abbreviations of a table follow one another from its offset to its end or its fault, and likewise the attribute
/// specifications of an abbreviation.
pub fn one_after_another()
    ensures abbrevs { (bytes : List ℕ) (at : ℕ)
        → Chain (abbrev_step bytes) (at, []) (table_run bytes at).items (table_run bytes at).end }
    ensures pairs { (bytes : List ℕ) (at : ℕ)
        → Chain (spec_step bytes) at (specs_run bytes at).items (specs_run bytes at).end }
{}

/// No two abbreviations of a table share a code, even where a fault follows them.
pub fn codes_are_apart()
    ensures { (bytes : List ℕ) (at : ℕ) → CodesApart (table_run bytes at).items }
{}

/// The bytes at the offset of a faultless table are exactly that table: abbreviations with distinct codes, then a code 0.
pub fn a_table_stands_there()
    ensures { (bytes : List ℕ) (at : ℕ) → (table_run bytes at).end ≡ None
        → TableAt bytes at (table_run bytes at).items }
{}

/// Where the bytes are a whole table, the reader gives that table without a fault.
pub fn what_stands_is_read()
    ensures abbrevs { (bytes : List ℕ) (at : ℕ) (abbrevs : List Abbrev) → TableAt bytes at abbrevs
        → (table_run bytes at).items ≡ abbrevs }
    ensures end { (bytes : List ℕ) (at : ℕ) (abbrevs : List Abbrev) → TableAt bytes at abbrevs
        → (table_run bytes at).end ≡ None }
{}

/// A fault is at the offset after the preceding abbreviations, where the bytes are neither a code 0 nor an abbreviation with
/// a new code.
pub fn a_fault_is_where_none_stands()
    ensures what { (bytes : List ℕ) (at : ℕ) (f : Fault) → (table_run bytes at).end ≡ Some f → f.kind ≡ kind.Abbrev }
    ensures place { (bytes : List ℕ) (at : ℕ) (f : Fault) → (table_run bytes at).end ≡ Some f
        → FollowAt bytes at (table_run bytes at).items f.at }
    ensures no_end { (bytes : List ℕ) (at : ℕ) (f : Fault) → (table_run bytes at).end ≡ Some f → (after : ℕ)
        → uleb_at bytes f.at ≢ Some (0, after) }
    ensures no_abbrev { (bytes : List ℕ) (at : ℕ) (f : Fault) → (table_run bytes at).end ≡ Some f
        → (made : Abbrev) (after : ℕ) → AbbrevAt bytes f.at made after
        → IsTrue (list_any (λ a. a.code == made.code) (table_run bytes at).items) }
{}

/// The attribute specifications of each abbreviation are at the offset that it gives.
pub fn pairs_stand_where_told()
    ensures { (bytes : List ℕ) (at : ℕ) → All (HasPairs bytes) (table_run bytes at).items }
{}
