// A row of a report.
ghost use Rattle.std.specs.Prelude.{◌≡◌, [], codes, IfOk, string_bytes, IfErr};
ghost use Rattle.std.specs.Option.{option_copied};
ghost use Rattle.abi_base.specs.declared.fault.NoMemory.TheVariants.{Allocation};
ghost use Rattle.abi_types.specs.Plain.{plain_export};
ghost use Rattle.abi_types.specs.Shown.{label};
ghost use Rattle.report.specs.Details.{IsInside};
ghost use Rattle.report.specs.Details as details;
ghost use Rattle.report.specs.TypeRows as type_rows;
ghost use Rattle.report.specs.Values as values;
ghost use Rattle.report.specs.declared.row.Row.{Row as AnyRow};

use crate::detail::{export_detail, soname_detail};
use crate::type_rows::{part_of, type_detail, type_is, type_was};
use crate::value::Value;
use crate::values::{export_is, export_was, soname_value};
use abi_base::{List, NoMemory};
use abi_types::{Export, NewIx, OldIx, Rule, View, push_label};
use pair_rules::Broken;
use std::alloc::Global;

/// A broken rule, and where it is broken. The texts are in their printed form.
#[derive(Drop)]
pub struct Row {
    /// The rule that is broken.
    pub rule: Rule,
    /// The label of the old export, or `-` if the libraries as a whole break the rule.
    pub export: List<u8>,
    /// The steps from the type of that export to the types that break the rule; empty if the export itself breaks it.
    pub path: List<u8>,
    /// The old and the new state, as one text.
    pub detail: List<u8>,
    /// The old part of which the rule speaks: the name of a member or an enumerator, `param` and a number, or `result`; empty if
    /// the rule speaks of no part.
    pub part: List<u8>,
    /// The old value.
    pub was: Value,
    /// The new value.
    pub is: Value,
    /// The offset of the old type's debugging information entry, or 0 if the row is about no types.
    pub old_entry: u64,
    /// The offset of the new type's debugging information entry, or 0 if the row is about no types.
    pub new_entry: u64,
}

impl Row {
    /// An equal row. It fails only if memory runs out.
    pub fn copy(&self, alloc: Global) -> Result<Row, NoMemory>
        ensures same { IfOk result (λ row. row ≡ self.now) }
        ensures named { IfErr result (λ e. e ≡ Allocation) }
    {
        Ok(Row {
            rule: self.rule,
            export: List::copy_of(alloc, self.export.as_slice())?,
            path: List::copy_of(alloc, self.path.as_slice())?,
            detail: List::copy_of(alloc, self.detail.as_slice())?,
            part: List::copy_of(alloc, self.part.as_slice())?,
            was: self.was.copy(alloc)?,
            is: self.is.copy(alloc)?,
            old_entry: self.old_entry,
            new_entry: self.new_entry,
        })
    }
}

// The bytes of a text.
fn bytes_of(text: String) -> List<u8>
    ensures { result ≡ string_bytes text }
{
    List::of(text.into_bytes())
}

// The label of an export.
fn label_of(alloc: Global, export: &Export) -> Result<String, NoMemory>
    ensures label { IfOk result (λ text. string_bytes text ≡ label (plain_export export.now)) }
    ensures named { IfErr result (λ e. e ≡ Allocation) }
{
    let mut text = String::new(alloc);
    push_label(alloc, &mut text, export)?;
    Ok(text)
}

/// The row about sonames that differ, X1. It names no export, no path and no types.
pub fn soname_row(alloc: Global, old: Option<&[u8]>, new: Option<&[u8]>) -> Result<Row, NoMemory>
    ensures row { IfOk result (λ (row : AnyRow). row ≡ record {
      rule = Rule.LibrarySoname;
      export = codes "-";
      path = [];
      detail = details.soname_detail (option_copied old.entry) (option_copied new.entry);
      part = [];
      was = values.soname_value (option_copied old.entry);
      is = values.soname_value (option_copied new.entry);
      old_entry = 0;
      new_entry = 0;
    }) }
    ensures named { IfErr result (λ e. e ≡ Allocation) }
{
    Ok(Row {
        rule: Rule::LibrarySoname,
        export: List::copy_of(alloc, b"-")?,
        path: List::new(alloc),
        detail: bytes_of(soname_detail(alloc, old, new)?),
        part: List::new(alloc),
        was: soname_value(alloc, old)?,
        is: soname_value(alloc, new)?,
        old_entry: 0,
        new_entry: 0,
    })
}

/// The row about an old export that breaks one of the rules X2 to X6, beside the new export to which it binds. If the old one is
/// gone, the new one is not looked at. The row has no path and no types.
pub fn export_row(alloc: Global, rule: Rule, old: &Export, new: &Export) -> Result<Row, NoMemory>
    ensures row { IfOk result (λ (row : AnyRow). row ≡ record {
      rule = rule;
      export = label (plain_export old.now);
      path = [];
      detail = details.export_detail rule (plain_export old.now) (plain_export new.now);
      part = [];
      was = values.export_was rule (plain_export old.now);
      is = values.export_is rule (plain_export new.now);
      old_entry = 0;
      new_entry = 0;
    }) }
    ensures named { IfErr result (λ e. e ≡ Allocation) }
{
    Ok(Row {
        rule,
        export: bytes_of(label_of(alloc, old)?),
        path: List::new(alloc),
        detail: bytes_of(export_detail(alloc, rule, old, new)?),
        part: List::new(alloc),
        was: export_was(alloc, rule, old)?,
        is: export_is(alloc, rule, new)?,
        old_entry: 0,
        new_entry: 0,
    })
}

/// The printed forms of an export's label, and of the steps that lead from its type to other types.
#[derive(Drop)]
pub struct Trail {
    /// The label.
    pub export: String,
    /// The steps.
    pub path: String,
}

/// The row about a rule that two types break, with the path that leads to them and the entries of the types.
pub fn type_row(
    alloc: Global,
    broken: &Broken,
    trail: Trail,
    old: (u64, &View<OldIx>),
    new: (u64, &View<NewIx>),
) -> Result<Row, NoMemory>
    requires { IsInside old.1.now broken.now }
    ensures row { IfOk result (λ (row : AnyRow). row ≡ record {
      rule = broken.now.rule;
      export = string_bytes trail.export;
      path = string_bytes trail.path;
      detail = type_rows.type_detail broken.now.rule old.entry.1.now new.entry.1.now broken.now.part;
      part = type_rows.part_of broken.now.rule old.entry.1.now broken.now.part;
      was = type_rows.type_was broken.now.rule old.entry.1.now broken.now.part;
      is = type_rows.type_is broken.now.rule old.entry.1.now new.entry.1.now broken.now.part;
      old_entry = old.entry.0;
      new_entry = new.entry.0;
    }) }
    ensures named { IfErr result (λ e. e ≡ Allocation) }
{
    Ok(Row {
        rule: broken.rule,
        export: bytes_of(trail.export),
        path: bytes_of(trail.path),
        detail: bytes_of(type_detail(alloc, broken, old.1, new.1)?),
        part: part_of(alloc, broken, old.1)?,
        was: type_was(alloc, broken, old.1)?,
        is: type_is(alloc, broken, old.1, new.1)?,
        old_entry: old.0,
        new_entry: new.0,
    })
}
