// Reading a rule file.
ghost use Rattle.std.specs.Prelude.{◌≡◌, ◌≤◌, IfErr, IfOk, OnOk};
ghost use Rattle.sha2.specs.Sha256.{sha256};
ghost use Rattle.abi_base.specs.Outcome.{Judges, OnPast, first};
ghost use Rattle.suppression_text.specs.Classes.{classes_allowed, file_classes, PassesClasses};
ghost use Rattle.suppression_text.specs.Lines.{forms_of};
ghost use Rattle.suppression_text.specs.Rules.{rules_of, sections_of};
ghost use Rattle.suppression_text.specs.Faults.{line_faults, rule_fault};

use crate::classes::classes_in;
use crate::judging::{read_line, text_fault};
use crate::line::{first_line, line_of};
use crate::rules::Rules;
use crate::section::{Section, fault_of_sections};
use abi_base::{Budget, Limit, Refusal};
use sha2::{Digest, Sha256};
use std::alloc::Global;

fn digest_of(bytes: &[u8]) -> [u8; 32]
    ensures { result ≡ sha256 bytes.now }
{
    Sha256::digest(bytes)
}

// The sections of a text, or the first fault of a line.
fn read_sections(alloc: Global, bytes: &[u8]) -> Result<Vec<Section>, Refusal>
    ensures sections { IfOk result (λ sections. sections.items ≡ sections_of (forms_of bytes.now)) }
    ensures fault { Judges result (first (line_faults (forms_of bytes.now))) }
    ensures within { OnOk result (file_classes bytes.now ≤ classes_allowed) }
    ensures past { IfErr result (λ e. OnPast e (PassesClasses bytes.now)) }
{
    let mut sections = Vec::new(alloc);
    let mut left = bytes;
    let mut number = 1u64;
    let mut budget = Budget::of(Limit::PatternClasses, 0);
    'lines: while let Some(next) = first_line(left) {
        budget.take(classes_in(next.line))?;
        read_line(alloc, &mut sections, number, line_of(next.line))?;
        left = next.rest;
        number += 1;
    }
    Ok(sections)
}

/// Reads a rule file. A refusal names the first fault, and its place is the number of a line, counted from 1. `Past` names the limit
/// on classes, where the values of the file have more of them.
#[tactic(auto, unfolding(crate::specs::Faults::rule_fault))]
pub fn read_rules(alloc: Global, bytes: &[u8]) -> Result<Rules, Refusal>
    ensures rules { IfOk result (λ rules. rules ≡ rules_of bytes.now) }
    ensures fault { Judges result (rule_fault bytes.now) }
    ensures within { OnOk result (file_classes bytes.now ≤ classes_allowed) }
    ensures past { IfErr result (λ e. OnPast e (PassesClasses bytes.now)) }
{
    if let Some(fault) = text_fault(bytes) {
        return Err(Refusal::Fault(fault));
    }
    let sections = read_sections(alloc, bytes)?;
    if let Some(fault) = fault_of_sections(sections.as_slice()) {
        return Err(Refusal::Fault(fault));
    }
    Ok(Rules::new(digest_of(bytes), sections))
}
