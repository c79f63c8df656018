//! The rule file of a packager: its lines, its faults, and its sections with their patterns.
#![tactic(auto)]

mod classes;
mod judging;
mod key;
pub mod laws;
mod line;
mod pattern;
pub mod pattern_set;
mod property;
mod reading;
mod rules;
mod section;

pub use abi_base::Refusal as RuleRefusal;
pub use key::{Key, SectionKind};
pub use property::{CompiledProperty, Property, Test};
pub use reading::read_rules;
pub use rules::Rules;
pub use section::Section;
