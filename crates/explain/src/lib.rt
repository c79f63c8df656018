//! Sentences for users, printed on standard error: what is wrong with an input, and what can be done about it. Each is one line and
//! names its input by the path; a sentence about a fault has the number, the name and the position of the fault. The program's
//! promised answer is its exit number and its standard output, and nothing here changes either.
#![tactic(auto)]

mod allowed;
mod applications;
mod constants;
mod failures;
mod faults;
mod files;
mod limits;
mod lines;
mod notes;
mod offsets;
mod other_inputs;
mod places;
mod programs;
mod refusals;
mod remarks;
mod rule_lines;
mod sections;
mod sentence;
mod tags;
mod wrong;

pub use applications::{lacking_sentence, links_sentence};
pub use failures::failure_sentence;
pub use limits::memory_sentence;
pub use notes::{name_of, notes_on};
pub use other_inputs::other_input_sentence;
pub use programs::{has_interpreter, is_program, program_sentence};
pub use refusals::{refused_sentence, uncomposed_sentence};
pub use remarks::{lost_sentence, sizeless_sentence, untyped_sentence};
pub use rule_lines::{comment_sentence, commented_values};
pub use sentence::fault_sentence;
pub use tags::{TaggedType, tag_sentence, tagged_sentence};
pub use wrong::{encoding_sentence, wrong_sentence};
