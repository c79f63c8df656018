// The blocks of sections that are compiled at a time.
ghost use Rattle.std.specs.Prelude.{◌≤◌, ◌<◌, length};

use crate::compiled::is_chosen;
use crate::weight::{CLASS_WEIGHT, section_weight};
use suppression_text::Section;

// The maximum weight of a block of several sections: some sixty short patterns.
const BLOCK_WEIGHT: usize = 4096;

// The number of dots and opening brackets in a pattern.
fn sets_in(text: &[u8]) -> usize {
    let mut count = 0usize;
    for byte in text {
        if *byte == b'.' || *byte == b'[' {
            count = count.saturating_add(1);
        }
    }
    count
}

// The weight of a section in a block. There a dot or a bracket weighs as much as a class, since a search for a pattern with many of
// them takes megabytes.
fn weight_in_block(section: &Section) -> usize {
    let mut weight = section_weight(section);
    for property in section.properties() {
        if property.has_pattern() {
            let many = sets_in(property.value()).saturating_mul(CLASS_WEIGHT);
            weight = weight.saturating_add(many);
        }
    }
    weight
}

/// The end of the block that begins at a position. A block has at least one section, and ends before the section that would make it
/// too heavy. Only the chosen sections count: with `asking` those that test names, else the others.
pub fn block_end(sections: &[Section], start: usize, asking: bool) -> usize
    requires { start ≤ length sections.now }
    ensures inside { result ≤ length sections.now }
    ensures rises { start ≤ result }
    ensures more { start < length sections.now → start < result }
{
    let mut end = start;
    let mut weight = 0usize;
    'sections: while end < sections.len() {
        let section = &sections[end];
        if is_chosen(section, asking) {
            weight = weight.saturating_add(weight_in_block(section));
        }
        if end > start && weight > BLOCK_WEIGHT {
            return end;
        }
        end += 1;
    }
    end
}
