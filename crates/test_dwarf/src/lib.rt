//! Tests of the DWARF readers for what no contract states: worked values from outside, and each call once. `tests/made.sh` has the rows of
//! faults, texts, addresses and lists of ranges.
#![tactic(auto)]

#[cfg(test)]
mod abbreviations;
#[cfg(test)]
mod entries;
#[cfg(test)]
mod forms;
#[cfg(test)]
mod places;
#[cfg(test)]
mod ranges;
#[cfg(test)]
mod rows;
#[cfg(test)]
mod trees;
