//! Tests of `abi_base` for what no contract states: worked values from outside, and inputs in memory that fail in mid-stream. Real files
//! and outputs that move a few bytes at a time are those of tests/devices.sh.
#![tactic(auto)]

#[cfg(test)]
mod faults;
#[cfg(test)]
mod long;
#[cfg(test)]
mod memory;
#[cfg(test)]
mod numbers;
#[cfg(test)]
mod variable_length;
#[cfg(test)]
mod words;
