//! Tests of graphs and their readers for what no contract states: worked values from outside, and each call once. `tests/made.sh` has
//! the rows of libraries, calls and layouts.
#![tactic(auto)]

#[cfg(test)]
mod parts;
#[cfg(test)]
mod reached;
#[cfg(test)]
mod rows;
#[cfg(test)]
mod sections;
