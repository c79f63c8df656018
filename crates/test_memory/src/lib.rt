//! A check of two libraries in memory, and what its answer means, by public contracts only: if both libraries are readable, it is
//! yes exactly if the new library may replace the old one, and no exactly if it may not.
#![tactic(auto)]

// As parts of the tests alone, both are proved once.
#[cfg(test)]
mod checks;
#[cfg(test)]
mod memory;
