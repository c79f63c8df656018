//! Tests of listeners that are written outside the crate of reports. `tests/made.sh` has the rows of reports.
#![tactic(auto)]

#[cfg(test)]
mod listeners;
