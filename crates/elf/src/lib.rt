//! ELF-64 x86-64 shared objects: the section header table, dynamic symbols, symbol versions and debug sections of a file, and its
//! first faults (System V gABI; GNU symbol versioning).
#![tactic(auto)]

pub mod constants;
pub mod file;
pub mod sections;
pub mod symbols;
pub mod versions;
