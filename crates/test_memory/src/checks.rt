// The answers about generated libraries, which have this many functions with types.
use crate::memory::check_in_memory;
use commands::{Outcome, Verdict};
use std::test::Fail;
use trial_libraries::{Side, make};

#[test]
fn functions_may_be_added_and_not_taken_away(rt: HostRuntime) -> Result<(), Fail> {
    let alloc = rt.alloc();
    for (before, after, wanted) in [(1, 2, Verdict::Yes), (2, 1, Verdict::No)] {
        let old = make(alloc, before, Side::Old)?;
        let new = make(alloc, after, Side::New)?;
        match check_in_memory(alloc, old, new)? {
            Outcome::Judged(verdict, _) => assert_eq!(rt; verdict, wanted),
            _ => assert!(rt; false),
        }
    }
    Ok(())
}
