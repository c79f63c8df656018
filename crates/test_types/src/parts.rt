// What no contract states: calls succeed with enough memory. `hand_made` has the rows of graphs and libraries.
use abi_base::NoMemory;
use abi_types::{Index, NewIx, OldIx, Part, Parts};
use std::alloc::Global;
use std::process::Abort;
use std::test::Fail;

// Members with two alternating names.
fn members<'a, Ix: Index>(
    alloc: Global,
    count: usize,
    even: &'a [u8],
    odd: &'a [u8],
) -> Result<Vec<Part<'a, Ix>>, NoMemory> {
    let mut members = Vec::new(alloc);
    for i in 0..count {
        members.push(Part::Member {
            name: if i % 2 == 0 { even } else { odd },
            bit: 0,
            width: 0,
            to: Ix::of(0),
        })?;
    }
    Ok(members)
}

// Checks the part at a position: half as many of its name come before it.
fn check_part(rt: &impl Abort, parts: &Parts<OldIx>, i: usize) {
    assert!(rt; i < parts.len());
    assert_eq!(rt; parts.like_before(i), i / 2);
    assert_eq!(rt; parts.nth_like(parts.at(i), i / 2), Some(i));
    assert_eq!(rt; parts.nth_like(parts.at(i), parts.len()), None);
}

fn check_parts(rt: &impl Abort, parts: &Parts<OldIx>) {
    for i in 0..parts.len() {
        check_part(rt, parts, i);
    }
    let target = Part::Target { to: NewIx::of(0) };
    assert_eq!(rt; parts.nth_like(&target, 0), None);
}

fn check_count(rt: &impl Abort, alloc: Global, count: usize) -> Result<(), NoMemory> {
    let parts = Parts::of(alloc, members::<OldIx>(alloc, count, b"a", b"b")?)?;
    assert_eq!(rt; parts.len(), count);
    check_parts(rt, &parts);
    Ok(())
}

#[test]
fn parts_of_one_name_are_found(rt: HostRuntime) -> Result<(), Fail> {
    for count in [1, 16, 17, 10_000] {
        check_count(&rt, rt.alloc(), count)?;
    }
    Ok(())
}
