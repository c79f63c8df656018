// Kinds of faults.
use abi_base::FaultKind;
use std::process::Abort;

fn expect(rt: &impl Abort, kind: FaultKind, number: u64, name: &str) {
    assert_eq!(rt; kind.number(), number, "at {name}");
    assert_eq!(rt; kind.name(), name, "at {number}");
}

// The numbers and the names are those in the specification's table of faults.
#[test]
fn kinds_have_their_numbers_and_names(rt: HostRuntime) {
    expect(&rt, FaultKind::ShortFile, 1, "ShortFile");
    expect(&rt, FaultKind::Compressed, 11, "Compressed");
    expect(&rt, FaultKind::TooLong, 40, "TooLong");
    expect(&rt, FaultKind::TypeOffset, 43, "TypeOffset");
    expect(&rt, FaultKind::RuleLine, 51, "Line");
    expect(&rt, FaultKind::Brace, 58, "Brace");
    expect(&rt, FaultKind::CertLine, 60, "Line");
    expect(&rt, FaultKind::End, 62, "End");
}
