// What rows of tests say.
use std::process::Abort;

/// Expects a text for a row.
pub(crate) fn expect(rt: &impl Abort, told: String, wanted: &str, row: &str) {
    assert_eq!(rt; told.as_str(), wanted, "{row}");
}
