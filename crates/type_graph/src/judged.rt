// Types whose faults have been judged, in one value.
use dwarf_entries::Dwarf;
use type_reach::{ReachedEntries, Summary, TypeReferences};

/// Types that were judged: the debug information, the entries that were found, what these refer to, and the summary of each.
#[derive(Clone, Copy)]
pub(crate) struct JudgedTypes<'t, 'a> {
    pub(crate) dwarf: &'t Dwarf<'a>,
    pub(crate) found: &'t ReachedEntries,
    pub(crate) leads: &'t TypeReferences,
    pub(crate) summaries: &'t [Summary],
}
