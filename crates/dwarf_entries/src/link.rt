// Links from entries to entries.
ghost use Rattle.std.specs.Prelude.{◌≡◌};
ghost use Rattle.dwarf_entries.specs.Chains.{either_link, is_nowhere as leads_nowhere, linked};

use dwarf_tree::EntryNumber;

// The link that an attribute of an entry makes.
#[derive(Clone, Copy)]
pub(crate) enum Link {
    // There is no link: the entry lacks the attribute, or the attribute refers to an entry with an unsupported tag.
    Missing,
    // The link refers to no entry.
    Nowhere,
    // The link refers to this entry.
    To(EntryNumber),
}

impl Link {
    // The entry of the link.
    pub(crate) fn entry(self) -> Option<EntryNumber>
        ensures { result ≡ linked self }
    {
        match self {
            Link::To(to) => Some(to),
            Link::Nowhere => None,
            Link::Missing => None,
        }
    }

    // The entry of this link, or of another where this one is missing.
    pub(crate) fn entry_or(self, other: Link) -> Option<EntryNumber>
        ensures { result ≡ either_link self other }
    {
        match self {
            Link::To(to) => Some(to),
            Link::Nowhere => None,
            Link::Missing => other.entry(),
        }
    }

    // Whether there is a link that refers to no entry.
    pub(crate) fn is_nowhere(&self) -> bool
        ensures { result ≡ leads_nowhere self.now }
    {
        matches!(*self, Link::Nowhere)
    }
}
