// The input of a composition.
use abi_types::{Library, NewIx, OldIx};
use cert_text::Cert;

/// Three libraries, where each of the later two may replace the one before it. The middle one is held twice, once for each side.
#[derive(Clone, Copy)]
pub struct Chain<'x, 'a, 'b, 'c> {
    /// The first library.
    pub first: &'x Library<'a, OldIx>,
    /// The middle library as the new one beside the first.
    pub middle_new: &'x Library<'b, NewIx>,
    /// The middle library as the old one beside the last.
    pub middle_old: &'x Library<'b, OldIx>,
    /// The last library.
    pub last: &'x Library<'c, NewIx>,
}

/// Three libraries, and the certificates that each of the later two may replace the one before it.
#[derive(Clone, Copy)]
pub struct CertifiedChain<'x, 'a, 'b, 'c> {
    /// The first library.
    pub first: &'x Library<'a, OldIx>,
    /// The middle library.
    pub middle: &'x Library<'b, NewIx>,
    /// The last library.
    pub last: &'x Library<'c, NewIx>,
    /// The certificate that the middle library may replace the first.
    pub one: &'x Cert,
    /// The certificate that the last library may replace the middle one.
    pub other: &'x Cert,
}
