// Certificates.
use abi_base::List;
use abi_types::Way;
use std::marker::Model;

/// A certificate of version 2 that a new library may replace an old one: the SHA-256 of the three inputs, what the exports bind to,
/// which debug entries are alike, and which types stand for which. Contracts see it as a `PlainCert`.
///
/// Each list is strictly ascending: `binds` and the alike lists by their first number, `pairs` by the old entry, then the
/// new entry, then direct before pointer.
#[derive(Drop)]
pub struct Cert {
    /// The SHA-256 of the old library.
    pub old_digest: [u8; 32],
    /// The SHA-256 of the new library.
    pub new_digest: [u8; 32],
    /// The SHA-256 of the rule text.
    pub rules_digest: [u8; 32],
    /// For each compared old export, its symbol and that of the new export to which it binds.
    pub binds: List<(u32, u32)>,
    /// Entries of the old library, with their representatives.
    pub alike_old: List<(u64, u64)>,
    /// Entries of the new library, with their representatives.
    pub alike_new: List<(u64, u64)>,
    /// Pairs of representatives, an old one and the new one that stands for it, with the way by which a program reaches them.
    pub pairs: List<(u64, u64, Way)>,
}

impl Model for Cert {
    ghost use Rattle.cert_text.specs.Certs.{PlainCert, IsCert};

    ghost Value = { PlainCert };

    ghost view = { λ c. record {
      old_digest = c.old_digest;
      new_digest = c.new_digest;
      rules_digest = c.rules_digest;
      binds = c.binds;
      alike_old = c.alike_old;
      alike_new = c.alike_new;
      pairs = c.pairs;
    } };

    ghost invariant = { λ c. IsCert (record {
      old_digest = c.old_digest;
      new_digest = c.new_digest;
      rules_digest = c.rules_digest;
      binds = c.binds;
      alike_old = c.alike_old;
      alike_new = c.alike_new;
      pairs = c.pairs;
    }) };
}

impl Cert {
    ghost use Rattle.cert_text.specs.Certs.{IsCert};

    /// States the invariants of the type. The function does nothing.
    pub fn known(&self)
        ensures { IsCert self.now }
    {
        let _ = &self.binds;
    }
}
