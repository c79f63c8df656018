// Certificates of version 1, whose pair lines have no way.
ghost use Rattle.std.specs.Prelude.{◌≡◌, map, flat_map, IfOk, IfErr};
ghost use Rattle.abi_base.specs.declared.fault.NoMemory.TheVariants.{Allocation};
ghost use Rattle.abi_base.specs.Outcome.{Judges, OnPast};
ghost use Rattle.cert_text.specs.declared.line.Version.TheVariants.{One};
ghost use Rattle.cert_text.specs.Faults.{fault_of};
ghost use Rattle.cert_text.specs.Grammar.{IsSpelled1};
ghost use Rattle.cert_text.specs.Certs.{migrated, without_way, both_ways};

use crate::cert::Cert;
use crate::line::Version;
use crate::reading::read_text;
use abi_base::{List, NoMemory, Refusal};
use abi_types::Way;
use std::alloc::Global;
use std::marker::Model;

/// A certificate of version 1, whose pairs hold for both ways of reaching them. Contracts see it as a `PlainCert1`.
///
/// Each list is strictly ascending: `binds` and the alike lists by their first number, `pairs` by the old entry, then the
/// new entry.
#[derive(Drop)]
pub struct Cert1 {
    /// The SHA-256 of the old library.
    pub old_digest: [u8; 32],
    /// The SHA-256 of the new library.
    pub new_digest: [u8; 32],
    /// The SHA-256 of the rule text.
    pub rules_digest: [u8; 32],
    /// For each compared old export, its symbol and that of the new export to which it binds.
    pub binds: List<(u32, u32)>,
    /// Entries of the old library, with their representatives.
    pub alike_old: List<(u64, u64)>,
    /// Entries of the new library, with their representatives.
    pub alike_new: List<(u64, u64)>,
    /// Pairs of representatives, an old one and the new one that stands for it.
    pub pairs: List<(u64, u64)>,
}

impl Model for Cert1 {
    ghost use Rattle.cert_text.specs.Certs.{PlainCert1, IsCert1};

    ghost Value = { PlainCert1 };

    ghost view = { λ c. record {
      old_digest = c.old_digest;
      new_digest = c.new_digest;
      rules_digest = c.rules_digest;
      binds = c.binds;
      alike_old = c.alike_old;
      alike_new = c.alike_new;
      pairs = c.pairs;
    } };

    ghost invariant = { λ c. IsCert1 (record {
      old_digest = c.old_digest;
      new_digest = c.new_digest;
      rules_digest = c.rules_digest;
      binds = c.binds;
      alike_old = c.alike_old;
      alike_new = c.alike_new;
      pairs = c.pairs;
    }) };
}

impl Cert1 {
    ghost use Rattle.cert_text.specs.Certs.{IsCert1};

    /// States the invariants of the type. The function does nothing.
    pub fn known(&self)
        ensures { IsCert1 self.now }
    {
        let _ = &self.binds;
    }
}

// The pairs without their ways.
fn without_ways(alloc: Global, lines: &[(u64, u64, Way)]) -> Result<List<(u64, u64)>, NoMemory>
    ensures plain { IfOk result (λ pairs. pairs ≡ map without_way lines.now) }
    ensures named { IfErr result (λ e. e ≡ Allocation) }
{
    let mut pairs = List::new(alloc);
    for line in lines {
        let (old, new, _) = *line;
        pairs.push((old, new))?;
    }
    Ok(pairs)
}

/// Reads a certificate of version 1. A refusal names the first fault of the text, and its place is the number of the line.
pub fn read_cert_1(alloc: Global, bytes: &[u8]) -> Result<Cert1, Refusal>
    ensures spelled { IfOk result (λ cert. IsSpelled1 bytes.now cert) }
    ensures fault { Judges result (fault_of One bytes.now) }
    ensures past { IfErr result (λ e. OnPast e (λ l. ⊥)) }
{
    let Cert {
        old_digest,
        new_digest,
        rules_digest,
        binds,
        alike_old,
        alike_new,
        pairs: lines,
    } = read_text(alloc, Version::One, bytes)?;
    let pairs = without_ways(alloc, lines.as_slice())?;
    Ok(Cert1 {
        old_digest,
        new_digest,
        rules_digest,
        binds,
        alike_old,
        alike_new,
        pairs,
    })
}

// The pairs, each at both ways.
fn with_both_ways(alloc: Global, lines: &[(u64, u64)]) -> Result<List<(u64, u64, Way)>, NoMemory>
    ensures both { IfOk result (λ pairs. pairs ≡ flat_map both_ways lines.now) }
    ensures named { IfErr result (λ e. e ≡ Allocation) }
{
    let mut pairs = List::new(alloc);
    for line in lines {
        let (old, new) = *line;
        pairs.push((old, new, Way::Direct))?;
        pairs.push((old, new, Way::Pointer))?;
    }
    Ok(pairs)
}

/// The certificate of version 2 with the meaning of one of version 1: it has each pair line at both ways.
pub fn migrate(alloc: Global, cert: &Cert1) -> Result<Cert, NoMemory>
    ensures migrated { IfOk result (λ new. new ≡ migrated cert.now) }
    ensures named { IfErr result (λ e. e ≡ Allocation) }
{
    cert.known();
    let old_digest = cert.old_digest;
    let new_digest = cert.new_digest;
    let rules_digest = cert.rules_digest;
    let binds = List::copy_of(alloc, cert.binds.as_slice())?;
    let alike_old = List::copy_of(alloc, cert.alike_old.as_slice())?;
    let alike_new = List::copy_of(alloc, cert.alike_new.as_slice())?;
    let pairs = with_both_ways(alloc, cert.pairs.as_slice())?;
    Ok(Cert {
        old_digest,
        new_digest,
        rules_digest,
        binds,
        alike_old,
        alike_new,
        pairs,
    })
}
