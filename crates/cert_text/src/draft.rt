// A certificate while its text is read.
ghost use Rattle.std.specs.Prelude.{◌≡◌, OnOk, IfErr};
ghost use Rattle.abi_base.specs.declared.fault.NoMemory.TheVariants.{Allocation};
ghost use Rattle.cert_text.specs.Steps.{empty_cert, with_line};
ghost use Rattle.cert_text.specs.Certs.{IsCert};

use crate::cert::Cert;
use crate::line::Line;
use abi_base::{List, NoMemory};
use abi_types::Way;
use std::alloc::Global;
use std::marker::Model;

/// The lines of a certificate that were read so far.
#[derive(Drop)]
pub struct Draft {
    old_digest: [u8; 32],
    new_digest: [u8; 32],
    rules_digest: [u8; 32],
    binds: List<(u32, u32)>,
    alike_old: List<(u64, u64)>,
    alike_new: List<(u64, u64)>,
    pairs: List<(u64, u64, Way)>,
}

impl Model for Draft {
    ghost use Rattle.cert_text.specs.Certs.{PlainCert};

    ghost Value = { PlainCert };

    ghost view = { λ c. record {
      old_digest = c.old_digest;
      new_digest = c.new_digest;
      rules_digest = c.rules_digest;
      binds = c.binds;
      alike_old = c.alike_old;
      alike_new = c.alike_new;
      pairs = c.pairs;
    } };
}

impl Draft {
    /// A certificate with these digests, and no line after the first four.
    pub fn new(
        alloc: Global,
        old_digest: [u8; 32],
        new_digest: [u8; 32],
        rules_digest: [u8; 32],
    ) -> Draft
        ensures { result ≡ empty_cert old_digest new_digest rules_digest }
    {
        Draft {
            old_digest,
            new_digest,
            rules_digest,
            binds: List::new(alloc),
            alike_old: List::new(alloc),
            alike_new: List::new(alloc),
            pairs: List::new(alloc),
        }
    }

    /// Appends a line to the list of its kind.
    pub fn put(&mut self, line: Line) -> Result<(), NoMemory>
        ensures added { OnOk result (self.new ≡ with_line self.old line) }
        ensures named { IfErr result (λ e. e ≡ Allocation) }
    {
        match line {
            Line::Bind { old, new } => self.binds.push((old, new)),
            Line::AlikeOld { entry, rep } => self.alike_old.push((entry, rep)),
            Line::AlikeNew { entry, rep } => self.alike_new.push((entry, rep)),
            Line::Pair { old, new, way } => self.pairs.push((old, new, way)),
            Line::End => Ok(()),
        }
    }

    /// The finished certificate.
    pub fn finish(self) -> Cert
        requires { IsCert self }
        ensures { result ≡ self }
    {
        let Draft {
            old_digest,
            new_digest,
            rules_digest,
            binds,
            alike_old,
            alike_new,
            pairs,
        } = self;
        Cert {
            old_digest,
            new_digest,
            rules_digest,
            binds,
            alike_old,
            alike_new,
            pairs,
        }
    }
}
