// `migrate`: the certificate of version 2 to which one of version 1 is migrated.
ghost use Rattle.std.specs.Prelude.{◌≡◌, ◌≤◌, List, [], ◌∷◌, IfOk, IfErr, map};
ghost use Rattle.abi_base.specs.declared.fault.NoMemory.TheVariants.{Allocation};
ghost use Rattle.library_check.specs.Rows.Migrate.{migrate_inputs, migrate_passes, migrate_says};
ghost use Rattle.cli_args.specs.Commands.{plain_word};
ghost use Rattle.commands.specs.Commands.{places_of, plain_place};

use crate::migrating;
use abi_base::NoMemory;
use cli_args::commands::CertificateWords;
use commands::{Command, Input, Judgement, Place, Stop, four};
use report::Listener;
use std::alloc::Global;

/// `migrate` of a certificate of version 1 for two libraries, with an optional rule file.
#[derive(Clone, Copy)]
pub struct Migrate<'a> {
    /// What the arguments request.
    pub words: CertificateWords<'a>,
}

impl<'a> Migrate<'a> {
    /// The inputs and the sources of their bytes. It fails only if memory runs out.
    pub fn places(&self, alloc: Global) -> Result<Vec<Place<'a>>, NoMemory>
        ensures places { let words = self.now.words in IfOk result (λ places. map plain_place places.items
            ≡ places_of (migrate_inputs (plain_word words.rules) words.old.now words.new.now words.certificate.now)) }
        ensures named { IfErr result (λ e. e ≡ Allocation) }
    {
        let rules = Place::named_or_empty(alloc, Input::Rules, self.words.rules);
        Ok(vec![in alloc;
            Place::named(Input::Old, self.words.old),
            Place::named(Input::New, self.words.new),
            rules,
            Place::named(Input::Certificate, self.words.certificate),
        ]?)
    }
}

impl Command for Migrate<'_> {
    ghost inputs = { λ c. migrate_inputs (plain_word c.words.rules)
        c.words.old.now c.words.new.now c.words.certificate.now };

    ghost says = { λ c voices. migrate_says };

    ghost passes = { λ c. migrate_passes };

    fn judge(
        self,
        alloc: Global,
        all: &[Vec<u8>],
        _listeners: Vec<Box<dyn Listener>>,
    ) -> Result<Judgement, Stop> {
        let (old, new, rules, certificate) = four(all);
        migrating::migrate(alloc, old, new, rules, certificate)
    }
}
