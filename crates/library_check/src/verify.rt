// `verify`: whether a certificate is accepted.
ghost use Rattle.std.specs.Prelude.{◌≡◌, ◌≤◌, ℕ, List, [], ◌∷◌, length, OnOk, IfOk, IfErr, map};
ghost use Rattle.abi_base.specs.declared.fault.NoMemory.TheVariants.{Allocation};
ghost use Rattle.abi_base.specs.Limits.{input_limit};
ghost use Rattle.library_check.specs.Rows.Verify.{verify_asks, verify_inputs, verify_passes, verify_says};
ghost use Rattle.cli_args.specs.Commands.{plain_word};
ghost use Rattle.commands.specs.Commands.{places_of, plain_place};
ghost use Rattle.commands.specs.Faults.{AreReadable, StopsAt};

use crate::{text, verifying};
use abi_base::NoMemory;
use cli_args::commands::CertificateWords;
use commands::{Command, Input, Judgement, Place, Stop, Verdict, four};
use report::Listener;
use std::alloc::Global;

/// `verify` of a certificate for two libraries, with an optional rule file.
#[derive(Clone, Copy)]
pub struct Verify<'a> {
    /// What the arguments request.
    pub words: CertificateWords<'a>,
}

impl<'a> Verify<'a> {
    /// The inputs and the sources of their bytes. It fails only if memory runs out.
    pub fn places(&self, alloc: Global) -> Result<Vec<Place<'a>>, NoMemory>
        ensures places { let words = self.now.words in IfOk result (λ places. map plain_place places.items
            ≡ places_of (verify_inputs (plain_word words.rules) words.old.now words.new.now words.certificate.now)) }
        ensures named { IfErr result (λ e. e ≡ Allocation) }
    {
        let rules = Place::named_or_empty(alloc, Input::Rules, self.words.rules);
        Ok(vec![in alloc;
            Place::named(Input::Old, self.words.old),
            Place::named(Input::New, self.words.new),
            rules,
            Place::named(Input::Certificate, self.words.certificate),
        ]?)
    }
}

impl Command for Verify<'_> {
    ghost inputs = { λ c. verify_inputs (plain_word c.words.rules)
        c.words.old.now c.words.new.now c.words.certificate.now };

    ghost says = { λ c voices. verify_says };

    ghost passes = { λ c. verify_passes };

    fn judge(
        self,
        alloc: Global,
        all: &[Vec<u8>],
        _listeners: Vec<Box<dyn Listener>>,
    ) -> Result<Judgement, Stop> {
        let (old, new, rules, certificate) = four(all);
        verify_certificate(alloc, old, new, rules, certificate)
    }
}

// The judgement of `verify` on the bytes of an old library, a new one, a rule file and a certificate. Faults are reported in this
// order of the inputs.
fn verify_certificate(
    alloc: Global,
    old: &[u8],
    new: &[u8],
    rules: &[u8],
    certificate: &[u8],
) -> Result<Judgement, Stop>
    requires old_short { length old.now ≤ input_limit }
    requires new_short { length new.now ≤ input_limit }
    ensures readable { OnOk result (AreReadable verify_asks (old.now ∷ new.now ∷ rules.now ∷ certificate.now ∷ [])) }
    ensures said { IfOk result (λ j. verify_says
        (old.now ∷ new.now ∷ rules.now ∷ certificate.now ∷ []) j.verdict j.untyped j.text.items) }
    ensures stops { IfErr result (StopsAt verify_asks verify_passes
        (old.now ∷ new.now ∷ rules.now ∷ certificate.now ∷ [])) }
{
    match verifying::verify(alloc, old, new, rules, certificate)? {
        None => Ok(Judgement {
            verdict: Verdict::Yes,
            untyped: None,
            text: text::accepted(alloc)?,
        }),
        Some(refused) => Ok(Judgement {
            verdict: Verdict::Refused,
            untyped: None,
            text: text::refused(alloc, refused)?,
        }),
    }
}
