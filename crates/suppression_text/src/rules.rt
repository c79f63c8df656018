// A rule file after it is read.
ghost use Rattle.std.specs.Prelude.{◌≡◌};
ghost use Rattle.suppression_text.specs.Rules.{plain_rules};

use crate::section::Section;
use std::marker::Model;

/// The contents of a rule file. Contracts see it as `PlainRules`.
#[derive(Drop)]
pub struct Rules {
    digest: [u8; 32],
    sections: Vec<Section>,
}

impl Model for Rules {
    ghost use Rattle.suppression_text.specs.Rules.{PlainRules};

    ghost Value = { PlainRules };

    ghost use Rattle.suppression_text.specs.Rules.{plain_rules};

    ghost view = { λ r. plain_rules r.digest r.sections.items };
}

impl Rules {
    /// The rules of a file with this digest and these sections.
    pub(crate) fn new(digest: [u8; 32], sections: Vec<Section>) -> Rules
        ensures { result ≡ plain_rules digest sections.items }
    {
        Rules { digest, sections }
    }

    /// The SHA-256 of the file.
    pub fn digest(&self) -> [u8; 32]
        ensures { result ≡ self.now.digest }
    {
        self.digest
    }

    /// Its sections, in order.
    pub fn sections(&self) -> &[Section]
        ensures { result.now ≡ self.now.sections }
    {
        self.sections.as_slice()
    }
}
