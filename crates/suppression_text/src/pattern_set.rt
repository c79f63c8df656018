//! Patterns that are searched for together.
ghost use Rattle.std.specs.Prelude.{◌≡◌, true, map, All, IfErr, IfOk};
ghost use Rattle.abi_base.specs.declared.fault.NoMemory.TheVariants.{Allocation};
ghost use Rattle.std.specs.Str.{is_utf8};
ghost use Rattle.suppression_text.specs.Patterns as spec;

use crate::pattern::text_in;
use abi_base::NoMemory;
use regex::bytes::{RegexSet, SetMatcher};
use std::alloc::Global;
use std::marker::Model;

/// Patterns that are compiled to be searched for together. Contracts see the list of their texts.
#[derive(Drop)]
pub struct PatternSet {
    set: RegexSet,
}

impl Model for PatternSet {
    ghost use Rattle.std.specs.Prelude.{ℕ, List};

    ghost Value = { List (List ℕ) };

    ghost use Rattle.regex.specs.Bytes.{set_patterns, set_sources};
    ghost use Rattle.suppression_text.specs.Patterns.{IsSearchForOne};

    ghost view = { λ p. set_sources p.set };

    ghost invariant = { λ p. IsSearchForOne (set_sources p.set) (set_patterns p.set) };
}

// The bytes as texts. Returns `NoMemory` if memory runs out, or if some are not UTF-8.
fn texts_in<'t>(alloc: Global, all: &[&'t [u8]]) -> Result<Vec<&'t str>, NoMemory>
    ensures texts { IfOk result (λ texts. map (λ text. text.now) texts.items ≡ map (λ bytes. bytes.now) all.now) }
    ensures utf8 { IfOk result (λ texts. All (λ text. is_utf8 text.now ≡ true) texts.items) }
    ensures named { IfErr result (λ e. e ≡ Allocation) }
{
    let mut texts = Vec::with_capacity(alloc, all.len())?;
    for bytes in all {
        let Some(text) = text_in(*bytes) else {
            return Err(NoMemory::Allocation);
        };
        texts.push(text)?;
    }
    Ok(texts)
}

impl PatternSet {
    /// Compiles patterns. Returns `NoMemory` if memory runs out, if a compiled pattern would exceed the limit of `regex`, or if a text
    /// is not a pattern.
    pub fn compile(alloc: Global, texts: &[&[u8]]) -> Result<PatternSet, NoMemory>
        ensures texts { IfOk result (λ set. set ≡ map (λ text. text.now) texts.now) }
        ensures named { IfErr result (λ e. e ≡ Allocation) }
    {
        let sources = texts_in(alloc, texts)?;
        match RegexSet::new(alloc, sources.as_slice()) {
            Ok(set) => Ok(PatternSet { set }),
            Err(_) => Err(NoMemory::Allocation),
        }
    }

    /// A searcher for the patterns.
    pub fn finder(&self, alloc: Global) -> Result<SetFinder<'_>, NoMemory>
        ensures texts { IfOk result (λ finder. finder ≡ self.now) }
        ensures named { IfErr result (λ e. e ≡ Allocation) }
    {
        let matcher = self.set.matcher(alloc)?;
        Ok(SetFinder { set: self, matcher })
    }
}

/// A searcher for several patterns. A search for all takes about as long as a search for one. Contracts see it as the texts of the
/// patterns.
#[derive(Drop)]
pub struct SetFinder<'p> {
    set: &'p PatternSet,
    matcher: SetMatcher<'p>,
}

impl<'p> Model for SetFinder<'p> {
    ghost use Rattle.std.specs.Prelude.{ℕ, List};

    ghost Value = { List (List ℕ) };

    ghost use Rattle.regex.specs.Bytes.{set_matcher_patterns};
    ghost use Rattle.suppression_text.specs.Patterns.{IsSearchForOne};

    ghost view = { λ f. f.set.now };

    ghost invariant = { λ f. IsSearchForOne f.set.now (set_matcher_patterns f.matcher) };
}

impl<'p> SetFinder<'p> {
    /// Whether one of the patterns matches anywhere in bytes.
    pub fn finds(&mut self, bytes: &[u8]) -> bool
        ensures found { result ≡ spec.is_one_found self.old bytes.now }
        ensures same { self.new ≡ self.old }
    {
        self.matcher.is_match(bytes)
    }
}
