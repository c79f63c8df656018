// Patterns: regular expressions over bytes.
ghost use Rattle.std.specs.Prelude.{◌≡◌, IfErr, IfOk, IfSome, IfNone, true, false};
ghost use Rattle.abi_base.specs.declared.fault.NoMemory.TheVariants.{Allocation};
ghost use Rattle.std.specs.Str.{is_utf8};
ghost use Rattle.suppression_text.specs.Patterns as spec;

use abi_base::NoMemory;
use regex::bytes::{Matcher, Regex};
use regex_syntax::{Config, ErrorKind};
use std::alloc::Global;
use std::marker::Model;

/// A regular expression that is compiled. Contracts see it as its text.
#[derive(Drop)]
pub struct Pattern {
    regex: Regex,
}

impl Model for Pattern {
    ghost use Rattle.std.specs.Prelude.{ℕ, List};

    ghost Value = { List ℕ };

    ghost use Rattle.regex.specs.Bytes.{regex_source, regex_pattern};
    ghost use Rattle.suppression_text.specs.Patterns.{IsSearch};

    ghost view = { λ p. regex_source p.regex };

    ghost invariant = { λ p. IsSearch (regex_source p.regex) (regex_pattern p.regex) };
}

/// The bytes as a text, if they are UTF-8.
pub fn text_in(bytes: &[u8]) -> Option<&str>
    ensures text { IfSome result (λ text. (text.now ≡ bytes.now) × (is_utf8 bytes.now ≡ true)) }
    ensures none { IfNone result (is_utf8 bytes.now ≡ false) }
{
    match str::from_utf8(bytes) {
        Ok(text) => Some(text),
        Err(_) => None,
    }
}

// The options under which `regex` reads a pattern over bytes.
fn bytes_config() -> Config
    ensures { result ≡ spec.bytes_config }
{
    let mut config = Config::default();
    config.utf8 = false;
    config
}

/// Whether a text is a pattern: the grammar of `regex` accepts it, and its nesting depth is within the limit of `regex`. The text
/// is not compiled.
pub fn is_pattern(alloc: Global, text: &[u8]) -> Result<bool, NoMemory>
    ensures read { IfOk result (λ is. is ≡ spec.is_pattern text.now) }
    ensures named { IfErr result (λ e. e ≡ Allocation) }
{
    let Some(source) = text_in(text) else {
        return Ok(false);
    };
    match regex_syntax::parse(alloc, source, &bytes_config()) {
        Ok(parsed) => {
            drop(parsed);
            Ok(true)
        }
        Err(error) => match error.kind {
            ErrorKind::OutOfMemory => Err(NoMemory::Allocation),
            _ => Ok(false),
        },
    }
}

impl Pattern {
    /// Compiles a pattern. Returns `NoMemory` if memory runs out, if the compiled pattern would exceed the limit of `regex`, or if
    /// the text is not a pattern.
    pub fn compile(alloc: Global, text: &[u8]) -> Result<Pattern, NoMemory>
        ensures text { IfOk result (λ pattern. pattern ≡ text.now) }
        ensures named { IfErr result (λ e. e ≡ Allocation) }
    {
        let Some(source) = text_in(text) else {
            return Err(NoMemory::Allocation);
        };
        match Regex::new(alloc, source) {
            Ok(regex) => Ok(Pattern { regex }),
            Err(_) => Err(NoMemory::Allocation),
        }
    }

    /// The text of the pattern.
    pub fn text(&self) -> &[u8]
        ensures { result.now ≡ self.now }
    {
        self.regex.as_str().as_bytes()
    }

    /// A searcher for the pattern.
    pub fn finder(&self, alloc: Global) -> Result<Finder<'_>, NoMemory>
        ensures text { IfOk result (λ finder. finder ≡ self.now) }
        ensures named { IfErr result (λ e. e ≡ Allocation) }
    {
        let text = self.text();
        let matcher = self.regex.matcher(alloc)?;
        Ok(Finder { text, matcher })
    }
}

/// A searcher for a pattern. Contracts see it as the pattern's text.
#[derive(Drop)]
pub struct Finder<'p> {
    text: &'p [u8],
    matcher: Matcher<'p>,
}

impl<'p> Model for Finder<'p> {
    ghost use Rattle.std.specs.Prelude.{ℕ, List};

    ghost Value = { List ℕ };

    ghost use Rattle.regex.specs.Bytes.{matcher_pattern};
    ghost use Rattle.suppression_text.specs.Patterns.{IsSearch};

    ghost view = { λ f. f.text.now };

    ghost invariant = { λ f. IsSearch f.text.now (matcher_pattern f.matcher) };
}

impl<'p> Finder<'p> {
    /// Whether the pattern matches anywhere in bytes.
    pub fn finds(&mut self, bytes: &[u8]) -> bool
        ensures found { result ≡ spec.is_found self.old bytes.now }
        ensures same { self.new ≡ self.old }
    {
        self.matcher.is_match(bytes)
    }
}
