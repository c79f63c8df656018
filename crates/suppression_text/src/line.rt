// The lines of a rule file, and the form of each.
ghost use Rattle.std.specs.Prelude.{◌≡◌, ◌<◌, ◌≤◌, ◌-◌, ◌∷◌, [], length, take, drop, position, Some, None, MatchOption};
ghost use Rattle.std.specs.Str.Lines.{lines, strip_carriage_return};
ghost use Rattle.suppression_text.specs.Lines.{is_feed, is_equals, property_form, form_of};
ghost use Rattle.suppression_text.specs.Lines as spec;
ghost use Rattle.suppression_text.specs.PlainLines.{plain_line};

/// The form of a line.
#[derive(Clone, Copy)]
pub enum Line<'a> {
    /// An empty line, a line of blanks, or a comment.
    Comment,
    /// The first line of a section, with its name.
    Head { name: &'a [u8] },
    /// A property of a section, with its name and its value.
    Property { name: &'a [u8], value: &'a [u8] },
    /// None of these.
    Other,
}

/// The first line of a text, and the rest.
#[derive(Clone, Copy)]
pub struct FirstLine<'a> {
    /// The line, without its line feed.
    pub line: &'a [u8],
    /// The text after the line feed.
    pub rest: &'a [u8],
}

// The bytes before a position.
fn before(text: &[u8], at: usize) -> &[u8]
    requires { at ≤ length text.now }
    ensures { result.now ≡ take at text.now }
{
    &text[..at]
}

// The bytes from a position on.
pub(crate) fn from(text: &[u8], at: usize) -> &[u8]
    requires { at ≤ length text.now }
    ensures { result.now ≡ drop at text.now }
{
    &text[at..]
}

// The position of the first line feed.
fn feed_in(text: &[u8]) -> Option<usize>
    ensures { result ≡ position is_feed text.now }
{
    text.iter().position(|byte| *byte == b'\n')
}

// The position of the first `=`.
pub(crate) fn equals_in(text: &[u8]) -> Option<usize>
    ensures { result ≡ position is_equals text.now }
{
    text.iter().position(|byte| *byte == b'=')
}

// A line without the carriage return in front of its line feed.
fn without_return(line: &[u8]) -> &[u8]
    ensures { result.now ≡ strip_carriage_return line.now }
{
    let len = line.len();
    if len > 0 && line[len - 1] == b'\r' {
        before(line, len - 1)
    } else {
        line
    }
}

/// The first line of a text, or `None` for a text without lines. A line ends with a line feed; one carriage return in front of it
/// is not part of the line. The last line may lack its line feed.
pub fn first_line(text: &[u8]) -> Option<FirstLine>
    ensures lines { MatchOption result (lines text.now ≡ [])
        (λ first. lines text.now ≡ first.line.now ∷ lines first.rest.now) }
    ensures shorter { MatchOption result (text.now ≡ []) (λ first. length first.rest.now < length text.now) }
{
    match feed_in(text) {
        Some(at) => Some(FirstLine {
            line: without_return(before(text, at)),
            rest: from(text, at + 1),
        }),
        None => {
            if text.is_empty() {
                None
            } else {
                Some(FirstLine {
                    line: text,
                    rest: from(text, text.len()),
                })
            }
        }
    }
}

// Whether a byte is a space or a tab.
fn is_blank(byte: u8) -> bool
    ensures { result ≡ spec.is_blank byte }
{
    byte == b' ' || byte == b'\t'
}

// A text without leading blanks.
fn without_front(text: &[u8]) -> &[u8]
    ensures { result.now ≡ spec.without_front text.now }
{
    let mut at = 0;
    'blanks: while at < text.len() {
        let byte = text[at];
        if !is_blank(byte) {
            return from(text, at);
        }
        at += 1;
    }
    from(text, at)
}

// A text without trailing blanks.
fn without_end(text: &[u8]) -> &[u8]
    ensures { result.now ≡ spec.without_end text.now }
{
    let mut end = text.len();
    'blanks: while end > 0 {
        let byte = text[end - 1];
        if !is_blank(byte) {
            return before(text, end);
        }
        end -= 1;
    }
    before(text, end)
}

/// A text without leading and trailing blanks, which are spaces and tabs.
pub fn trimmed(text: &[u8]) -> &[u8]
    ensures { result.now ≡ spec.trimmed text.now }
{
    without_end(without_front(text))
}

// Whether a line is empty or a comment.
fn is_comment(line: &[u8]) -> bool
    ensures { result ≡ spec.is_comment line.now }
{
    line.is_empty() || line[0] == b'#' || line[0] == b';'
}

// Whether a line is the head of a section.
fn is_head(line: &[u8]) -> bool
    ensures { result ≡ spec.is_head line.now }
{
    line.len() > 1 && line[0] == b'[' && line[line.len() - 1] == b']'
}

// The bytes between the first and the last.
fn inside(line: &[u8]) -> &[u8]
    requires { 1 < length line.now }
    ensures { result.now ≡ spec.inside line.now }
{
    before(from(line, 1), line.len() - 2)
}

// The form of a line that is neither a comment nor a head.
fn property_of(line: &[u8]) -> Line
    ensures { plain_line result ≡ property_form line.now }
{
    match equals_in(line) {
        None => Line::Other,
        Some(at) => Line::Property {
            name: trimmed(before(line, at)),
            value: trimmed(from(line, at + 1)),
        },
    }
}

/// The form of a line, ignoring blanks at both ends.
#[tactic(auto, unfolding(crate::specs::Lines::form_of))]
pub fn line_of(line: &[u8]) -> Line
    ensures { plain_line result ≡ form_of line.now }
{
    let text = trimmed(line);
    if is_comment(text) {
        return Line::Comment;
    }
    if is_head(text) {
        return Line::Head {
            name: trimmed(inside(text)),
        };
    }
    property_of(text)
}
