// The end of the last string of a section.
ghost use Rattle.std.specs.Prelude.{◌≤◌, length};
ghost use Rattle.dwarf_text.specs.Texts.{TextsEnd};

/// The offset after the last 0 byte of a string section, or 0 where there is none. A string, possibly empty, begins at each offset
/// before it and at no other. A caller that tests many offsets thus need not search for the end of each string.
pub fn texts_end(section: &[u8]) -> usize
    ensures end { TextsEnd section.now result }
    ensures inside { result ≤ length section.now }
{
    let mut end = section.len();
    'back: while end > 0 {
        if section[end - 1] == 0 {
            return end;
        }
        end -= 1;
    }
    0
}
