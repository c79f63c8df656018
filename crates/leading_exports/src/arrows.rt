// Which numbers lead to marked ones along arrows.
ghost use Rattle.std.specs.Prelude.{◌≡◌, ◌<◌, ◌≤◌, ◌↔◌, ℕ, true, false, not, length, count_by, slice_index_or, slice_set, IsTrue, IfErr, OnOk, OnErr};
ghost use Rattle.abi_base.specs.declared.fault.NoMemory.TheVariants.{Past};
ghost use Rattle.leading_exports.specs.Arrows.{AreClosed, ComeFromInside, IsClosedAt, IsMarked, IsSpread, KeepsMarks, LeadsToMark, TakesPasses};

use abi_base::{Effort, NoMemory};

/// An arrow from one number to another.
pub type Arrow = (usize, usize);

// Whether a number is marked; a number past the end is not.
fn is_marked(marks: &[bool], number: usize) -> bool
    ensures { result ≡ slice_index_or marks.now number false }
{
    match marks.get(number) {
        Some(mark) => *mark,
        None => false,
    }
}

// Marks the number where an arrow begins, if the arrow leads to a marked one. Returns whether the mark is new.
fn follow(marks: &mut [bool], arrow: Arrow) -> bool
    requires { arrow.0 < length marks.old }
    ensures kept { result ≡ false → marks.new ≡ marks.old }
    ensures closed { result ≡ false → IsClosedAt marks.old arrow }
    ensures leads { result ≡ true → IsMarked marks.old arrow.1 }
    ensures unmarked { result ≡ true → slice_index_or marks.old arrow.0 false ≡ false }
    ensures marked { result ≡ true → marks.new ≡ slice_set marks.old arrow.0 true }
{
    let (from, to) = arrow;
    if is_marked(marks, from) {
        return false;
    }
    if !is_marked(marks, to) {
        return false;
    }
    marks[from] = true;
    true
}

// Follows each arrow once, from the last to the first. Returns whether any mark is new.
fn follow_all(arrows: &[Arrow], marks: &mut [bool]) -> bool
    requires { ComeFromInside arrows.now (length marks.old) }
    ensures spread { IsSpread arrows.now marks.old marks.new }
    ensures kept { KeepsMarks marks.old marks.new }
    ensures closed { result ≡ false → AreClosed arrows.now marks.new }
    ensures fewer { result ≡ true → count_by not marks.new < count_by not marks.old }
{
    let mut is_new = false;
    let mut left = arrows.len();
    'arrows: while left > 0 {
        left -= 1;
        let arrow = arrows[left];
        let found = follow(marks, arrow);
        is_new = is_new | found;
    }
    is_new
}

/// Marks each number from which arrows lead to a marked one. Passes over the arrows go from the last to the first, so that one
/// mostly suffices where arrows lead from lower numbers to higher ones. Each pass takes one byte's effort for each arrow; it fails
/// where less is left.
pub fn mark_leading(
    arrows: &[Arrow],
    marks: &mut [bool],
    effort: &mut Effort,
) -> Result<(), NoMemory>
    requires { ComeFromInside arrows.now (length marks.old) }
    ensures marked { OnOk result ((m : ℕ) → IsMarked marks.new m ↔ LeadsToMark arrows.now marks.old m) }
    ensures spent { TakesPasses (length arrows.now) effort.old.left effort.new.left }
    ensures err { OnErr result (effort.new.left < length arrows.now) }
    ensures named { IfErr result (λ e. e ≡ Past effort.old.limit) }
    ensures limit { effort.new.limit ≡ effort.old.limit }
{
    'passes: while follow_all(arrows, marks) {
        effort.spend(arrows.len())?;
    }
    Ok(())
}
