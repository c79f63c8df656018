// The numbers of registers that an object takes, by the classes of its eightbytes.
ghost use Rattle.std.specs.Prelude.{◌≡◌, ◌≤◌, length};
ghost use Rattle.std.specs.List.{list_all};
ghost use Rattle.psabi.specs.Class.{is_no_class};
ghost use Rattle.psabi.specs.Registers as spec;

use crate::class::Class;

/// The number of general registers of an object whose eightbytes have these classes.
#[tactic(auto, unfolding(crate::specs::Registers::general_count))]
pub fn general_count(classes: &[Class]) -> u64
    ensures number { result ≡ spec.general_count classes.now }
    ensures few { result ≤ length classes.now }
{
    classes
        .iter()
        .filter(|class| matches!(**class, Class::Integer))
        .count() as u64
}

/// The number of vector registers of an object whose eightbytes have these classes.
#[tactic(auto, unfolding(crate::specs::Registers::vector_count))]
pub fn vector_count(classes: &[Class]) -> u64
    ensures number { result ≡ spec.vector_count classes.now }
    ensures few { result ≤ length classes.now }
{
    classes
        .iter()
        .filter(|class| matches!(**class, Class::Sse))
        .count() as u64
}

fn have_no_class(classes: &[Class]) -> bool
    ensures { result ≡ list_all is_no_class classes.now }
{
    classes.iter().all(|class| matches!(*class, Class::NoClass))
}

/// Whether an object of this size and these classes is neither in registers nor on the stack.
#[tactic(auto, unfolding(crate::specs::Registers::has_no_place))]
pub fn has_no_place(size: u64, classes: &[Class; 8]) -> bool
    ensures { result ≡ spec.has_no_place size classes.now }
{
    if size == 0 {
        return true;
    }
    have_no_class(classes)
}
