// Named inputs, each read from start to end.
ghost use Rattle.std.specs.Prelude.{◌≡◌, ◌+◌, ◌≤◌, ◌<◌, ◌||◌, List, ℕ, length, Option, Some, None, OnOk, OnErr, IfOk, IfSome, IsSome, IsErrOf, Bool, false, is_err, is_none};
ghost use Rattle.std.specs.Io.{ReadsAtMost};
ghost use Rattle.std.specs.Io.KnownBytes.{ReadConsumes};
ghost use Rattle.abi_base.specs.Causes.{Rose, NeverFall, SameCounts, SameNames, Unfailing, OnTold, count_after};

use crate::{Failed, Take};
use std::alloc::{AllocError, Global};

/// Named inputs. `start` makes one of them the current input, and `read` gives its bytes, piece by piece.
pub trait Inputs {
    /// How many calls have failed under each name. The counter saturates at the end of `u64`.
    ghost faults: { Self → List ℕ → ℕ };

    /// The bytes of each name, where they are known. Nothing is known of a real file.
    ghost told: { Self → List ℕ → Option (List ℕ) };

    /// Whether the current input, the one started last, answers to a name.
    ghost answers_to: { Self → List ℕ → Type 0 };

    /// The rest of the current input, where it is known.
    ghost left: { Self → Option (List ℕ) };

    /// How many bytes were read since the last call of `start`. The counter saturates at the end of `u64`.
    ghost given: { Self → ℕ };

    /// How many times `start` was called. The counter saturates at the end of `u64`.
    ghost started: { Self → ℕ };

    /// Whether a call is set up to fail, where that is known; the next call is number 0. Nothing is known of a real file.
    ghost is_made_to_fail: { Self → ℕ → Option Bool } = { λ inputs k. None };

    /// Makes the input of this name the current one, at its start. After `Failed` the current input is unchanged.
    fn start(&mut self, name: &str) -> Result<(), Failed>
        ensures told { (other : List ℕ) → told self.new other ≡ told self.old other }
        ensures later { NeverFall (faults self.old) (faults self.new) }

        ensures current { OnOk result (answers_to self.new name.now) }
        ensures left { OnOk result (OnTold (told self.old name.now) (left self.new)) }
        ensures given { given self.new ≡ 0 }
        ensures started { started self.new ≡ count_after (started self.old) 1 }

        // If the bytes of the name are known, the current input answers to no other name.
        ensures only { OnOk result (IfSome (told self.old name.now) (λ _. (other : List ℕ)
            → answers_to self.new other → other ≡ name.now)) }

        ensures cause { OnErr result (Rose (faults self.old name.now) (faults self.new name.now)) }
        ensures steady { OnOk result (SameCounts (faults self.old) (faults self.new)) }
        ensures kept { OnErr result (left self.new ≡ left self.old) }
        ensures kept_names { OnErr result (SameNames (answers_to self.old) (answers_to self.new)) }

        // A failure counts once. An unplanned failure counts for no name whose bytes are known.
        ensures once { (other : List ℕ) → faults self.new other ≤ faults self.old other + 1 }
        ensures missing { IfSome (is_made_to_fail self.old 0) (λ fails. fails ≡ false → (other : List ℕ)
            → IsSome (told self.old other) → faults self.new other ≡ faults self.old other) }

        // Where the planned failures are known, `start` fails exactly in those calls and for names whose bytes are not known.
        ensures fails { IfSome (is_made_to_fail self.old 0)
            (λ fails. is_err result ≡ (fails || is_none (told self.old name.now))) }
        ensures next { (k : ℕ) → is_made_to_fail self.new k ≡ is_made_to_fail self.old (k + 1) };

    /// Reads the next bytes of the current input into the front of `into`. Answers their number: 0 only at the end,
    /// or where `into` is empty. After `Failed` the rest of the input is unchanged, as `bytes` says.
    fn read(&mut self, into: &mut [u8]) -> Result<usize, Failed>
        ensures told { (other : List ℕ) → told self.new other ≡ told self.old other }
        ensures later { NeverFall (faults self.old) (faults self.new) }
        ensures names { SameNames (answers_to self.old) (answers_to self.new) }

        ensures bound { ReadsAtMost result into.new }
        ensures bytes { ReadConsumes (left self.old) (left self.new) result into.new }
        ensures given { IfOk result (λ count. given self.new ≡ count_after (given self.old) count) }

        ensures cause { OnErr result ((name : List ℕ) → answers_to self.old name
            → Rose (faults self.old name) (faults self.new name)) }
        ensures steady { OnOk result (SameCounts (faults self.old) (faults self.new)) }
        ensures kept_given { OnErr result (given self.new ≡ given self.old) }
        ensures started { started self.new ≡ started self.old }

        // A failure counts once.
        ensures once { (other : List ℕ) → faults self.new other ≤ faults self.old other + 1 }

        // Where the planned failures are known, `read` fails in exactly those calls.
        ensures fails { IfSome (is_made_to_fail self.old 0) (λ fails. is_err result ≡ fails) }
        ensures next { (k : ℕ) → is_made_to_fail self.new k ≡ is_made_to_fail self.old (k + 1) };
}

// A count of bytes read, after `count` more.
pub(crate) fn given_after(given: u64, count: usize) -> u64
    ensures { result ≡ count_after given count }
{
    given.saturating_add(count as u64)
}

// The size of the buffer for one call of `read`.
const PIECE: usize = 65536;

// A buffer of one piece. The contract does not give its size, because a proof would then write out each byte.
fn piece_of(alloc: Global) -> Result<Vec<u8>, AllocError>
    ensures { IfOk result (λ piece. 0 < length piece.items) }
{
    vec![in alloc; 0u8; PIECE]
}

/// All bytes of the input of this name, read to its end. `TooLong` comes exactly where more than `limit` bytes were read,
/// `Failed` only where the fault count of the name rose and at most `limit` bytes were read, and `NoMemory` where memory
/// ran out. The input remains the current one; a later call starts it again.
pub fn read_whole<I: Inputs>(
    alloc: Global,
    inputs: &mut I,
    name: &str,
    limit: usize,
) -> Result<Vec<u8>, Take>
    ensures told { (other : List ℕ) → I.told inputs.new other ≡ I.told inputs.old other }
    ensures later { NeverFall (I.faults inputs.old) (I.faults inputs.new) }

    // The result has the known bytes, and all that were read.
    ensures whole { IfOk result (λ bytes. IfSome (I.told inputs.old name.now) (λ all. bytes.items ≡ all)) }
    ensures given { IfOk result (λ bytes. I.given inputs.new ≡ length bytes.items) }
    ensures within { IfOk result (λ bytes. length bytes.items ≤ limit) }

    // More than `limit` bytes were read; where the bytes of the name are known, there are more than `limit`.
    ensures too_long { IsErrOf result Take.TooLong → limit < I.given inputs.new }
    ensures told_too_long { IsErrOf result Take.TooLong
        → IfSome (I.told inputs.old name.now) (λ all. limit < length all) }
    ensures given_more { limit < I.given inputs.new → IsErrOf result Take.TooLong }

    // If no failure is planned and the bytes of the name are known, no fault count rises.
    ensures still { Unfailing I.is_made_to_fail inputs.old → Unfailing I.is_made_to_fail inputs.new }
    ensures steady { Unfailing I.is_made_to_fail inputs.old → IsSome (I.told inputs.old name.now)
        → SameCounts (I.faults inputs.old) (I.faults inputs.new) }

    ensures failed { IsErrOf result Take.Failed → Rose (I.faults inputs.old name.now) (I.faults inputs.new name.now) }
    ensures failed_within { IsErrOf result Take.Failed → I.given inputs.new ≤ limit }

    // The input was started exactly once, unless memory ran out.
    ensures started { I.started inputs.new ≡ count_after (I.started inputs.old) 1 }
{
    inputs.start(name)?;
    let mut piece = piece_of(alloc)?;
    let mut bytes = Vec::new(alloc);
    'pieces: loop {
        let count = inputs.read(&mut piece)?;
        if count == 0 {
            return Ok(bytes);
        }
        if count > limit - bytes.len() {
            return Err(Take::TooLong);
        }
        bytes.extend_from_slice(&piece[..count])?;
    }
}
