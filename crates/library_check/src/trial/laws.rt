//! Laws of trials. Each law is the contract of a function that only cites the laws below it.
ghost use Rattle.std.specs.Prelude.{◌≡◌, ◌≤◌, ℕ, List, [], ◌∷◌};
ghost use Rattle.commands.specs.Faults.{IsOutOfMemory, StopsAt};
ghost use Rattle.commands.specs.declared.stop.Stop.{Stop};
ghost use Rattle.trial_libraries.specs.Limits.{most_functions};
ghost use Rattle.library_check.specs.Inputs.{pair_asks};
ghost use Rattle.library_check.specs.Rows.Trial.{trial_passes};
ghost use Rattle.library_check.specs.trial.Trials.{IsTrialText, new_library, old_library};

use crate::laws::a_check_has_one_text;
use trial_libraries::laws::made_libraries_are_no_longer_than_inputs;

/// A trial of n functions has only one text.
pub fn a_trial_has_one_text()
    ensures { (n : ℕ) (lines other : List ℕ) → n ≤ most_functions → IsTrialText n lines → IsTrialText n other
        → lines ≡ other }
{
    made_libraries_are_no_longer_than_inputs();
    a_check_has_one_text();
}

/// A trial that has a text is stopped only if memory runs out.
pub fn a_trial_with_a_text_has_no_fault()
    ensures { (n : ℕ) (lines : List ℕ) (stop : Stop) → IsTrialText n lines
        → StopsAt pair_asks (trial_passes n) (old_library n ∷ new_library n ∷ []) stop → IsOutOfMemory stop }
{}
