//! What the answers of `check`, `app`, `verify`, `migrate` and `compose` imply. Each law is the contract of a function that only
//! cites the laws below it.
ghost use Rattle.std.specs.Prelude.{◌≡◌, ◌≢◌, ◌≤◌, ◌↔◌, ℕ, List, [], ◌∷◌, Option, None, length, All};
ghost use Rattle.abi_base.specs.Limits.{input_limit};
ghost use Rattle.abi_types.specs.Libraries.{PlainLibrary};
ghost use Rattle.accesses.specs.LeafPlaces.{LeavesStay};
ghost use Rattle.cert_check.specs.Compatible.{task_of};
ghost use Rattle.report.specs.Listening.{Voice};
ghost use Rattle.pair_compare.specs.Marking.{no_marks};
ghost use Rattle.cert_check.specs.Accepted.{IsAccepted};
ghost use Rattle.cert_check.specs.FirstVersion.{IsAccepted1, migrated_case};
ghost use Rattle.cert_check.specs.declared.refused.Refused.{Refused};
ghost use Rattle.cert_text.specs.Certs.{PlainCert1};
ghost use Rattle.cert_text.specs.Grammar.{IsSpelled1};
ghost use Rattle.library_read.specs.Faults.{library_fault};
ghost use Rattle.suppression_text.specs.Faults.{rule_fault};
ghost use Rattle.suppression_text.specs.Rules.{rules_of};
ghost use Rattle.suppressions.specs.Marks.{marks_of};
ghost use Rattle.suppressions.specs.Reasons.{HasNoWays};
ghost use Rattle.library_check.specs.Applications.{AgreedFor, ImportTheSame, IsAppReportText, IsCompatibleFor, KeepsLeavesFor, sides_for};
ghost use Rattle.commands.specs.Faults.{AreReadable, IsOutOfMemory, StopsAt};
ghost use Rattle.commands.specs.declared.stop.Stop.{Stop as AnyStop};
ghost use Rattle.commands.specs.declared.verdict.Verdict.{Verdict};
ghost use Rattle.commands.specs.declared.verdict.Verdict.TheVariants.{Yes};
ghost use Rattle.library_check.specs.Checks.{Agreed, Compatible, IsCertificateText, IsReportText, sides_of};
ghost use Rattle.library_check.specs.Compositions.{IsComposedText, IsLostText, PlainFiles};
ghost use Rattle.library_check.specs.Migrations.{IsMigratedText, IsRefusedMigration};
ghost use Rattle.library_check.specs.Inputs.{check_asks};
ghost use Rattle.library_check.specs.Relations.{IsRelationText};
ghost use Rattle.library_check.specs.Rows.App.{AppSays};
ghost use Rattle.library_check.specs.Rows.Compose.{ComposeSays};
ghost use Rattle.library_check.specs.Rows.Migrate.{MigrateSays};
ghost use Rattle.library_check.specs.Rows.Verify.{verify_asks, verify_passes};
ghost use Rattle.library_check.specs.Verifications.{IsAcceptedText, IsRefusedText, IsVerified, certificate_fault};
ghost use Rattle.library_check.specs.Voices.{TellsItsText};
ghost use Rattle.report.specs.declared.styles.report_option.ReportStyle.{ReportStyle as AnyWanted};
ghost use Rattle.report.specs.declared.styles.report_option.ReportStyle.TheVariants.{Own};
ghost use Rattle.report.specs.styles.Wanted.{wanted_voices};

use cert_check::laws::{
    a_migrated_certificate_is_accepted, one_place_fails_first, roots_are_typed_pairs,
    the_relation_of_an_accepted_certificate_is_closed,
};
use cert_compose::laws::{one_thing_is_lost_first, what_is_composed_is_one};
use cert_text::laws::{
    a_text_is_of_one_certificate, a_text_is_of_one_certificate_of_version_1,
    what_is_spelled_has_no_fault,
};
use library_read::laws::{nodes_stand_for_what_exports_reach, readable_files_are_libraries};
use pair_compare::laws::{
    a_library_may_replace_itself, exports_without_a_fault_are_distinct,
    two_libraries_have_one_right_answer,
};
use suppressions::laws::{
    a_rule_file_marks_equal_labels_alike, rules_without_accessed_through_see_no_way,
};

/// A readable file may replace itself, whatever a rule file suppresses.
pub fn a_file_may_replace_itself()
    ensures { (bytes rules : List ℕ) → library_fault bytes ≡ None → Compatible bytes bytes rules }
{
    exports_without_a_fault_are_distinct();
    a_library_may_replace_itself();
}

/// The certificate of two readable libraries and a readable rule file has only one text. So has the report, with listeners whose
/// texts the rows determine.
pub fn a_check_has_one_text()
    ensures certificate { (old new rules text other : List ℕ) → length old ≤ input_limit → length new ≤ input_limit
        → AreReadable check_asks (old ∷ new ∷ rules ∷ [])
        → IsCertificateText old new rules text → IsCertificateText old new rules other → text ≡ other }
    ensures report { (voices : List Voice) (old new rules text other : List ℕ) → All TellsItsText voices
        → length old ≤ input_limit → length new ≤ input_limit → AreReadable check_asks (old ∷ new ∷ rules ∷ [])
        → IsReportText voices old new rules text → IsReportText voices old new rules other → text ≡ other }
{
    two_libraries_have_one_right_answer();
    nodes_stand_for_what_exports_reach();
}

/// The rows determine the texts of the wanted listeners in every style except `Own`.
pub fn the_rows_decide_the_texts_of_a_style()
    ensures { (wanted : AnyWanted) (voices : List Voice) → wanted ≢ Own
        → All TellsItsText (wanted_voices wanted voices) }
{}

/// `verify` gives one answer on a certificate for the same inputs: it never both accepts and refuses it, and refuses it for one
/// condition.
pub fn a_verification_has_one_answer()
    ensures { (old new rules certificate : List ℕ) (one other : Option Refused)
        → IsVerified old new rules certificate one → IsVerified old new rules certificate other → one ≡ other }
{
    a_text_is_of_one_certificate();
    one_place_fails_first();
}

/// What `check` prints on yes is a certificate without a fault that is accepted for the same inputs. `verify` can give no other
/// answer on it, unless memory runs out.
pub fn what_check_prints_is_accepted()
    ensures readable { (old new rules text : List ℕ) → IsCertificateText old new rules text
        → certificate_fault text ≡ None }
    ensures accepted { (old new rules text : List ℕ) → IsCertificateText old new rules text
        → IsAcceptedText old new rules text }
    ensures alone { (old new rules text : List ℕ) (unmet : Option Refused) → IsCertificateText old new rules text
        → IsVerified old new rules text unmet → unmet ≡ None }
    ensures memory { (old new rules text : List ℕ) (stop : AnyStop) → AreReadable check_asks (old ∷ new ∷ rules ∷ [])
        → IsCertificateText old new rules text
        → StopsAt verify_asks verify_passes (old ∷ new ∷ rules ∷ text ∷ []) stop → IsOutOfMemory stop }
{
    what_is_spelled_has_no_fault();
    a_verification_has_one_answer();
}

/// A certificate text that is accepted for readable libraries proves that the new one may replace the old one in all that the rule
/// file does not suppress.
pub fn an_accepted_certificate_is_a_proof()
    ensures { (old new rules certificate : List ℕ) → length old ≤ input_limit → length new ≤ input_limit
        → library_fault old ≡ None → library_fault new ≡ None
        → IsAcceptedText old new rules certificate → Compatible old new rules }
{
    cert_check::laws::an_accepted_certificate_is_a_proof();
    nodes_stand_for_what_exports_reach();
    readable_files_are_libraries();
    a_rule_file_marks_equal_labels_alike();
}

/// Such a text, whether `check` printed it or `verify` accepted it, shows a relation that proves the yes: it is closed under the
/// rules of types, and holds the types of all compared exports.
pub fn an_accepted_certificate_tells_such_a_relation()
    ensures { (old new rules certificate : List ℕ) → length old ≤ input_limit → length new ≤ input_limit
        → library_fault old ≡ None → library_fault new ≡ None
        → IsAcceptedText old new rules certificate → IsRelationText old new rules certificate }
{
    the_relation_of_an_accepted_certificate_is_closed();
    nodes_stand_for_what_exports_reach();
    a_rule_file_marks_equal_labels_alike();
}

/// If a rule file has no `accessed_through`, an accepted certificate of version 1 is also accepted after it is migrated.
pub fn a_certificate_may_be_migrated_without_accessed_through()
    ensures { (old new rules : List ℕ) (certificate : PlainCert1) → HasNoWays (rules_of rules)
        → IsAccepted1 (sides_of old new rules) certificate
        → IsAccepted (migrated_case (sides_of old new rules) certificate) }
{
    a_migrated_certificate_is_accepted();
    rules_without_accessed_through_see_no_way();
}

/// `migrate` does not refuse the text of such a certificate.
pub fn what_was_accepted_is_migrated()
    ensures { (old new rules certificate : List ℕ) (cert : PlainCert1) (refusal : Refused)
        → HasNoWays (rules_of rules) → IsSpelled1 certificate cert
        → IsAccepted1 (sides_of old new rules) cert → IsRefusedMigration old new rules certificate refusal → ⊥ }
{
    a_certificate_may_be_migrated_without_accessed_through();
    a_text_is_of_one_certificate_of_version_1();
}

/// What `migrate` prints is a certificate without a fault that is accepted for the same inputs.
pub fn what_is_migrated_is_accepted()
    ensures readable { (old new rules certificate text : List ℕ) → IsMigratedText old new rules certificate text
        → certificate_fault text ≡ None }
    ensures accepted { (old new rules certificate text : List ℕ) → IsMigratedText old new rules certificate text
        → IsAcceptedText old new rules text }
{
    what_is_spelled_has_no_fault();
}

/// `migrate` gives one answer on a certificate of version 1 for the same inputs: it prints one text, or refuses for one condition,
/// never both.
pub fn a_migration_has_one_answer()
    ensures answer { (old new rules certificate : List ℕ) (v w : Verdict) (text other : List ℕ)
        → MigrateSays old new rules certificate v text → MigrateSays old new rules certificate w other
        → (v ≡ w) × (text ≡ other) }
    ensures text { (old new rules certificate text other : List ℕ) → IsMigratedText old new rules certificate text
        → IsMigratedText old new rules certificate other → text ≡ other }
    ensures refusal { (old new rules certificate : List ℕ) (refusal another : Refused)
        → IsRefusedMigration old new rules certificate refusal → IsRefusedMigration old new rules certificate another
        → refusal ≡ another }
    ensures apart { (old new rules certificate text : List ℕ) (refusal : Refused)
        → IsMigratedText old new rules certificate text → IsRefusedMigration old new rules certificate refusal → ⊥ }
{
    a_text_is_of_one_certificate_of_version_1();
    one_place_fails_first();
}

/// `compose` gives one answer on two certificates for the same three libraries: it prints one text, or refuses the first or the
/// second certificate for one condition, or names one loss between them. These exclude each other: no certificate is both accepted
/// and refused, and nothing is lost between certificates that compose.
pub fn a_composition_has_one_answer()
    ensures answer { (p : PlainFiles) (v w : Verdict) (text other : List ℕ)
        → ComposeSays p v text → ComposeSays p w other → (v ≡ w) × (text ≡ other) }
    ensures text { (p : PlainFiles) (text other : List ℕ) → IsComposedText p text → IsComposedText p other
        → text ≡ other }
    ensures apart { (old new rules certificate : List ℕ) (refusal : Refused)
        → IsAcceptedText old new rules certificate → IsRefusedText old new rules certificate refusal → ⊥ }
    ensures loss { (p : PlainFiles) (refusal another : Refused)
        → IsLostText p refusal → IsLostText p another → refusal ≡ another }
    ensures lossless { (p : PlainFiles) (text : List ℕ) (refusal : Refused)
        → IsComposedText p text → IsLostText p refusal → ⊥ }
{
    a_text_is_of_one_certificate();
    one_place_fails_first();
    what_is_composed_is_one();
    one_thing_is_lost_first();
}

/// What `compose` prints is a certificate without a fault that is accepted for the first and the last library, with an empty rule
/// file, and is no longer than an input may be. So `verify` accepts it.
pub fn what_is_composed_is_accepted()
    ensures readable { (p : PlainFiles) (text : List ℕ) → IsComposedText p text → certificate_fault text ≡ None }
    ensures accepted { (p : PlainFiles) (text : List ℕ) → IsComposedText p text
        → IsAcceptedText p.first p.last [] text }
    ensures short { (p : PlainFiles) (text : List ℕ) → IsComposedText p text → length text ≤ input_limit }
{
    what_is_spelled_has_no_fault();
}

/// A new library may replace an old one exactly if a program compiled against the old one finds the same in the new one; and it may
/// for one application exactly if the application finds the same. If it may, each leaf on which an open access lands stays at its
/// offset, unless it lies under a place that is marked at its way, or under one that is declared only in the new library.
pub fn compatible_is_that_accesses_agree()
    ensures exact { (old new rules : List ℕ) → length old ≤ input_limit → length new ≤ input_limit
        → library_fault old ≡ None → library_fault new ≡ None
        → Compatible old new rules ↔ Agreed old new rules }
    ensures app { (app old new rules : List ℕ) → length old ≤ input_limit → length new ≤ input_limit
        → library_fault old ≡ None → library_fault new ≡ None
        → IsCompatibleFor app old new rules ↔ AgreedFor app old new rules }
    ensures leaves { (old new rules : List ℕ) → length old ≤ input_limit → length new ≤ input_limit
        → library_fault old ≡ None → library_fault new ≡ None
        → Compatible old new rules → LeavesStay (task_of (sides_of old new rules)) }
    ensures app_leaves { (app old new rules : List ℕ) → length old ≤ input_limit → length new ≤ input_limit
        → library_fault old ≡ None → library_fault new ≡ None
        → IsCompatibleFor app old new rules → KeepsLeavesFor app old new rules }
{
    cert_check::laws::compatible_is_that_accesses_agree();
    nodes_stand_for_what_exports_reach();
    readable_files_are_libraries();
}

/// `app` gives one answer, in one text, on an application, two libraries and a rule file, if the rows determine the texts of the
/// listeners.
pub fn an_application_has_one_answer()
    ensures report { (voices : List Voice) (app old new rules text other : List ℕ) → All TellsItsText voices
        → length old ≤ input_limit → length new ≤ input_limit → library_fault old ≡ None → library_fault new ≡ None
        → IsAppReportText voices app old new rules text → IsAppReportText voices app old new rules other → text ≡ other }
    ensures answer { (voices : List Voice) (app old new rules : List ℕ) (v w : Verdict) (text other : List ℕ)
        → All TellsItsText voices → length old ≤ input_limit → length new ≤ input_limit → library_fault old ≡ None
        → library_fault new ≡ None
        → AppSays voices app old new rules v text → AppSays voices app old new rules w other
        → (v ≡ w) × (text ≡ other) }
{
    two_libraries_have_one_right_answer();
    nodes_stand_for_what_exports_reach();
}

/// Two applications whose imports require the same names, versions and files use the same exports of any library. So the same is
/// compared for both, and they have the same answer and text.
pub fn applications_that_import_the_same_are_judged_alike()
    ensures sides { (app other old new rules : List ℕ) → ImportTheSame app other
        → sides_for app old new rules ≡ sides_for other old new rules }
    ensures answer { (voices : List Voice) (app other old new rules : List ℕ) (v w : Verdict) (text answer : List ℕ)
        → All TellsItsText voices → length old ≤ input_limit → length new ≤ input_limit → library_fault old ≡ None
        → library_fault new ≡ None → ImportTheSame app other
        → AppSays voices app old new rules v text → AppSays voices other old new rules w answer
        → (v ≡ w) × (text ≡ answer) }
{
    two_libraries_have_one_right_answer();
    nodes_stand_for_what_exports_reach();
}

/// A new library that may replace an old one may do so for each application, since no more is compared: `app` says yes.
pub fn what_may_replace_may_for_each_application()
    ensures compatible { (app old new rules : List ℕ) → Compatible old new rules → IsCompatibleFor app old new rules }
    ensures yes { (voices : List Voice) (app old new rules : List ℕ) (v : Verdict) (text : List ℕ)
        → Compatible old new rules → AppSays voices app old new rules v text → v ≡ Yes }
{
    roots_are_typed_pairs();
}

/// An empty rule file is readable, and suppresses nothing.
pub fn no_rules_are_readable()
    ensures readable { rule_fault [] ≡ None }
    ensures unmarked { (old : PlainLibrary) → marks_of (rules_of []) old ≡ no_marks old }
{}
