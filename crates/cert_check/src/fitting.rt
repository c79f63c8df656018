// How much the pair lines of a certificate compare.
ghost use Rattle.std.specs.Prelude.{◌≡◌, ◌<◌, ◌≤◌, IfErr, OnOk, OnErr};
ghost use Rattle.abi_base.specs.declared.fault.NoMemory.TheVariants.{Past};
ghost use Rattle.abi_base.specs.declared.limit.Limit.TheVariants.{PairParts};
ghost use Rattle.cert_check.specs.CertifiedPair.{case_of};
ghost use Rattle.cert_check.specs.Compatible.{sides};
ghost use Rattle.cert_check.specs.Fitting.{line_weight, lines_allowed, lines_weight};

use crate::certified_pair::{CertifiedPair, find, is_marked, view_of};
use abi_base::NoMemory;
use abi_types::{Library, Marks, NewIx, OldIx, Way};
use cert_text::{Cert, pairs_of};
use pair_rules::{part_budget, weight_between};

// How much the types of a pair line count, if they are compared: both libraries have them, and the old one is unmarked.
fn weight_of(ground: &CertifiedPair, line: (u64, u64, Way)) -> usize
    ensures { result ≡ line_weight (case_of ground.now).sides line }
{
    let Some(old) = find(ground.old, line.0) else {
        return 0;
    };
    let Some(new) = find(ground.new, line.1) else {
        return 0;
    };
    if is_marked(ground, old, line.2) {
        return 0;
    }
    weight_between(view_of(ground.old, old), view_of(ground.new, new))
}

/// Fails exactly if the types of a certificate's pair lines have too many parts to be compared, and names that limit. A certificate
/// may pair each of many typedefs of one structure with each of many others, so its lines can take far more work than it has bytes. A
/// line counts what a visit of its types does in an exploration, and nothing if the old type is marked; the limit is that of an
/// exploration. So each certificate that an exploration gives is within it.
pub fn pairs_fit(
    old: &Library<OldIx>,
    new: &Library<NewIx>,
    marks: &Marks,
    cert: &Cert,
) -> Result<(), NoMemory>
    ensures within { OnOk result (lines_weight (sides old.now new.now marks.now) cert.now.pairs
        ≤ lines_allowed (sides old.now new.now marks.now)) }
    ensures past { OnErr result (lines_allowed (sides old.now new.now marks.now)
        < lines_weight (sides old.now new.now marks.now) cert.now.pairs) }
    ensures named { IfErr result (λ e. e ≡ Past PairParts) }
{
    let ground = CertifiedPair {
        old,
        new,
        marks,
        cert,
    };
    let mut budget = part_budget(old.graph(), new.graph());
    let lines = pairs_of(cert);
    for line in lines {
        budget.take(weight_of(&ground, *line))?;
    }
    Ok(())
}
