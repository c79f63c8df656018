// The input of a check: a certificate, and the pair of libraries against which it is checked.
ghost use Rattle.std.specs.Prelude.{◌≡◌, ◌<◌, not, length, false, slice_index_or, slice_get, IfSome};
ghost use Rattle.std.specs.Option.{option_map};
ghost use Rattle.abi_types.specs.Graphs.{view_at, node_of};
ghost use Rattle.pair_rules.specs.Steps as spec;
ghost use Rattle.cert_check.specs.Compatible.{task_of};
ghost use Rattle.cert_check.specs.Accepted.{symbol_of};
ghost use Rattle.cert_check.specs.CertifiedPair.{case_of, NamesNodes};

use crate::library_exports::export_at;
use abi_types::{Index, Library, Marks, NewIx, OldIx, View, Way};
use cert_text::Cert;

/// Two libraries, the marks of the old one, and the certificate to be checked.
#[derive(Clone, Copy)]
pub struct CertifiedPair<'x, 'o, 'n> {
    /// The old library.
    pub old: &'x Library<'o, OldIx>,
    /// The new library.
    pub new: &'x Library<'n, NewIx>,
    /// The marks of the old library's exports and types.
    pub marks: &'x Marks,
    /// The certificate.
    pub cert: &'x Cert,
}

/// Whether an old node is marked at a way.
pub fn is_marked(ground: &CertifiedPair, node: OldIx, way: Way) -> bool
    ensures { result ≡ spec.is_marked (task_of (case_of ground.now).sides) node way }
{
    let flags = match way {
        Way::Direct => ground.marks.direct.as_slice(),
        Way::Pointer => ground.marks.pointer.as_slice(),
    };
    match flags.get(node.number()) {
        Some(mark) => *mark,
        None => false,
    }
}

/// The node of an entry, or `None` if the library has none for it.
pub fn find<Ix: Index>(library: &Library<Ix>, entry: u64) -> Option<Ix>
    ensures node { option_map Ix.number_of result ≡ node_of library.now.graph entry }
    ensures inside { IfSome result (λ ix. Ix.number_of ix < length library.now.graph) }
{
    library.graph().find(entry)
}

/// The view of a node.
pub fn view_of<'x, 'a, Ix: Index>(library: &'x Library<'a, Ix>, ix: Ix) -> &'x View<'a, Ix>
    requires { Ix.number_of ix < length library.now.graph }
    ensures view { result.now ≡ view_at library.now.graph (Ix.number_of ix) }
    ensures named { NamesNodes library.now.graph result.now }
{
    let graph = library.graph();
    graph.known();
    graph.view(ix)
}

/// Whether the old export at a position is compared, that is, no suppression drops it.
pub fn is_compared(ground: &CertifiedPair, k: usize) -> bool
    ensures { result ≡ not (slice_index_or ground.now.marks.now.exports k false) }
{
    match ground.marks.exports.as_slice().get(k) {
        Some(dropped) => !*dropped,
        None => true,
    }
}

/// The symbol number of the old export at a position.
pub fn symbol_at(ground: &CertifiedPair, k: usize) -> u64
    requires { k < length ground.now.old.now.exports }
    ensures { result ≡ symbol_of (slice_get ground.now.old.now.exports k) }
{
    u64::from(export_at(ground.old, k).symbol)
}
