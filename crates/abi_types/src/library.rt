// A library as the comparison sees it, and what a rule file excludes from it.
ghost use Rattle.std.specs.Prelude.{◌≡◌, IfErr, IfOk};
ghost use Rattle.abi_base.specs.declared.fault.NoMemory.TheVariants.{Allocation};
ghost use Rattle.std.specs.Option.{option_copied};
ghost use Rattle.abi_types.specs.Plain.{plain_exports};
ghost use Rattle.abi_types.specs.Libraries.{plain_library, IsLibrary};
ghost use Rattle.abi_types.specs.Names.{AreNamed};
ghost use Rattle.abi_types.specs.Versions.{AreVersioned};
ghost use Rattle.sha2.specs.Sha256.{sha256};

use crate::export::Export;
use crate::graph::Graph;
use crate::index::Index;
use crate::names::{name_order_of, named_in};
use crate::versions::{version_order_of, versioned_in};
use abi_base::{List, NoMemory};
use sha2::{Digest, Sha256};
use std::alloc::Global;
use std::marker::Model;

/// A library: its file, its soname, its exports, and their types. Contracts see it as a `PlainLibrary`, which holds the digest of
/// the file instead of its bytes.
#[derive(Drop)]
pub struct Library<'a, Ix: Index> {
    file: &'a [u8],
    soname: Option<&'a [u8]>,
    exports: List<Export<'a>>,
    graph: Graph<'a, Ix>,
    // The positions of the exports, ordered by name.
    by_name: Vec<usize>,
    // The positions of the exports, ordered by name and version.
    by_version: Vec<usize>,
}

impl<'a, Ix: Index> Model for Library<'a, Ix> {
    ghost use Rattle.abi_types.specs.Libraries.{PlainLibrary};

    ghost Value = { PlainLibrary };

    ghost use Rattle.abi_types.specs.Plain.{plain_exports};
    ghost use Rattle.abi_types.specs.Libraries.{plain_library, IsLibrary};
    ghost use Rattle.abi_types.specs.Names.{IsNameOrder};
    ghost use Rattle.abi_types.specs.Versions.{IsVersionOrder};
    ghost use Rattle.sha2.specs.Sha256.{sha256};

    ghost view = { λ l. plain_library (sha256 l.file.now) l.soname l.exports l.graph };

    ghost invariant = { λ l. IsLibrary (plain_exports l.exports) l.graph × IsNameOrder l.by_name.items (plain_exports l.exports) × IsVersionOrder l.by_version.items (plain_exports l.exports) };
}

impl<'a, Ix: Index> Library<'a, Ix> {
    /// A library of these parts, all of which borrow from the file. Does not compute the digest.
    pub fn new(
        alloc: Global,
        file: &'a [u8],
        soname: Option<&'a [u8]>,
        exports: List<Export<'a>>,
        graph: Graph<'a, Ix>,
    ) -> Result<Library<'a, Ix>, NoMemory>
        requires { IsLibrary (plain_exports exports) graph }
        ensures library { IfOk result (λ library. library
            ≡ plain_library (sha256 file.now) soname.entry exports.entry graph.entry) }
        ensures named { IfErr result (λ e. e ≡ Allocation) }
    {
        let by_name = name_order_of(alloc, exports.as_slice())?;
        let by_version = version_order_of(alloc, exports.as_slice())?;
        Ok(Library {
            file,
            soname,
            exports,
            graph,
            by_name,
            by_version,
        })
    }

    /// The bytes of the file.
    pub fn file(&self) -> &'a [u8]
        ensures { self.now.digest ≡ sha256 result.now }
    {
        self.file
    }

    /// The SHA-256 of the file. Each call computes it, since only a certificate needs it.
    pub fn digest(&self) -> [u8; 32]
        ensures { result ≡ self.now.digest }
    {
        Sha256::digest(self.file)
    }

    /// The soname, if any.
    pub fn soname(&self) -> Option<&'a [u8]>
        ensures { option_copied result ≡ self.now.soname }
    {
        self.soname
    }

    /// The exports, in the order of their symbols.
    pub fn exports(&self) -> &[Export<'a>]
        ensures { plain_exports result.now ≡ self.now.exports }
    {
        self.exports.as_slice()
    }

    /// The positions of all exports with this name, whatever their versions, in ascending order. Takes two binary searches and no
    /// memory.
    pub fn exports_named(&self, name: &[u8]) -> &[usize]
        ensures { AreNamed self.now.exports name.now result.now }
    {
        named_in(self.exports.as_slice(), self.by_name.as_slice(), name)
    }

    /// The positions of all exports with this name and this version, or with this name and no version, in ascending order. Takes two
    /// binary searches and no memory.
    pub fn exports_of_version(&self, name: &[u8], version: Option<&[u8]>) -> &[usize]
        ensures { AreVersioned self.now.exports name.now (option_copied version.entry) result.now }
    {
        versioned_in(
            self.exports.as_slice(),
            self.by_version.as_slice(),
            name,
            version,
        )
    }

    /// The types of the exports.
    pub fn graph(&self) -> &Graph<'a, Ix>
        ensures { result.now ≡ self.now.graph }
    {
        &self.graph
    }

    /// The invariant of the type, stated as a contract. Does nothing.
    pub fn known(&self)
        ensures { IsLibrary self.now.exports self.now.graph }
    {
        let _ = &self.exports;
    }
}

/// What a rule file excludes from the comparison, on the side of the old library.
#[derive(Drop)]
pub struct Marks {
    /// The SHA-256 of the rule file.
    pub digest: [u8; 32],
    /// For each export, whether it is dropped.
    pub exports: List<bool>,
    /// For each node, whether it is marked where a call reaches it by value.
    pub direct: List<bool>,
    /// For each node, whether it is marked where a call reaches it through a pointer.
    pub pointer: List<bool>,
}
