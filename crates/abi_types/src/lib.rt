//! Plain data about libraries: their exports and types, the rules that a new library may break, and the printed form of names.
#![tactic(auto)]

mod alike;
mod entries;
mod export;
mod graph;
mod index;
mod kind;
pub mod laws;
mod leaf;
mod library;
mod lookup;
mod names;
mod numbers;
mod part;
mod parts;
mod place;
mod rule;
mod shown;
mod sort;
mod versions;
mod view;

pub use export::{Export, SymbolKind};
pub use graph::Graph;
pub use index::{Index, NewIx, OldIx};
pub use kind::{Group, Kind, LabelKind, Way};
pub use leaf::Leaf;
pub use library::{Library, Marks};
pub use names::{name_order_of, named_in};
pub use part::Part;
pub use parts::Parts;
pub use place::{Call, CallShape, Place, Slot};
pub use rule::Rule;
pub use shown::{push_label, push_shown};
pub use versions::{version_order_of, versioned_in};
pub use view::{Label, Node, View};
