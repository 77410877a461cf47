//! The nodes of a server of a redundant set, and what its ServiceLevel says of it (OPC 10000-4, 6.6.2).
#![tactic(auto)]

mod class;
mod current;
mod laws;
mod member;
mod node;
mod nodes;
mod texts;
mod values;

pub use class::{Class, class_of};
pub use current::CurrentChanges;
pub use laws::{
    classes_part_the_levels, newest_changes_are_current, nodes_are_known, refusals_are_in_order,
    values_are_sent,
};
pub use member::{Member, Members};
pub use nodes::{NodeFault, Nodes, VALUE};
