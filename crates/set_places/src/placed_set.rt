//! A set that stands at both its ends.

use repl_definitions::{SourceSet, TargetSet};

/// A set as it was found: the places of its servers among all servers, counted from 0, and its rows
/// there.
#[derive(Debug, Drop)]
pub struct PlacedSet {
    pub source: u32,
    pub at_source: SourceSet,
    pub target: u32,
    pub at_target: TargetSet,
}
