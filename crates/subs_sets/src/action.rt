//! What a read-only set does next.

use repl_types::GapPlace;

/// What a read-only set does next.
#[derive(Clone, Debug, Drop, PartialEq, Eq)]
pub enum Action {
    /// A unit is appended at the source that starts the registrations of the members.
    Signal,
    /// The targets become the copies at the last commit of the source.
    Refresh,
    /// The targets take the captured changes up to this point.
    Block { to: u64 },
    /// The source is told which point the targets have reached.
    Report,
    /// Nothing.
    Idle,
    /// Nothing, since changes that the set needs aren't kept from this place on, and a refresh is
    /// forbidden there.
    Refuse(GapPlace),
}
