//! Where a subscription set stands: the servers of its two ends, and its rows there.
//!
//! `find_set` finds the set of a name at the server where its target row stands and at the source
//! that this row names, and `unknown_set` is the refusal if there is none. `read_registration`
//! reads the registration that a member of a found set is over, and `target_number` is the table of
//! the member's target. `specs/Places.antt` has the words
//! by which the layers above speak of a found set: `IsPlaced` says that its rows are seen where it
//! was found, and `ForSet` says something of each world that the servers stand for, and of the
//! read-only set that stands there. It stands on `site_store`, whose records it reads, and on
//! `stored_defs`, which shows what is seen of definitions at servers that stand for a world.
//! `subs_sets`, `prune_control`, `full_refresh` and `apply_copies` stand on it.
//!
//! For example, the set `q/s` is the set with the number 0 among those whose target `shop` is, and
//! with the number 1 among those whose source `hq` is. At two servers `hq` and `shop`, `find_set`
//! answers that its source is the server 0 and its target the server 1, with these two numbers.
#![tactic(auto)]

mod finding;
mod placed_set;
mod registrations;
mod targets;

pub use finding::{find_set, unknown_set};
pub use placed_set::PlacedSet;
pub use registrations::read_registration;
pub use targets::target_number;
