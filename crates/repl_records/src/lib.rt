//! What a server stores beside definitions: the records of each area with their keys, each a plain
//! type with its one spelling.
//!
//! It stands on `row_codec`, which says what a kind of record is and spells its parts; the crates
//! that work on stored records stand on it. A kind of record is one type, one spelling and one
//! law, in one file each: `src/X.rt`, `specs/X.antt` and `specs/laws/X.antt`. Its fields are the
//! values of its line of the table of areas (`docs/STORAGE.md`), in their order. What a missing
//! record stands for is in `specs/FirstStates.antt`.
//!
//! For example, `Head { last: 259, commit: 258, time: 100 }` is kept in the table 0 of the area
//! Head under the key `00`, as `0000000000000103 0000000000000102 0000000000000064`, two
//! hexadecimal digits a byte.
#![tactic(auto)]

mod capture;
mod code;
mod laws;
mod prune;
mod record_keys;
mod set_state;
mod source_side;
mod target_side;
mod trail;

pub use capture::{CaptureState, ChangeRow, RegState, UowRow};
pub use laws::first_states_have_spellings;
pub use prune::{Decided, RejectedUnit, SyncMark};
pub use record_keys::{CdKey, InFlightKey, MemberKey, Single, UnitKey};
pub use set_state::{LastNumber, SetState};
pub use source_side::{Head, InFlight, SourceRow};
pub use target_side::{AggregateRow, CopyRow, HistoryRow, LatestRow, PointRow};
pub use trail::TrailEntry;
