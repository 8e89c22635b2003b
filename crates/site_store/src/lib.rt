//! Servers by number, and the records that they keep.
//!
//! A `Site` is a server: its name and its keeper. `Sites` are all of them, each at its number.
//! Records are put, read and removed by their kinds (`Stored` of `row_codec`), inside one
//! transaction a server. Any fault of `Sites` leaves no transaction open at any server, so a layer
//! above that hands a fault on by `?` knows what stands: each server holds what it held.
//!
//! For example, `sites.put::<InFlight>(alloc, server, Table0, &key, &row)?` puts a record into the
//! table of changes in flight, and `sites.get::<InFlight>(alloc, server, Table0, &key)?` reads it.
//!
//! The crate's `specs/` have the words in which every layer above says what it changed: `Views` is
//! what a clause sees of all servers, `Calls` is what a call leaves, at Ok and at a fault, `Works`
//! what a transaction makes of what it sees, and `Damage` what shows that contents are damaged.
//! `specs/laws` has the laws by which calls compose: `Counts`, `Transactions`, `Passing`,
//! `Damage`, `Steps`. `specs/one_server` has words for calls at one server, one after another: `Looks`
//! for calls that only read, `GoesOn` for calls that go on with the open transaction of the
//! server, and `Stops` for a call that failed, with who is to blame; they compose by
//! `specs/one_server/laws`.
//!
//! It stands on `keep_core` for keepers, on `row_codec` for records, and on `rows_in_order`. The
//! layers that work on servers stand on it.
#![tactic(auto)]

mod buffers;
mod records;
mod site;
mod sites;

pub use site::Site;
pub use sites::{Sites, SitesError};
