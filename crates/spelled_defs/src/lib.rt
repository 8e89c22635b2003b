//! The definitions that the items of a text spell, and what stands beside these items.
//!
//! Below it are `repl_commands`, whose `RawDefs` it takes, `repl_defs`, which splits entries and
//! reads the texts of columns and predicates, `repl_definitions`, which has sets and members, and
//! `repl_model`, which names places among places. Above it `checked_defs` asks whether a text keeps
//! the rules. `specs/Spelled.antt` says which definitions items spell, and `specs/Context.antt`
//! what stands beside a text. An item or an entry that spells nothing is left out.
//!
//! For example, `key = ["qty", "id"]` over the columns `id` and `qty` are the places 1 and 0.
#![tactic(auto)]

mod beside;
mod columns;
mod context;
mod defs;
mod links;
mod spelled;

pub use beside::{context_of, find_registration, is_registration};
pub use columns::{
    after_places, all_places, are_among, are_columns, column_place, is_among, narrow_place,
    texts_or_none,
};
pub use context::{Context, Link};
pub use defs::{Defs, RegistrationAt, TableAt};
pub use links::{copy_bytes, is_replica_item};
pub use spelled::{
    find_table, is_table, read_defs, spelled_columns, spelled_member_at, target_column, target_kind,
};
