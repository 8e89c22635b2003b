//! The definitions that servers keep, read from them.
//!
//! `read_records` reads all records of one table of definitions, of any kind, in the order of
//! their keys. It stands on `site_store`, whose records it reads, and on `world_store`, which says
//! what rows of definitions a world calls for, and shows that they are in the order of their keys
//! and have spellings. `load_defs`, `set_places` and `shows` stand on it.
//!
//! For example, the sets at their targets are read by one call, whether they stand at their
//! sources too or not.
#![tactic(auto)]

mod reading;

pub use reading::read_records;
