//! The commands of a script, as parts of a run at servers.
//!
//! `parts` has what all of them share: what a part says of what happened, why it ends the run
//! early, and with which status. Each other module is one kind of command, and `specs` has a folder
//! for each, which says what the command commits and writes in a world. `session_core` carries out
//! commands by this crate.
//!
//! For example, `status::show_status` carries out `status S`, and `specs/status` says which lines
//! it writes.
#![tactic(auto)]

pub mod apply;
pub mod capture;
pub mod feed;
pub mod load;
pub mod parts;
pub mod refresh;
pub mod show;
pub mod status;
pub mod target;
