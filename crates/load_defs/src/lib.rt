//! The load of definitions at servers.
//!
//! `load` reads what the servers keep of definitions, asks whether the definitions of a text keep
//! the rules together with those, and whether there is room for them, and then puts them at their
//! servers, with one commit at each server that gets something new. `specs/Loading.antt` says what
//! a load answers in a world, and which worlds it commits. It stands on `site_store`, whose
//! records it reads and puts, on `checked_defs` and `load_plan`, which say why a load is refused
//! and what it adds, and on `load_laws`, which shows what that makes of a world.
//!
//! For example, a text that is loaded twice adds nothing the second time, and nothing is committed
//! then.
#![tactic(auto)]

mod counts;
mod known;
mod loading;
mod plan;
mod putting;
mod reading;
mod rows;
mod servers;

pub use counts::Loaded;
pub use loading::load;
