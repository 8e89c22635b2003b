//! The parts of a run at servers, as the commands of a script: what each says of what happened, why
//! it ends the run early, and with which status.
//!
//! `specs/parts/Parts.antt` has `IsPart`, the contract that all parts share, and
//! `specs/parts/Causes.antt` says who is to blame for an error. `refuse` writes the line of a
//! refusal, `refuse_set` that of the name of no set, and `reply` that of a reply. Parts compose by
//! the laws in `specs/parts/laws`. It stands on `run_core`, whose events say what happens in a run,
//! and on `site_store` and `world_store`, which say for which world servers stand. The commands
//! stand on it, a module each, and `session_core`.
//!
//! For example, of two parts in turn of which the second failed, the events of the first and the
//! first of those of the second happened.

mod exit_status;
mod replies;
mod run_error;

pub use exit_status::{done_status, error_status};
pub use replies::{refuse, refuse_set, reply};
pub use run_error::{RunError, error_of_fault, error_of_reply};
