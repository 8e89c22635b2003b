//! The run of `copy`: what is read is fed at one server and copied to another.
//!
//! `specs/copy/CopyEvents.antt` says what is committed and written, by the events of the commands
//! of a script: definitions are loaded at the servers `src` and `dst` and applied, each line of the
//! input is fed at `src`, captured and applied, and the copy at `dst` is shown. Of the lines of
//! these commands only those of the copy are written, and then the one of a refused line. It stands
//! on `run_commands`; `fed` feeds the lines, and by the sinks of `unwritten` the other lines are
//! left out.
//!
//! For example, at the lines `insert 1 items 7 'pen'` and `commit 1 ann 100` it writes the lines
//! `row 7 'pen'` and `ok rows 1`, and nothing is refused.

mod copying;
mod fed;
mod given;
mod showing;
mod silent;
mod unwritten;

pub use copying::copy_items;
