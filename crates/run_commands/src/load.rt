//! The command `load`, as a part of a run: the text of its body is loaded once it is read.
//!
//! `specs/LoadEvents.antt` says what is committed and written in a world. It stands on `raw_defs`,
//! which reads the text, on `load_defs`, which loads its definitions, and on `parts`, which has
//! the words of its contract. `session_core` carries out commands by it.
//!
//! For example, a text without items commits nothing, and the line
//! `ok loaded tables 0 registrations 0 sets 0` is written.

mod kinds;
mod loading;

pub use loading::load_text;
