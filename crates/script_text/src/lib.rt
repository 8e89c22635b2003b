//! The lines of a script: each gives a command, or says why it gives none.
//!
//! It stands on `repl_commands`, which has the commands and the errors, and on `repl_types`, which
//! reads names and numbers. Above it, `session_core` carries out the command of a line. The words
//! of a command, one equation each, are in `specs/Commands.antt`. `specs/Asked.antt` says as a
//! function which command a line asks for, and the contract of `read_line` compares its answer with
//! both. Laws say that the function finds the command whose words the line has, and that a line is
//! of one command at most. `first_word` is the first word of a line, and `takes_body` says after
//! which lines a body may come.
//!
//! For example, the line `capture hq units 5` is
//! `Command::Capture { server: hq, units: Some(5), every: None }`, `capture hq units 0` is a bad
//! line, and `catch hq` an unknown command.
#![tactic(auto)]

mod body;
mod commands;
mod laws;
mod line;
mod parts;
mod words;

pub use body::{first_word, takes_body};
pub use laws::{one_command_of_a_line, the_command_of_a_line};
pub use line::read_line;
