//! What is read and written as text, worked out by hand: words, commands, log lines and replies.
//!
//! The tables of commands, log lines and replies are lemmas of `specs`, proved by computation on
//! the definitions that the contracts of `script_text`, `log_text` and `reply_text` name. Its only
//! code is tests of `run_words` and `line_input`, and of the writers that no command calls yet.
#![tactic(auto)]

#[cfg(test)]
mod lines;
#[cfg(test)]
mod words;
#[cfg(test)]
mod writers;
