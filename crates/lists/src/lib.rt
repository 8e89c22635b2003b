//! Laws of lists that std doesn't have.
//!
//! `specs/Lists.antt` has the words on lists that definitions of other crates use. The files of
//! `specs/laws` say what holds of the elements of a list and of lists made of others (`Members`),
//! of lists that stand side by side in part (`Embedded`), of elements with their numbers
//! (`Numbered`), of images (`Images`) and of lists of places (`Places`). It has no code.
#![tactic(auto)]
