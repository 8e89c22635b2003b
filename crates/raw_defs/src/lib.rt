//! The reader of definitions: a TOML document to the definitions that it states, as they are
//! written.
//!
//! It stands on `repl_commands`, whose `RawDefs` it gives, and on `toml`, which reads the document.
//! Tests of `checked_defs` use it. `specs/Shape.antt` lists the keys of each kind of item and says
//! which documents have the shape of definitions; `specs/Raw.antt` says which definitions a
//! document states. A document that hasn't this shape breaks rule 1; all other rules are checked
//! later, on `RawDefs`.
//!
//! For example, the document `table = [{ server = "hq", name = "pens", columns = [], key = [] }]`
//! states one table and nothing else, and without `name` it is refused.
#![tactic(auto)]

ghost use Rattle.std.specs.Prelude.{◌≡◌, ℕ, IfOk};
ghost use Rattle.repl_commands.specs.declared.written.RawDefs.{RawDefs as RawDefinitions};
ghost use Rattle.repl_types.specs.declared.refusal.DefPlace.{DefPlace as Place};
ghost use Rattle.raw_defs.specs.Raw.{AreRawDefs};

mod fit;
mod keys;
mod read;
mod shape;
mod values;

use crate::fit::fits_item;
use crate::read::read_document;
use crate::shape::ItemKind;
use repl_commands::{DefsError, RawDefs};
use repl_types::DefPlace;
use std::alloc::Global;

/// The definitions that the bytes state. Bytes that aren't UTF-8, aren't a TOML document, or are a
/// document of another shape break rule 1. `Memory` may be answered whenever the machine runs out
/// of memory.
pub fn read_defs(alloc: Global, bytes: &[u8]) -> Result<RawDefs, DefsError>
    ensures ok { IfOk result (λ raw. AreRawDefs bytes.now raw) }
    ensures refused { (rule : ℕ) (place : Place) → result ≡ Err (DefsError.Broken rule place)
        → (rule ≡ 1) × (place ≡ DefPlace.Whole)
        × ((raw : RawDefinitions) → AreRawDefs bytes.now raw → ⊥) }
{
    let table = match toml::table_from_slice(alloc, bytes) {
        Ok(table) => table,
        Err(error) => {
            return Err(if error.is_memory() {
                DefsError::Memory
            } else {
                DefsError::Broken {
                    rule: 1,
                    place: DefPlace::Whole,
                }
            });
        }
    };
    if !fits_item(ItemKind::Document, &table) {
        return Err(DefsError::Broken {
            rule: 1,
            place: DefPlace::Whole,
        });
    }
    Ok(read_document(alloc, &table)?)
}
