//! Definitions that keep the rules: `check` takes definitions as they are written, together with
//! those that are known, and gives the definitions that they spell, or the lowest rule that they
//! break and the first item that breaks it.
//!
//! Below it are `spelled_defs`, which says which definitions items spell and what stands beside a
//! text, `repl_commands`, whose `RawDefs` it takes, `repl_defs`, which reads the texts of columns
//! and predicates, `repl_definitions`, which has sets and members, and `repl_model`, whose rules
//! over a member and its source it asks. Above it, `load_laws` says what accepted definitions make
//! of a world, and that they can be stored. `specs/Rules.antt` has each rule, `specs/Broken.antt`
//! says which one is broken, and where, and `specs/Whole.antt` says what it is that nothing is
//! left out.
//!
//! For example, a text with a registration of the table `pens` at `hq`, where neither the text nor
//! what is known has such a table, breaks rule 6 at its first registration.
#![tactic(auto)]

ghost use Rattle.std.specs.Prelude.{◌≡◌, ℕ, Some, None, IsTrue, IfOk, OnOk};
ghost use Rattle.repl_types.specs.declared.refusal.DefPlace.{DefPlace as Place};
ghost use Rattle.spelled_defs.specs.Context.{context_of as context_of_lem, defs_of};
ghost use Rattle.checked_defs.specs.Broken.{all_rules, first_broken};
ghost use Rattle.checked_defs.specs.Whole.{have_kinds, LeavesNothingOut};

mod find_break;
mod members;
mod names;
mod once;
mod reads;
mod registrations;
mod replicas;
mod rule;
mod tables;

use crate::find_break::find_break;
use repl_commands::{DefsError, RawDefs};
use spelled_defs::{Defs, context_of, read_defs};
use std::alloc::Global;

/// The definitions that a text spells, if it keeps rules 2 to 14 together with the known
/// definitions whose names don't stand in it. Nothing of the text is left out of them, if its
/// members have types that there are, as those that `raw_defs` reads have. `Broken` names the
/// lowest rule that is broken, and the first item of the text that breaks it. `Memory` may be
/// answered whenever the machine runs out of memory.
pub fn check(alloc: Global, raw: &RawDefs, known: &Defs) -> Result<Defs, DefsError>
    ensures ok { IfOk result
        (λ defs. defs ≡ defs_of raw.now (context_of_lem raw.now known.now).tables) }
    ensures kept { OnOk result
        (first_broken raw.now (context_of_lem raw.now known.now) all_rules ≡ None) }
    ensures whole { OnOk result (IsTrue (have_kinds raw.now)
        → LeavesNothingOut raw.now (context_of_lem raw.now known.now).tables) }
    ensures broken { (rule : ℕ) (place : Place) → result ≡ Err (DefsError.Broken rule place)
        → first_broken raw.now (context_of_lem raw.now known.now) all_rules ≡ Some (rule, place) }
{
    let context = context_of(alloc, raw, known)?;
    if let Some((rule, place)) = find_break(alloc, raw, &context)? {
        return Err(DefsError::Broken { rule, place });
    }
    Ok(read_defs(alloc, raw, context.tables.as_slice())?)
}
