//! What a load will do, given what servers keep.

ghost use Rattle.std.specs.Prelude.{◌≡◌, None, IfOk, OnOk, IfErr};
ghost use Rattle.std.specs.List.{AllByRecursion};
ghost use Rattle.checked_defs.specs.Whole.{LeavesNothingOut};
ghost use Rattle.repl_definitions.specs.Sets.{IsSetDef};
ghost use Rattle.spelled_defs.specs.Context.{context_of};
ghost use Rattle.load_plan.specs.Differences.{AreSpelled, IsSpelledServer};
ghost use Rattle.load_plan.specs.Refusals.{count_refusal as count_refusal_lem};
ghost use Rattle.load_plan.specs.Refusals.{content_refusal as content_refusal_lem};
ghost use Rattle.load_laws.specs.planned.Planned.{known_stored};
ghost use Rattle.load_defs.specs.Counts.{loaded_counts};
ghost use Rattle.load_laws.specs.texts.Texts.{IsWhole, KeepsRules, text_defs, defs_beside};
ghost use Rattle.load_defs.specs.Planning.{bad_definition, plan_refusal, load_refusal};
ghost use Rattle.load_defs.specs.Planning.{IsRefusedBy};

use crate::counts::{Loaded, count_new};
use crate::known::known_of;
use checked_defs::check;
use load_plan::{StoredServer, content_refusal, count_refusal};
use repl_commands::{DefsError, RawDefs};
use repl_types::{Fault, Refusal};
use spelled_defs::Defs;
use std::alloc::Global;

/// The definitions that a load puts at the servers, and how many of them are new.
#[derive(Debug, Drop)]
pub struct Plan {
    pub defs: Defs,
    pub loaded: Loaded,
}

/// The definitions of a text that keeps the rules together with those that are known.
fn checked(alloc: Global, raw: &RawDefs, known: &Defs) -> Result<Defs, Fault>
    requires { IsWhole raw.now }
    ensures defs { IfOk result (λ defs. defs ≡ text_defs raw.now known.now) }
    ensures kept { OnOk result (bad_definition raw.now known.now ≡ None) }
    ensures whole { OnOk result (LeavesNothingOut raw.now (context_of raw.now known.now).tables) }
    ensures refused { IfErr result (IsRefusedBy (bad_definition raw.now known.now)) }
{
    match check(alloc, raw, known) {
        Ok(defs) => Ok(defs),
        Err(DefsError::Memory) => Err(Fault::Memory),
        Err(DefsError::Broken { rule, place }) => {
            Err(Fault::Refused(Refusal::BadDefinition { rule, place }))
        }
    }
}

/// Refuses definitions that name a server that isn't there, pass a limit, or differ from what
/// stands.
fn refuse_unfit(alloc: Global, defs: &Defs, stored: &[StoredServer]) -> Result<(), Fault>
    requires defs { count_refusal_lem defs.now stored.now ≡ None → AreSpelled defs.now }
    requires stored { AllByRecursion IsSpelledServer stored.now }
    ensures fits { OnOk result (plan_refusal defs.now stored.now ≡ None) }
    ensures counts { OnOk result (count_refusal_lem defs.now stored.now ≡ None) }
    ensures contents { OnOk result (content_refusal_lem defs.now stored.now ≡ None) }
    ensures typed { OnOk result (AllByRecursion IsSetDef defs.now.sets) }
    ensures refused { IfErr result (IsRefusedBy (plan_refusal defs.now stored.now)) }
{
    if let Some(refusal) = count_refusal(alloc, defs, stored)? {
        return Err(Fault::Refused(refusal));
    }
    if let Some(refusal) = content_refusal(alloc, defs, stored)? {
        return Err(Fault::Refused(refusal));
    }
    Ok(())
}

/// What a load of a text does at servers that keep this, or why it is refused.
pub fn plan_load(alloc: Global, raw: &RawDefs, stored: &[StoredServer]) -> Result<Plan, Fault>
    requires raw { IsWhole raw.now }
    requires stored { AllByRecursion IsSpelledServer stored.now }
    ensures defs { IfOk result (λ plan. plan.defs ≡ defs_beside raw.now stored.now) }
    ensures loaded { IfOk result (λ plan. plan.loaded
        ≡ loaded_counts (known_stored stored.now) plan.defs) }
    ensures accepted { OnOk result (load_refusal raw.now stored.now ≡ None) }
    ensures keeps { OnOk result (KeepsRules raw.now stored.now) }
    ensures contents { OnOk result
        (content_refusal_lem (defs_beside raw.now stored.now) stored.now ≡ None) }
    ensures typed { IfOk result (λ plan. AllByRecursion IsSetDef plan.defs.sets) }
    ensures refused { IfErr result (IsRefusedBy (load_refusal raw.now stored.now)) }
{
    let known = known_of(alloc, stored)?;
    let defs = checked(alloc, raw, &known)?;
    refuse_unfit(alloc, &defs, stored)?;
    let loaded = count_new(&known, &defs)?;
    Ok(Plan { defs, loaded })
}
