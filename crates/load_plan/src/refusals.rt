//! Why a load of definitions is refused.

ghost use Rattle.std.specs.Prelude.{◌≡◌, ◌+◌, nat_lt, false, length, None, IfOk, OnOk};
ghost use Rattle.std.specs.List.{AllByRecursion, list_any};
ghost use Rattle.repl_types.specs.Sizes.{value_limit};
ghost use Rattle.row_codec.specs.Definitions.{registration_spelling, HasRegistrationSpelling};
ghost use Rattle.repl_definitions.specs.Sets.{set_def_spelling, HasSetDefSpelling, IsSetDef};
ghost use Rattle.load_plan.specs.Differences.{AreSpelled, IsSpelledServer};
ghost use Rattle.load_plan.specs.Refusals.{count_refusal as count_refusal_lem};
ghost use Rattle.load_plan.specs.Refusals.{has_long_set as has_long_set_lem};
ghost use Rattle.load_plan.specs.Refusals.{content_refusal as content_refusal_lem};

use crate::differences::first_difference;
use crate::limits::passed_limit;
use crate::servers::missing_server;
use crate::stored::StoredServer;
use repl_definitions::SetDef;
use repl_types::{LimitKind, Refusal, Registration, VALUE_LIMIT};
use row_codec::Part;
use spelled_defs::{Defs, RegistrationAt};
use std::alloc::{AllocError, Global};

/// The bytes before a definition in its stored value: its number.
const NUMBER_BYTES: usize = 4;

/// Why a load of these definitions is refused before their contents are looked at: they name a
/// server that isn't there, or a limit on counts is passed. None, if neither is so.
pub fn count_refusal(
    alloc: Global,
    defs: &Defs,
    stored: &[StoredServer],
) -> Result<Option<Refusal>, AllocError>
    ensures { IfOk result (λ refusal. refusal ≡ count_refusal_lem defs.now stored.now) }
{
    if let Some(name) = missing_server(alloc, defs, stored)? {
        return Ok(Some(Refusal::NoSuchServer(name)));
    }
    match passed_limit(defs, stored) {
        Some(limit) => Ok(Some(Refusal::LimitReached(limit))),
        None => Ok(None),
    }
}

/// Whether a set is longer than a stored value may be.
fn is_long_set(alloc: Global, set: &SetDef) -> Result<bool, AllocError>
    requires { HasSetDefSpelling set.now }
    ensures is { IfOk result (λ is. is
        ≡ nat_lt value_limit (length (set_def_spelling set.now) + 4)) }
    ensures fits { OnOk result (IsSetDef set.now) }
{
    let mut bytes = Vec::new(alloc);
    set.put_part(&mut bytes)?;
    Ok(bytes.len() > VALUE_LIMIT - NUMBER_BYTES)
}

/// Whether some set is longer than a stored value may be.
fn has_long_set(alloc: Global, sets: &[SetDef]) -> Result<bool, AllocError>
    requires { AllByRecursion HasSetDefSpelling sets.now }
    ensures is { IfOk result (λ is. is
        ≡ list_any (λ def. nat_lt value_limit (length (set_def_spelling def) + 4)) sets.now) }
    ensures fit { IfOk result (λ is. is ≡ false → AllByRecursion IsSetDef sets.now) }
{
    'sets: for set in sets {
        if is_long_set(alloc, set)? {
            return Ok(true);
        }
    }
    Ok(false)
}

/// Whether a registration is longer than a stored value may be.
fn is_long_registration(alloc: Global, registration: &Registration) -> Result<bool, AllocError>
    requires { HasRegistrationSpelling registration.now }
    ensures { IfOk result (λ is. is
        ≡ nat_lt value_limit (length (registration_spelling registration.now) + 4)) }
{
    let mut bytes = Vec::new(alloc);
    registration.put_part(&mut bytes)?;
    Ok(bytes.len() > VALUE_LIMIT - NUMBER_BYTES)
}

/// Whether some registration is longer than a stored value may be.
fn has_long_registration(
    alloc: Global,
    registrations: &[RegistrationAt],
) -> Result<bool, AllocError>
    requires { AllByRecursion (λ r. HasRegistrationSpelling r.def) registrations.now }
    ensures { IfOk result (λ is. is
        ≡ list_any (λ r. nat_lt value_limit (length (registration_spelling r.def) + 4))
        registrations.now) }
{
    'registrations: for registration in registrations {
        if is_long_registration(alloc, &registration.def)? {
            return Ok(true);
        }
    }
    Ok(false)
}

/// Why a load of these definitions is refused for what they are, if their counts are within the
/// limits: a set or a registration is too long to be stored, or a definition stands already with
/// other contents. None, if neither is so; the sets are then made of names and of values in their
/// ranges.
pub fn content_refusal(
    alloc: Global,
    defs: &Defs,
    stored: &[StoredServer],
) -> Result<Option<Refusal>, AllocError>
    requires defs { AreSpelled defs.now }
    requires stored { AllByRecursion IsSpelledServer stored.now }
    ensures refusal { IfOk result (λ refusal. refusal
        ≡ content_refusal_lem defs.now stored.now) }
    ensures fit { IfOk result (λ refusal. refusal ≡ None
        → AllByRecursion IsSetDef defs.now.sets) }
{
    if has_long_set(alloc, defs.sets.as_slice())?
        || has_long_registration(alloc, defs.registrations.as_slice())?
    {
        return Ok(Some(Refusal::LimitReached(LimitKind::Definition)));
    }
    match first_difference(alloc, defs, stored)? {
        Some(item) => Ok(Some(Refusal::DefinitionDiffers(item))),
        None => Ok(None),
    }
}
