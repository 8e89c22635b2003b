//! Which definitions of a text stand already with other contents.

ghost use Rattle.std.specs.Prelude.{◌≡◌, not, find, option_map, IfOk, IfSome};
ghost use Rattle.std.specs.List.{AllByRecursion};
ghost use Rattle.std.specs.Str.{bytes_eq};
ghost use Rattle.repl_types.specs.declared.refusal.ItemName.TheVariants as items;
ghost use Rattle.load_plan.specs.Differences.{differs as differs_lem};
ghost use Rattle.load_plan.specs.Differences.{table_differs as table_differs_lem};
ghost use Rattle.load_plan.specs.Differences.{registration_differs as registration_differs_lem};
ghost use Rattle.load_plan.specs.Differences.{set_differs as set_differs_lem};
ghost use Rattle.load_plan.specs.Differences.{first_difference as first_difference_lem};
ghost use Rattle.load_plan.specs.Differences.{AreSpelled, IsSpelledServer};
ghost use Rattle.row_codec.specs.Definitions.{HasTableSpelling, HasRegistrationSpelling};
ghost use Rattle.repl_definitions.specs.Sets.{HasSetDefSpelling};

use crate::stored::{StoredServer, registration_at, same_name, source_at, table_at, target_at};
use repl_definitions::SetDef;
use repl_types::ItemName;
use row_codec::Part;
use spelled_defs::{Defs, RegistrationAt, TableAt};
use std::alloc::{AllocError, Global};

/// Whether two definitions are spelled by other bytes.
fn is_other<P: Part>(alloc: Global, def: &P, other: &P) -> Result<bool, AllocError>
    requires def { P.has_spelling def.now }
    requires other { P.has_spelling other.now }
    ensures { IfOk result (λ is. is
        ≡ not (bytes_eq (P.spelling def.now) (P.spelling other.now))) }
{
    let mut first = Vec::new(alloc);
    let mut second = Vec::new(alloc);
    def.put_part(&mut first)?;
    other.put_part(&mut second)?;
    Ok(first.as_slice() != second.as_slice())
}

/// Whether what stands under the name of a definition is spelled by other bytes.
fn differs<P: Part>(alloc: Global, def: &P, stored: Option<&P>) -> Result<bool, AllocError>
    requires def { P.has_spelling def.now }
    requires stored { IfSome stored (λ other. P.has_spelling other.now) }
    ensures { IfOk result (λ is. is
        ≡ differs_lem P.spelling def.now (option_map (λ other. other.now) stored.entry)) }
{
    match stored {
        Some(other) => is_other(alloc, def, other),
        None => Ok(false),
    }
}

/// Whether a table of a text differs from that of its name at its server.
fn table_differs(
    alloc: Global,
    stored: &[StoredServer],
    table: &TableAt,
) -> Result<bool, AllocError>
    requires def { HasTableSpelling table.now.def }
    requires stored { AllByRecursion IsSpelledServer stored.now }
    ensures { IfOk result (λ is. is ≡ table_differs_lem stored.now table.now) }
{
    'servers: for server in stored {
        if same_name(&table.server, &server.name)
            && differs(alloc, &table.def, table_at(&table.def.name, server))?
        {
            return Ok(true);
        }
    }
    Ok(false)
}

/// Whether a registration of a text differs from that of its table at its server.
fn registration_differs(
    alloc: Global,
    stored: &[StoredServer],
    registration: &RegistrationAt,
) -> Result<bool, AllocError>
    requires def { HasRegistrationSpelling registration.now.def }
    requires stored { AllByRecursion IsSpelledServer stored.now }
    ensures { IfOk result (λ is. is ≡ registration_differs_lem stored.now registration.now) }
{
    'servers: for server in stored {
        let standing = registration_at(&registration.def.table, server);
        if same_name(&registration.server, &server.name)
            && differs(alloc, &registration.def, standing)?
        {
            return Ok(true);
        }
    }
    Ok(false)
}

/// Whether a set of a text differs from one of its name at any server.
fn set_differs(alloc: Global, stored: &[StoredServer], set: &SetDef) -> Result<bool, AllocError>
    requires def { HasSetDefSpelling set.now }
    requires stored { AllByRecursion IsSpelledServer stored.now }
    ensures { IfOk result (λ is. is ≡ set_differs_lem stored.now set.now) }
{
    'servers: for server in stored {
        if differs(alloc, set, source_at(&set.id, server))?
            || differs(alloc, set, target_at(&set.id, server))?
        {
            return Ok(true);
        }
    }
    Ok(false)
}

/// The first table of a text that differs.
fn first_table(
    alloc: Global,
    defs: &Defs,
    stored: &[StoredServer],
) -> Result<Option<ItemName>, AllocError>
    requires defs { AreSpelled defs.now }
    requires stored { AllByRecursion IsSpelledServer stored.now }
    ensures { IfOk result (λ item. item ≡ option_map (λ t. items.Table t.server t.def.name)
        (find (table_differs_lem stored.now) defs.now.tables)) }
{
    'tables: for table in defs.tables.as_slice() {
        if table_differs(alloc, stored, table)? {
            return Ok(Some(ItemName::Table {
                server: table.server.clone()?,
                table: table.def.name.clone()?,
            }));
        }
    }
    Ok(None)
}

/// The first registration of a text that differs.
fn first_registration(
    alloc: Global,
    defs: &Defs,
    stored: &[StoredServer],
) -> Result<Option<ItemName>, AllocError>
    requires defs { AreSpelled defs.now }
    requires stored { AllByRecursion IsSpelledServer stored.now }
    ensures { IfOk result (λ item. item
        ≡ option_map (λ r. items.Registration r.server r.def.table)
        (find (registration_differs_lem stored.now) defs.now.registrations)) }
{
    'registrations: for registration in defs.registrations.as_slice() {
        if registration_differs(alloc, stored, registration)? {
            return Ok(Some(ItemName::Registration {
                server: registration.server.clone()?,
                table: registration.def.table.clone()?,
            }));
        }
    }
    Ok(None)
}

/// The first set of a text that differs.
fn first_set(
    alloc: Global,
    defs: &Defs,
    stored: &[StoredServer],
) -> Result<Option<ItemName>, AllocError>
    requires defs { AreSpelled defs.now }
    requires stored { AllByRecursion IsSpelledServer stored.now }
    ensures { IfOk result (λ item. item ≡ option_map (λ def. items.Set def.id)
        (find (set_differs_lem stored.now) defs.now.sets)) }
{
    'sets: for set in defs.sets.as_slice() {
        if set_differs(alloc, stored, set)? {
            return Ok(Some(ItemName::Set(set.id.clone()?)));
        }
    }
    Ok(None)
}

/// The first definition of a text that stands already with other contents: tables come first, then
/// registrations, then sets.
pub fn first_difference(
    alloc: Global,
    defs: &Defs,
    stored: &[StoredServer],
) -> Result<Option<ItemName>, AllocError>
    requires defs { AreSpelled defs.now }
    requires stored { AllByRecursion IsSpelledServer stored.now }
    ensures { IfOk result (λ item. item ≡ first_difference_lem defs.now stored.now) }
{
    if let Some(item) = first_table(alloc, defs, stored)? {
        return Ok(Some(item));
    }
    if let Some(item) = first_registration(alloc, defs, stored)? {
        return Ok(Some(item));
    }
    first_set(alloc, defs, stored)
}
