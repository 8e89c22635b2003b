//! Rules 6, 7 and 8: registrations.

ghost use Rattle.std.specs.Prelude.{◌≡◌, option_map, false, IfOk};
ghost use Rattle.std.specs.List.{list_all};
ghost use Rattle.std.specs.Option.{option_map_or};
ghost use Rattle.lists.specs.Lists.{is_among as is_among_lem};
ghost use Rattle.spelled_defs.specs.Spelled.{column_place as column_place_lem};
ghost use Rattle.checked_defs.specs.Rules.{table_of_registration as table_of_registration_lem};
ghost use Rattle.checked_defs.specs.Rules.{has_table as has_table_lem};
ghost use Rattle.checked_defs.specs.Rules.{after_fits as after_fits_lem};
ghost use Rattle.checked_defs.specs.Rules.{has_after_images as has_after_images_lem};
ghost use Rattle.checked_defs.specs.Rules.{has_before_images as has_before_images_lem};

use repl_commands::RawRegistration;
use repl_types::{Bytes, List, TableDef};
use spelled_defs::{
    Context, after_places, are_among, are_columns, column_place, find_table, is_among,
    narrow_place, texts_or_none,
};
use std::alloc::{AllocError, Global};

/// The table of a registration.
fn table_of_registration<'a>(
    context: &'a Context,
    registration: &RawRegistration,
) -> Option<&'a TableDef>
    ensures { option_map (λ d. d.now) result
        ≡ table_of_registration_lem context.now registration.now }
{
    let table = find_table(
        context.tables.as_slice(),
        registration.server.as_slice(),
        registration.table.as_slice(),
    );
    match table {
        Some(table) => Some(&table.def),
        None => None,
    }
}

/// Whether the table of a registration is defined.
pub fn has_table(context: &Context, registration: &RawRegistration) -> bool
    ensures { result ≡ has_table_lem context.now registration.now }
{
    match table_of_registration(context, registration) {
        Some(_) => true,
        None => false,
    }
}

/// Whether the names are those of columns, and all columns of the key are among them.
fn after_fits(
    alloc: Global,
    def: &TableDef,
    names: &Option<List<Bytes>>,
) -> Result<bool, AllocError>
    ensures { IfOk result (λ fits. fits ≡ after_fits_lem def.now names.now) }
{
    let columns = def.columns.as_slice();
    let places = after_places(alloc, columns, names)?;
    match names {
        Some(names) => Ok(
            are_columns(columns, names.as_slice())
                && are_among(places.as_slice(), def.key.as_slice()),
        ),
        None => Ok(true),
    }
}

/// Whether the after-images of a registration fit its table.
pub fn has_after_images(
    alloc: Global,
    context: &Context,
    registration: &RawRegistration,
) -> Result<bool, AllocError>
    ensures { IfOk result (λ keeps. keeps ≡ has_after_images_lem context.now registration.now) }
{
    match table_of_registration(context, registration) {
        Some(def) => after_fits(alloc, def, &registration.after),
        None => Ok(true),
    }
}

/// Whether each name is that of a column at one of the places.
fn are_placed(def: &TableDef, places: &[u32], names: &[Bytes]) -> Result<bool, AllocError>
    ensures { IfOk result (λ placed. placed
        ≡ list_all (λ name. option_map_or (is_among_lem places.now)
        (column_place_lem def.now.columns name) false) names.now) }
{
    'names: for name in names {
        match column_place(def.columns.as_slice(), name.as_slice()) {
            Some(place) => {
                if !is_among(places, narrow_place(place)?) {
                    return Ok(false);
                }
            }
            None => return Ok(false),
        }
    }
    Ok(true)
}

/// Whether the before-images of a registration are among its after-images.
pub fn has_before_images(
    alloc: Global,
    context: &Context,
    registration: &RawRegistration,
) -> Result<bool, AllocError>
    ensures { IfOk result (λ keeps. keeps ≡ has_before_images_lem context.now registration.now) }
{
    match table_of_registration(context, registration) {
        Some(def) => {
            let places = after_places(alloc, def.columns.as_slice(), &registration.after)?;
            are_placed(def, places.as_slice(), texts_or_none(&registration.before))
        }
        None => Ok(true),
    }
}
