//! Names of columns, and the places that they name.

ghost use Rattle.std.specs.Prelude.{◌≡◌, [], length, unwrap_or, IfOk};
ghost use Rattle.std.specs.List.{list_all, range_with_len};
ghost use Rattle.lists.specs.Lists.{is_among as is_among_lem, are_among as are_among_lem};
ghost use Rattle.spelled_defs.specs.Spelled.{column_place as column_place_lem};
ghost use Rattle.spelled_defs.specs.Spelled.{column_places as column_places_lem};
ghost use Rattle.spelled_defs.specs.Spelled.{names_column as names_column_lem};
ghost use Rattle.spelled_defs.specs.Spelled.{named_places as named_places_lem};
ghost use Rattle.spelled_defs.specs.Spelled.{after_places as after_places_lem};
ghost use Rattle.spelled_defs.specs.Spelled.{is_column as is_column_lem};

use repl_types::{Bytes, ColumnDef, List};
use std::alloc::{AllocError, Global};

/// The texts of an item that may be left out, none if they are.
pub fn texts_or_none(texts: &Option<List<Bytes>>) -> &[Bytes]
    ensures { result.now ≡ unwrap_or texts.now [] }
{
    match texts {
        Some(texts) => texts.as_slice(),
        None => &[],
    }
}

/// Whether the place is one of these.
pub fn is_among(places: &[u32], place: u32) -> bool
    ensures { result ≡ is_among_lem places.now place }
{
    places.iter().any(|p| *p == place)
}

/// Whether these places are all among others.
pub fn are_among(places: &[u32], some: &[u32]) -> bool
    ensures { result ≡ are_among_lem places.now some.now }
{
    some.iter().all(|place| is_among(places, *place))
}

/// The place of the column of a name.
pub fn column_place(columns: &[ColumnDef], name: &[u8]) -> Option<usize>
    ensures { result ≡ column_place_lem columns.now name.now }
{
    columns
        .iter()
        .position(|column| name == column.name.as_str().as_bytes())
}

/// Whether a name is that of a column.
pub fn is_column(columns: &[ColumnDef], name: &[u8]) -> bool
    ensures { result ≡ is_column_lem columns.now name.now }
{
    column_place(columns, name).is_some()
}

/// Whether the names are those of columns.
pub fn are_columns(columns: &[ColumnDef], names: &[Bytes]) -> bool
    ensures { result ≡ list_all (is_column_lem columns.now) names.now }
{
    names.iter().all(|name| is_column(columns, name.as_slice()))
}

/// A place as a number of 32 bits. Where more columns stand than these number, there is no memory.
pub fn narrow_place(place: usize) -> Result<u32, AllocError>
    ensures { IfOk result (λ narrow. narrow ≡ place) }
{
    match u32::try_from(place) {
        Ok(narrow) => Ok(narrow),
        Err(_) => Err(AllocError),
    }
}

/// The places of the columns that the names name, in the order of the names.
pub fn column_places(
    alloc: Global,
    columns: &[ColumnDef],
    names: &[Bytes],
) -> Result<List<u32>, AllocError>
    ensures { IfOk result (λ places. places ≡ column_places_lem columns.now names.now) }
{
    let mut places = List::new(alloc);
    'names: for name in names {
        if let Some(place) = column_place(columns, name.as_slice()) {
            places.push(narrow_place(place)?)?;
        }
    }
    Ok(places)
}

/// Whether one of these names is the name of the column.
pub fn names_column(names: &[Bytes], column: &ColumnDef) -> bool
    ensures { result ≡ names_column_lem names.now column.now }
{
    names
        .iter()
        .any(|name| name.as_slice() == column.name.as_str().as_bytes())
}

/// The places of the columns that the names name, in the order of the columns.
pub fn named_places(
    alloc: Global,
    columns: &[ColumnDef],
    names: &[Bytes],
) -> Result<List<u32>, AllocError>
    ensures { IfOk result (λ places. places ≡ named_places_lem names.now 0 columns.now) }
{
    let mut places = List::new(alloc);
    'columns: for (place, column) in columns.iter().enumerate() {
        if names_column(names, column) {
            places.push(narrow_place(place)?)?;
        }
    }
    Ok(places)
}

/// The places of all columns.
pub fn all_places(alloc: Global, columns: &[ColumnDef]) -> Result<List<u32>, AllocError>
    ensures { IfOk result (λ places. places ≡ range_with_len 0 (length columns.now)) }
{
    let mut places = List::new(alloc);
    'columns: for (place, _) in columns.iter().enumerate() {
        places.push(narrow_place(place)?)?;
    }
    Ok(places)
}

/// The places of the columns whose after-images are kept.
pub fn after_places(
    alloc: Global,
    columns: &[ColumnDef],
    names: &Option<List<Bytes>>,
) -> Result<List<u32>, AllocError>
    ensures { IfOk result (λ places. places ≡ after_places_lem columns.now names.now) }
{
    match names {
        Some(names) => named_places(alloc, columns, names.as_slice()),
        None => all_places(alloc, columns),
    }
}
