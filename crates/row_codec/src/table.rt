//! Columns, tables and registrations.

ghost use Rattle.std.specs.Prelude.{◌≡◌, ◌++◌, OnOk};
ghost use Rattle.row_codec.specs.Spelling.{Any, b16, Is16, list_spelling, ListFits};
ghost use Rattle.row_codec.specs.Definitions.{kind_spelling, column_spelling, IsColumn};
ghost use Rattle.row_codec.specs.Definitions.{table_spelling, IsTable, HasTableSpelling};
ghost use Rattle.row_codec.specs.Definitions.{registration_spelling, IsRegistration};
ghost use Rattle.row_codec.specs.Definitions.{HasRegistrationSpelling};
ghost use Rattle.row_codec.specs.laws.Again.{table_again, registration_again};
ghost use Rattle.row_codec.specs.laws.Definitions.{one_places, one_kind, one_column, one_table};
ghost use Rattle.row_codec.specs.laws.Definitions.{one_registration};

use crate::part::Part;
use crate::parts::{take_four, take_six, take_three};
use crate::take_error::TakeError;
use repl_types::{ColumnDef, Kind, List, Name, Registration, TableDef};
use std::alloc::{AllocError, Global};
use std::marker::Model;

/// A list of places of columns, each of two bytes.
#[derive(Drop)]
pub(crate) struct Places {
    pub(crate) list: List<u32>,
}

impl Model for Places {
    ghost use Rattle.std.specs.Prelude.{List, ℕ};

    ghost Value = { List ℕ };

    ghost view = { λ places. places.list };
}

impl Part for Places {
    ghost fits = { ListFits Is16 };

    ghost has_spelling = { ListFits Is16 };

    ghost spelling = { list_spelling b16 };

    ghost one = { one_places };

    ghost again = { λ _ fits. fits };

    fn put_part(&self, out: &mut Vec<u8>) -> Result<(), AllocError> {
        put_places(&self.list, out)
    }

    fn take_part(alloc: Global, bytes: &[u8]) -> Result<(Places, &[u8]), TakeError> {
        let (places, rest) = List::<u16>::take_part(alloc, bytes)?;
        let mut list = List::new(alloc);
        for place in places.as_slice() {
            list.push(u32::from(*place))?;
        }
        Ok((Places { list }, rest))
    }
}

/// Appends the spelling of a list of places.
pub(crate) fn put_places(places: &List<u32>, out: &mut Vec<u8>) -> Result<(), AllocError>
    requires { ListFits Is16 places.now }
    ensures { OnOk result (out.new.items ≡ out.old.items ++ list_spelling b16 places.now) }
{
    (places.len() as u16).put_part(out)?;
    for place in places.as_slice() {
        (*place as u16).put_part(out)?;
    }
    Ok(())
}

impl Part for Kind {
    ghost fits = { Any };

    ghost has_spelling = { Any };

    ghost spelling = { kind_spelling };

    ghost one = { one_kind };

    ghost again = { λ _ _. tt };

    fn put_part(&self, out: &mut Vec<u8>) -> Result<(), AllocError> {
        let number = match self {
            Kind::Int => 0x01,
            Kind::Text => 0x02,
        };
        Ok(out.push(number)?)
    }

    fn take_part(_: Global, bytes: &[u8]) -> Result<(Kind, &[u8]), TakeError> {
        match bytes {
            [0x01, rest @ ..] => Ok((Kind::Int, rest)),
            [0x02, rest @ ..] => Ok((Kind::Text, rest)),
            _ => Err(TakeError::Spelling),
        }
    }
}

impl Part for ColumnDef {
    ghost fits = { IsColumn };

    ghost has_spelling = { Any };

    ghost spelling = { column_spelling };

    ghost one = { one_column };

    ghost again = { λ _ _. tt };

    fn put_part(&self, out: &mut Vec<u8>) -> Result<(), AllocError> {
        self.name.put_part(out)?;
        self.kind.put_part(out)?;
        self.nullable.put_part(out)
    }

    fn take_part(alloc: Global, bytes: &[u8]) -> Result<(ColumnDef, &[u8]), TakeError> {
        let (name, kind, nullable, rest) = take_three::<Name, Kind, bool>(alloc, bytes)?;
        let column = ColumnDef {
            name,
            kind,
            nullable,
        };
        Ok((column, rest))
    }
}

impl Part for TableDef {
    ghost fits = { IsTable };

    ghost has_spelling = { HasTableSpelling };

    ghost spelling = { table_spelling };

    ghost one = { one_table };

    ghost again = { table_again };

    fn put_part(&self, out: &mut Vec<u8>) -> Result<(), AllocError> {
        self.name.put_part(out)?;
        self.columns.put_part(out)?;
        put_places(&self.key, out)?;
        put_places(&self.fixed, out)
    }

    fn take_part(alloc: Global, bytes: &[u8]) -> Result<(TableDef, &[u8]), TakeError> {
        let (name, columns, key, fixed, rest) = take_four::<Name, List<ColumnDef>, Places, Places>(
            alloc, bytes,
        )?;
        let table = TableDef {
            name,
            columns,
            key: key.list,
            fixed: fixed.list,
        };
        Ok((table, rest))
    }
}

impl Part for Registration {
    ghost fits = { IsRegistration };

    ghost has_spelling = { HasRegistrationSpelling };

    ghost spelling = { registration_spelling };

    ghost one = { one_registration };

    ghost again = { registration_again };

    fn put_part(&self, out: &mut Vec<u8>) -> Result<(), AllocError> {
        self.table.put_part(out)?;
        put_places(&self.after, out)?;
        put_places(&self.before, out)?;
        self.del_ins.put_part(out)?;
        self.changes_only.put_part(out)?;
        self.disable_refresh.put_part(out)
    }

    fn take_part(alloc: Global, bytes: &[u8]) -> Result<(Registration, &[u8]), TakeError> {
        let (table, after, before, del_ins, changes_only, disable_refresh, rest) = take_six::<
            Name,
            Places,
            Places,
            bool,
            bool,
            bool,
        >(alloc, bytes)?;
        let registration = Registration {
            table,
            after: after.list,
            before: before.list,
            del_ins,
            changes_only,
            disable_refresh,
        };
        Ok((registration, rest))
    }
}
