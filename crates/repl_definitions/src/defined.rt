//! Tables and registrations as a server keeps them, each with its number at that server.

ghost use Rattle.repl_definitions.specs.Defined.{defined_table_spelling, IsDefinedTable};
ghost use Rattle.repl_definitions.specs.Defined.{HasDefinedTableSpelling};
ghost use Rattle.repl_definitions.specs.Defined.{defined_registration_spelling};
ghost use Rattle.repl_definitions.specs.Defined.{IsDefinedRegistration};
ghost use Rattle.repl_definitions.specs.Defined.{HasDefinedRegistrationSpelling};
ghost use Rattle.repl_definitions.specs.laws.Defined.{one_defined_table, again_defined_table};
ghost use Rattle.repl_definitions.specs.laws.Defined.{one_defined_registration};
ghost use Rattle.repl_definitions.specs.laws.Defined.{again_defined_registration};
ghost use Rattle.repl_types.specs.declared.area.Area.TheVariants as areas;
ghost use Rattle.row_codec.specs.Storable.{IsStorable};

use repl_types::{Area, Name, Registration, TableDef};
use row_codec::{Part, Stored, Table0, Table1, TakeError, take_two};
use std::alloc::{AllocError, Global};

/// A table, kept under its name.
#[derive(Clone, Debug, Drop, PartialEq, Eq)]
pub struct DefinedTable {
    pub number: u32,
    pub def: TableDef,
}

impl Part for DefinedTable {
    ghost fits = { IsDefinedTable };

    ghost has_spelling = { HasDefinedTableSpelling };

    ghost spelling = { defined_table_spelling };

    ghost one = { one_defined_table };

    ghost again = { again_defined_table };

    fn put_part(&self, out: &mut Vec<u8>) -> Result<(), AllocError> {
        self.number.put_part(out)?;
        self.def.put_part(out)
    }

    fn take_part(alloc: Global, bytes: &[u8]) -> Result<(DefinedTable, &[u8]), TakeError> {
        let (number, def, rest) = take_two::<u32, TableDef>(alloc, bytes)?;
        Ok((DefinedTable { number, def }, rest))
    }
}

impl Stored for DefinedTable {
    type Key = Name;

    type Table = Table0;

    const AREA: Area = Area::Defs;

    ghost AREA = { areas.Defs };

    ghost storable = { IsStorable HasDefinedTableSpelling defined_table_spelling };

    ghost spelled = { λ _ storable. storable.0 };

    ghost sized = { λ _ _ storable. storable.1 };

    ghost again_stored = { λ x fits sized. (again_defined_table x fits, sized) };
}

/// A registration, kept under its table's name. It has the table's number.
#[derive(Clone, Debug, Drop, PartialEq, Eq)]
pub struct DefinedRegistration {
    pub number: u32,
    pub registration: Registration,
}

impl Part for DefinedRegistration {
    ghost fits = { IsDefinedRegistration };

    ghost has_spelling = { HasDefinedRegistrationSpelling };

    ghost spelling = { defined_registration_spelling };

    ghost one = { one_defined_registration };

    ghost again = { again_defined_registration };

    fn put_part(&self, out: &mut Vec<u8>) -> Result<(), AllocError> {
        self.number.put_part(out)?;
        self.registration.put_part(out)
    }

    fn take_part(alloc: Global, bytes: &[u8]) -> Result<(DefinedRegistration, &[u8]), TakeError> {
        let (number, registration, rest) = take_two::<u32, Registration>(alloc, bytes)?;
        let defined = DefinedRegistration {
            number,
            registration,
        };
        Ok((defined, rest))
    }
}

impl Stored for DefinedRegistration {
    type Key = Name;

    type Table = Table1;

    const AREA: Area = Area::Defs;

    ghost AREA = { areas.Defs };

    ghost storable = { IsStorable HasDefinedRegistrationSpelling defined_registration_spelling };

    ghost spelled = { λ _ storable. storable.0 };

    ghost sized = { λ _ _ storable. storable.1 };

    ghost again_stored = { λ x fits sized. (again_defined_registration x fits, sized) };
}
