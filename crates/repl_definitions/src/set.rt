//! Subscription sets, and sets as a server keeps them, each with its number at that server.

ghost use Rattle.repl_definitions.specs.Sets.{set_def_spelling, IsSetDef, HasSetDefSpelling};
ghost use Rattle.repl_definitions.specs.Sets.{source_set_spelling, IsSourceSet};
ghost use Rattle.repl_definitions.specs.Sets.{HasSourceSetSpelling, target_set_spelling};
ghost use Rattle.repl_definitions.specs.Sets.{IsTargetSet, HasTargetSetSpelling};
ghost use Rattle.repl_definitions.specs.laws.Sets.{one_set_def, again_set_def, one_source_set};
ghost use Rattle.repl_definitions.specs.laws.Sets.{again_source_set, one_target_set};
ghost use Rattle.repl_definitions.specs.laws.Sets.{again_target_set};
ghost use Rattle.repl_types.specs.declared.area.Area.TheVariants as areas;
ghost use Rattle.row_codec.specs.Storable.{IsStorable};

use crate::member::Member;
use repl_types::{Area, List, Name, SetId};
use row_codec::{Part, Stored, Table2, Table3, TakeError, take_six, take_two};
use std::alloc::{AllocError, Global};

/// A subscription set: members that are copied together from one server to another. `commit_count`
/// is the most units that one block takes, and `max_minutes` the most minutes of units; 0 is no
/// limit.
#[derive(Clone, Debug, Drop, PartialEq, Eq)]
pub struct SetDef {
    pub id: SetId,
    pub source: Name,
    pub target: Name,
    pub commit_count: u32,
    pub max_minutes: u32,
    pub members: List<Member>,
}

impl Part for SetDef {
    ghost fits = { IsSetDef };

    ghost has_spelling = { HasSetDefSpelling };

    ghost spelling = { set_def_spelling };

    ghost one = { one_set_def };

    ghost again = { again_set_def };

    fn put_part(&self, out: &mut Vec<u8>) -> Result<(), AllocError> {
        self.id.put_part(out)?;
        self.source.put_part(out)?;
        self.target.put_part(out)?;
        self.commit_count.put_part(out)?;
        self.max_minutes.put_part(out)?;
        self.members.put_part(out)
    }

    fn take_part(alloc: Global, bytes: &[u8]) -> Result<(SetDef, &[u8]), TakeError> {
        let (id, source, target, commit_count, max_minutes, members, rest) = take_six::<
            SetId,
            Name,
            Name,
            u32,
            u32,
            List<Member>,
        >(alloc, bytes)?;
        let set = SetDef {
            id,
            source,
            target,
            commit_count,
            max_minutes,
            members,
        };
        Ok((set, rest))
    }
}

/// A set at its source, kept under its name.
#[derive(Clone, Debug, Drop, PartialEq, Eq)]
pub struct SourceSet {
    pub number: u32,
    pub def: SetDef,
}

impl Part for SourceSet {
    ghost fits = { IsSourceSet };

    ghost has_spelling = { HasSourceSetSpelling };

    ghost spelling = { source_set_spelling };

    ghost one = { one_source_set };

    ghost again = { again_source_set };

    fn put_part(&self, out: &mut Vec<u8>) -> Result<(), AllocError> {
        self.number.put_part(out)?;
        self.def.put_part(out)
    }

    fn take_part(alloc: Global, bytes: &[u8]) -> Result<(SourceSet, &[u8]), TakeError> {
        let (number, def, rest) = take_two::<u32, SetDef>(alloc, bytes)?;
        Ok((SourceSet { number, def }, rest))
    }
}

impl Stored for SourceSet {
    type Key = SetId;

    type Table = Table2;

    const AREA: Area = Area::Defs;

    ghost AREA = { areas.Defs };

    ghost storable = { IsStorable HasSourceSetSpelling source_set_spelling };

    ghost spelled = { λ _ storable. storable.0 };

    ghost sized = { λ _ _ storable. storable.1 };

    ghost again_stored = { λ x fits sized. (again_source_set x fits, sized) };
}

/// A set at its target, kept under its name.
#[derive(Clone, Debug, Drop, PartialEq, Eq)]
pub struct TargetSet {
    pub number: u32,
    pub def: SetDef,
}

impl Part for TargetSet {
    ghost fits = { IsTargetSet };

    ghost has_spelling = { HasTargetSetSpelling };

    ghost spelling = { target_set_spelling };

    ghost one = { one_target_set };

    ghost again = { again_target_set };

    fn put_part(&self, out: &mut Vec<u8>) -> Result<(), AllocError> {
        self.number.put_part(out)?;
        self.def.put_part(out)
    }

    fn take_part(alloc: Global, bytes: &[u8]) -> Result<(TargetSet, &[u8]), TakeError> {
        let (number, def, rest) = take_two::<u32, SetDef>(alloc, bytes)?;
        Ok((TargetSet { number, def }, rest))
    }
}

impl Stored for TargetSet {
    type Key = SetId;

    type Table = Table3;

    const AREA: Area = Area::Defs;

    ghost AREA = { areas.Defs };

    ghost storable = { IsStorable HasTargetSetSpelling target_set_spelling };

    ghost spelled = { λ _ storable. storable.0 };

    ghost sized = { λ _ _ storable. storable.1 };

    ghost again_stored = { λ x fits sized. (again_target_set x fits, sized) };
}
