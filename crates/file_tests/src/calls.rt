//! Calls of any keeper, for the tests.

ghost use Rattle.std.specs.Prelude.{OnOk};
ghost use Rattle.repl_types.specs.Sizes.{IsKeySize, IsValueSize};
ghost use Rattle.keep_core.specs.Kept.{IsClosed};

use keep_core::{KeepError, Keeper};
use repl_types::Area;
use std::alloc::Global;

/// Commits a value at a key of table 1 of targets.
pub fn commit_put<K: Keeper>(keeper: &mut K, key: &[u8], value: &[u8]) -> Result<(), KeepError>
    requires closed { IsClosed (K.kept keeper.old) }
    requires key { IsKeySize key.now }
    requires value { IsValueSize value.now }
    ensures { OnOk result (IsClosed (K.kept keeper.new)) }
{
    keeper.begin()?;
    keeper.put(Area::Target, 1, key, value)?;
    keeper.commit()
}

/// Whether the keeper gives this value at a key of table 1 of targets.
pub fn gives<K: Keeper>(
    keeper: &mut K,
    alloc: Global,
    key: &[u8],
    value: &[u8],
) -> Result<bool, KeepError> {
    let mut out = Vec::new(alloc);
    let found = keeper.get(Area::Target, 1, key, &mut out)?;
    Ok(found && out.as_slice() == value)
}
