//! The row at one key: its value, and the value from before the open transaction.

ghost use Rattle.std.specs.Prelude.{◌≡◌, None, Some, IfOk, if◌then◌else◌};
ghost use Rattle.std.specs.Option.{unwrap_or};
ghost use Rattle.repl_types.specs.Sizes.{IsValueSize};

use std::alloc::{AllocError, Global};

/// The bytes of a value.
#[derive(Debug, Drop)]
pub struct StoredValue {
    bytes: Vec<u8>,
    ghost size: { IsValueSize bytes.items },
}

impl StoredValue {
    /// A copy of the bytes.
    pub fn new(alloc: Global, bytes: &[u8]) -> Result<StoredValue, AllocError>
        requires { IsValueSize bytes.now }
        ensures { IfOk result (λ v. v.bytes.items ≡ bytes.now) }
    {
        Ok(StoredValue {
            bytes: Vec::from_slice(alloc, bytes)?,
        })
    }

    /// The bytes.
    pub fn bytes(&self) -> &[u8]
        ensures bytes { result.now ≡ self.now.bytes.items }
        ensures size { IsValueSize result.now }
    {
        self.bytes.as_slice()
    }
}

/// The value at one key, and the value from before, if the open transaction changed it.
#[derive(Debug, Drop)]
pub struct StoredRow {
    pub now: Option<StoredValue>,
    pub before: Option<Option<StoredValue>>,
}

impl StoredRow {
    /// Sets the value, or removes it, and keeps the value from before the transaction.
    pub fn change(&mut self, value: Option<StoredValue>)
        ensures { self.new
            ≡ record { now = value; before = Some (unwrap_or self.old.before self.old.now) } }
    {
        let old = std::mem::replace(&mut self.now, value);
        if self.before.is_none() {
            self.before = Some(old);
        }
    }

    /// Settles the value: if the transaction is kept, it is the value now, else the one from
    /// before.
    pub fn settle(&mut self, keep: bool)
        ensures { self.new
            ≡ record {
              now = if keep then self.old.now else unwrap_or self.old.before self.old.now;
              before = None;
            } }
    {
        if let Some(before) = self.before.take()
            && !keep
        {
            self.now = before;
        }
    }
}
