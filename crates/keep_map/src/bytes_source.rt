//! A source of bytes in memory.

ghost use Rattle.std.specs.Prelude.{◌≡◌, ◌≢◌, ◌≤◌, ◌<◌, ◌↔◌, [], Some, IsTrue, IfOk, OnErr, length};
ghost use Rattle.std.specs.Prelude.{take};
ghost use Rattle.keep_core.specs.Revealed.{Rises, Gives};
ghost use Rattle.keep_map.specs.Planned.{nothing_planned, planned_anew, fails_next};
ghost use Rattle.keep_map.specs.Streams.{moved_count, buffer_after, source_after};

use crate::plan::Plan;
use keep_core::{ReadError, Source};
use repl_types::{Bytes, List};
use std::marker::Model;

/// Bytes in memory that are read from the first to the last, with a plan of the reads that fail.
#[derive(Debug, Drop)]
pub struct BytesSource {
    bytes: Vec<u8>,
    at: usize,
    plan: Plan,
}

impl Model for BytesSource {
    ghost use Rattle.std.specs.Prelude.{◌≤◌, vec_len, drop};
    ghost use Rattle.keep_map.specs.Streams.{SourceBytes};

    ghost Value = { SourceBytes };

    ghost view = { λ s. record { left = drop s.at s.bytes.items; plan = s.plan } };

    ghost invariant = { λ s. s.at ≤ vec_len s.bytes };
}

impl BytesSource {
    /// A source of which all these bytes are left, and no read is to fail. This allocates nothing.
    pub fn new(bytes: Bytes) -> BytesSource
        ensures { result ≡ record { left = bytes; plan = nothing_planned } }
    {
        let bytes = bytes.into_vec();
        let alloc = *bytes.allocator();
        BytesSource {
            bytes,
            at: 0,
            plan: Plan::new(alloc),
        }
    }

    /// Plans which of the next calls of `read` fail, by their numbers from 1. This allocates
    /// nothing.
    pub fn fail_at(&mut self, calls: List<u64>)
        ensures { self.new ≡ record self.old { plan = planned_anew self.old.plan calls } }
    {
        self.plan.fail_at(calls);
    }
}

impl Source for BytesSource {
    ghost left = { λ s. Some s.left };

    ghost faults = { λ s. s.plan.faults };

    /// Gives as many bytes as are left and fit the buffer, unless the plan names the call.
    fn read(&mut self, buffer: &mut [u8]) -> Result<usize, ReadError>
        ensures planned { (result ≡ Err ReadError.Failed) ↔ IsTrue (fails_next self.old.plan) }
        ensures count { IfOk result (λ count. count ≡ moved_count self.old (length buffer.old)) }
        ensures memory { result ≢ Err ReadError.Memory }
        ensures buffer { buffer.new ≡ buffer_after self.old buffer.old }
        ensures source { self.new ≡ source_after self.old (length buffer.old) }
        ensures unplanned { self.old.plan.failing ≡ []
            → self.new.plan.faults ≡ self.old.plan.faults }

        // What every source ensures.
        ensures within { IfOk result (λ count. count ≤ length buffer.new) }
        ensures ok { IfOk result (λ count. Gives (Some self.old.left) (Some self.new.left)
            (take count buffer.new)) }
        ensures end { result ≡ Ok 0 → 0 < length buffer.old → self.old.left ≡ [] }
        ensures err { OnErr result (self.new.left ≡ self.old.left) }
        ensures cause { result ≡ Err ReadError.Failed
            → Rises self.old.plan.faults self.new.plan.faults }
        ensures counts { self.old.plan.faults ≤ self.new.plan.faults }
    {
        let fails = self.plan.fails();
        self.plan.count();
        if fails {
            return Err(ReadError::Failed);
        }
        let left = &self.bytes[self.at..];
        let count = left.len().min(buffer.len());
        buffer[..count].copy_from_slice(&left[..count]);
        self.at += count;
        Ok(count)
    }
}
