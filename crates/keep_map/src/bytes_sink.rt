//! A sink that keeps its bytes in memory.

ghost use Rattle.std.specs.Prelude.{◌≡◌, ◌≤◌, ◌↔◌, ◌<◌, [], Some, IfOk, OnOk, OnErr, IsTrue};
ghost use Rattle.std.specs.Prelude.{length, take};
ghost use Rattle.keep_core.specs.Revealed.{Rises, Takes};
ghost use Rattle.keep_map.specs.Planned.{nothing_planned, planned_anew, fails_next, after_call};
ghost use Rattle.keep_map.specs.Streams.{sink_after};

use crate::plan::Plan;
use keep_core::{ReadError, Sink};
use repl_types::List;
use std::alloc::Global;
use std::marker::Model;

/// The bytes that were written, in memory, with a plan of the writes that fail.
#[derive(Debug, Drop)]
pub struct BytesSink {
    bytes: Vec<u8>,
    plan: Plan,
}

impl Model for BytesSink {
    ghost use Rattle.keep_map.specs.Streams.{SinkBytes};

    ghost Value = { SinkBytes };

    ghost view = { λ s. record { taken = s.bytes.items; plan = s.plan } };
}

impl BytesSink {
    /// A sink that took no byte, and of which no write is to fail. This allocates nothing.
    pub fn new(alloc: Global) -> BytesSink
        ensures { result ≡ record { taken = []; plan = nothing_planned } }
    {
        BytesSink {
            bytes: Vec::new(alloc),
            plan: Plan::new(alloc),
        }
    }

    /// Plans which of the next calls of `write` fail, by their numbers from 1. This allocates
    /// nothing.
    pub fn fail_at(&mut self, calls: List<u64>)
        ensures { self.new ≡ record self.old { plan = planned_anew self.old.plan calls } }
    {
        self.plan.fail_at(calls);
    }

    /// The bytes that were taken, in order.
    pub fn bytes(&self) -> &[u8]
        ensures { result.now ≡ self.now.taken }
    {
        self.bytes.as_slice()
    }
}

impl Sink for BytesSink {
    ghost taken = { λ s. Some s.taken };

    ghost faults = { λ s. s.plan.faults };

    /// Takes the whole piece, unless the plan names the call or memory runs out. A call that
    /// answers `Memory` isn't counted.
    fn write(&mut self, piece: &[u8]) -> Result<usize, ReadError>
        ensures planned { (result ≡ Err ReadError.Failed) ↔ IsTrue (fails_next self.old.plan) }
        ensures whole { IfOk result (λ count. count ≡ length piece.now) }
        ensures takes { OnOk result (self.new ≡ sink_after self.old piece.now) }
        ensures failed { result ≡ Err ReadError.Failed
            → self.new ≡ record self.old { plan = after_call self.old.plan } }
        ensures memory { result ≡ Err ReadError.Memory → self.new ≡ self.old }
        ensures unplanned { self.old.plan.failing ≡ []
            → self.new.plan.faults ≡ self.old.plan.faults }

        // What every sink ensures.
        ensures within { IfOk result (λ count. count ≤ length piece.now) }
        ensures moves { IfOk result (λ count. 0 < length piece.now → 0 < count) }
        ensures ok { IfOk result (λ count. Takes (Some self.old.taken) (Some self.new.taken)
            (take count piece.now)) }
        ensures err { OnErr result (self.new.taken ≡ self.old.taken) }
        ensures cause { result ≡ Err ReadError.Failed
            → Rises self.old.plan.faults self.new.plan.faults }
        ensures counts { self.old.plan.faults ≤ self.new.plan.faults }
    {
        if self.plan.fails() {
            self.plan.count();
            return Err(ReadError::Failed);
        }
        match self.bytes.extend_from_slice(piece) {
            Ok(()) => {
                self.plan.count();
                Ok(piece.len())
            }
            Err(_) => Err(ReadError::Memory),
        }
    }
}
