// A sink in memory, whose failures are chosen beforehand.

ghost use Rattle.std.specs.Prelude.{◌≡◌, ◌≤◌, ◌<◌, ◌+◌, ◌∷◌, ◌++◌, ◌↔◌, [], true, ℕ, List, length, min, IsErr, IfOk};
ghost use Rattle.std.specs.Prelude.{OnOk, OnErr};
ghost use Rattle.ps_outside.specs.InMemory.{WriteFails};
ghost use Rattle.ps_outside.specs.Outside.{Rose, last_count};

use crate::{Failed, Output, Sink};
use ps_base::Memory;
use std::alloc::Global;
use std::marker::Model;

/// A sink in memory, of which chosen writes fail. It always tells its bytes.
///
/// The writes are counted from 1.
pub struct MemSink {
    bytes: Vec<u8>,
    room: usize,
    failing: Vec<u64>,
    calls: u64,
    faults: u64,
}

impl Drop for MemSink {
    // One call for whoever owns one, in place of a walk through all that it holds.
    fn drop(self) {
        let MemSink {
            bytes: _,
            room: _,
            failing: _,
            calls: _,
            faults: _,
        } = self;
    }
}

impl Model for MemSink {
    ghost use Rattle.std.specs.Prelude.{◌≤◌, vec_len, vec_capacity};
    ghost use Rattle.ps_outside.specs.InMemory.{SinkInMemory};

    ghost Value = { SinkInMemory };

    ghost view = { λ s. record { taken = s.bytes.items; room = s.room; failing = s.failing.items; calls = s.calls; faults = s.faults } };

    ghost invariant = { λ s. (vec_len s.bytes ≤ s.room) × (s.room ≤ vec_capacity s.bytes) };
}

impl MemSink {
    /// A sink that may take `room` bytes in all, the memory for which it takes here.
    pub fn new(alloc: Global, room: u32) -> Result<MemSink, Memory>
        ensures { IfOk result (λ sink. sink ≡ record { taken = []; room = room; failing = []; calls = 0; faults = 0 }) }
    {
        let bytes = Vec::with_capacity(alloc, room as usize)?;
        Ok(MemSink {
            bytes,
            room: room as usize,
            failing: Vec::new(alloc),
            calls: 0,
            faults: 0,
        })
    }

    /// Lets the write with this number fail, counted from 1. If memory runs out nothing changes.
    pub fn fail_at(&mut self, call: u32) -> Result<(), Memory>
        ensures chosen { OnOk result (self.new ≡ record self.old { failing = self.old.failing ++ call ∷ [] }) }
        ensures refused { OnErr result (self.new ≡ self.old) }
    {
        self.failing.push(u64::from(call))?;
        Ok(())
    }

    /// The bytes that the sink took.
    pub fn taken(&self) -> &[u8]
        ensures { result.now ≡ self.now.taken }
    {
        &self.bytes
    }
}

impl Sink for MemSink {
    ghost tells = { λ _. true };

    ghost taken = { λ sink. sink.taken };

    ghost faults = { λ sink. sink.faults };

    // Takes the whole piece, or nothing. It takes no memory.
    fn write(&mut self, piece: &[u8]) -> Result<usize, Failed>
        ensures number { self.new.calls ≡ min (self.old.calls + 1) last_count }
        ensures fails { IsErr result ↔ WriteFails self.old piece.now self.new.calls }
        ensures all { IfOk result (λ n. n ≡ length piece.now) }
        ensures appended { OnOk result (self.new.taken ≡ self.old.taken ++ piece.now) }
        ensures unchanged { OnErr result (self.new.taken ≡ self.old.taken) }

        ensures failed { OnErr result (Rose self.old.faults self.new.faults) }
        ensures rises { OnErr result (self.new.faults ≡ min (self.old.faults + 1) last_count) }
        ensures counts { self.old.faults ≤ self.new.faults }
        ensures exact { OnOk result (self.new.faults ≡ self.old.faults) }

        ensures failing { self.new.failing ≡ self.old.failing }
        ensures room { self.new.room ≡ self.old.room }
    {
        self.calls = self.calls.saturating_add(1);
        if self.failing.contains(&self.calls) || piece.len() > self.room - self.bytes.len() {
            self.faults = self.faults.saturating_add(1);
            return Err(Failed);
        }
        match self.bytes.extend_from_slice(piece) {
            Ok(()) => Ok(piece.len()),
            Err(_) => unreachable!(),
        }
    }
}

// It holds nothing back.
impl Output for MemSink {
    ghost held_back = { λ _. [] };

    fn finish(&mut self) -> Result<(), Failed> {
        Ok(())
    }

    // It is read to its end.
    fn is_closed(&self) -> bool {
        false
    }
}
