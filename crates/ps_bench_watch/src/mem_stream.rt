// A stream in memory, whose pieces and failures are chosen beforehand.

ghost use Rattle.std.specs.Prelude.{◌≡◌, ◌≤◌, ◌<◌, ◌++◌, ◌∷◌, [], true, IsTrue, Ok, length, take, drop, vec_len, IfOk};
ghost use Rattle.std.specs.Prelude.{OnOk, OnErr, Contains, IsErr, ◌↔◌};
ghost use Rattle.ps_outside.specs.Outside.{Rose};

use crate::Stream;
use ps_base::{Bytes, Memory};
use ps_outside::Failed;
use std::alloc::Global;
use std::marker::Model;

/// A stream in memory, which gives its bytes in pieces, and of which chosen reads fail. It always tells its bytes.
///
/// The reads are counted from 1.
pub struct MemStream {
    bytes: Bytes,
    at: usize,
    sizes: Vec<usize>,
    failing: Vec<u64>,
    calls: u64,
    faults: u64,
}

impl Drop for MemStream {
    // One call for whoever owns one, in place of a walk through all that it holds.
    fn drop(self) {
        let MemStream {
            bytes: _,
            at: _,
            sizes: _,
            failing: _,
            calls: _,
            faults: _,
        } = self;
    }
}

impl Model for MemStream {
    ghost use Rattle.std.specs.Prelude.{drop, length, ◌≤◌};
    ghost use Rattle.ps_bench_watch.specs.InMemory.{StreamInMemory};

    ghost Value = { StreamInMemory };

    ghost view = { λ s. record {
      coming = drop s.at s.bytes;
      sizes = s.sizes.items;
      failing = s.failing.items;
      calls = s.calls;
      faults = s.faults;
    } };

    ghost invariant = { λ s. s.at ≤ length s.bytes };
}

impl MemStream {
    /// A stream of a copy of these bytes, which come as one piece. No read of it is chosen to fail.
    pub fn new(alloc: Global, bytes: &[u8]) -> Result<MemStream, Memory>
        ensures { IfOk result
            (λ s. s ≡ record { coming = bytes.now; sizes = []; failing = []; calls = 0; faults = 0 }) }
    {
        Ok(MemStream {
            bytes: Bytes::from_slice(alloc, bytes)?,
            at: 0,
            sizes: Vec::new(alloc),
            failing: Vec::new(alloc),
            calls: 0,
            faults: 0,
        })
    }

    /// Lets the next read of which that is not said so far give at most `n` bytes; 0 bounds it not. Where memory is
    /// wanting nothing changes.
    pub fn cut_next(&mut self, n: u32) -> Result<(), Memory>
        ensures chosen { OnOk result (self.new ≡ record self.old { sizes = self.old.sizes ++ n ∷ [] }) }
        ensures refused { OnErr result (self.new ≡ self.old) }
    {
        self.sizes.push(n as usize)?;
        Ok(())
    }

    /// Lets the read with this number fail, counted from 1. If memory runs out nothing changes.
    pub fn fail_at(&mut self, call: u32) -> Result<(), Memory>
        ensures chosen { OnOk result (self.new ≡ record self.old { failing = self.old.failing ++ call ∷ [] }) }
        ensures refused { OnErr result (self.new ≡ self.old) }
    {
        self.failing.push(u64::from(call))?;
        Ok(())
    }
}

impl Stream for MemStream {
    ghost tells = { λ _. true };

    ghost coming = { λ s. s.coming };

    ghost faults = { λ s. s.faults };

    fn read_some(&mut self, buf: &mut [u8]) -> Result<usize, Failed>
        ensures fails { IsErr result ↔ Contains self.old.failing self.new.calls }
        ensures fits { IfOk result (λ n. n ≤ length buf.new) }
        ensures gives { IfOk result (λ n. self.old.coming ≡ take n buf.new ++ self.new.coming) }
        ensures end { 0 < length buf.new → result ≡ Ok 0 → self.new.coming ≡ [] }
        ensures unread { OnErr result (self.new.coming ≡ self.old.coming) }
        ensures failed { OnErr result (Rose self.old.faults self.new.faults) }
        ensures exact { OnOk result (self.new.faults ≡ self.old.faults) }
        ensures counts { self.old.faults ≤ self.new.faults }
    {
        let most = most_of(&self.sizes, self.calls);
        self.calls = self.calls.saturating_add(1);
        if is_chosen(&self.failing, self.calls) {
            self.faults = self.faults.saturating_add(1);
            return Err(Failed);
        }
        let bytes = self.bytes.as_slice();
        let n = copy_some(&bytes[self.at..], most, buf);
        self.at += n;
        Ok(n)
    }
}

// Whether the read with this number is chosen to fail.
fn is_chosen(failing: &[u64], call: u64) -> bool
    ensures { IsTrue result ↔ Contains failing.now call }
{
    failing.contains(&call)
}

// How many bytes a read gives at most, after so many.
fn most_of(sizes: &[usize], calls: u64) -> usize
    ensures { 0 < result }
{
    match sizes.get(calls as usize) {
        Some(n) if *n > 0 => *n,
        _ => usize::MAX,
    }
}

// Copies the first bytes, as many as there is room for, but at most `most`.
fn copy_some(bytes: &[u8], most: usize, buf: &mut [u8]) -> usize
    requires { 0 < most }
    ensures fits { result ≤ length buf.new }
    ensures there { result ≤ length bytes.now }
    ensures bytes { take result buf.new ≡ take result bytes.now }
    ensures none { 0 < length buf.new → result ≡ 0 → length bytes.now ≡ 0 }
{
    let n = bytes.len().min(buf.len()).min(most);
    buf[..n].copy_from_slice(&bytes[..n]);
    n
}
