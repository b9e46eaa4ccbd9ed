// Files in memory, whose failures are chosen beforehand.

ghost use Rattle.std.specs.Prelude.{◌≡◌, ◌≢◌, ◌<◌, ◌≤◌, ◌+◌, ◌∷◌, ◌++◌, ◌↔◌, [], true, ℕ, List, Some, None, IsSome};
ghost use Rattle.std.specs.Prelude.{IsErr, OnOk, OnErr, IfOk, length, min, take, drop};
ghost use Rattle.ps_outside.specs.InMemory.{ReadFails, ShareCount, given_count};
ghost use Rattle.ps_outside.specs.Outside.{Rose, Reads, CountsStay, last_count};

use crate::{Failed, Files};
use ps_base::{Bytes, Memory};
use std::alloc::Global;
use std::collections::BTreeMap;

// The bytes of a file, and how often reading it has failed.
#[derive(Drop)]
struct HeldFile {
    bytes: Bytes,
    faults: u64,
}

/// Files in memory, of which chosen reads fail. They always tell their bytes.
///
/// The reads of all names are counted together, from 1. There is one count of faults for each file that is held,
/// and one for all names that are not held.
pub struct MemFiles {
    alloc: Global,
    files: BTreeMap<String, HeldFile>,
    // the count of all names that are not held
    others: u64,
    failing: Vec<u64>,
    calls: u64,
    most: usize,
    ghost some: { 0 < most },
}

impl Drop for MemFiles {
    // One call for whoever owns one, in place of a walk through all that it holds.
    fn drop(self) {
        let MemFiles {
            alloc: _,
            files: _,
            others: _,
            failing: _,
            calls: _,
            most: _,
        } = self;
    }
}

impl MemFiles {
    ghost use Rattle.ps_outside.specs.HeldFiles.{in_memory};

    /// Files of which none is held and no read is chosen to fail. It takes no memory.
    pub fn new(alloc: Global) -> MemFiles
        ensures held { (name : List ℕ) → (in_memory result).held name ≡ None }
        ensures faults { (name : List ℕ) → (in_memory result).faults name ≡ 0 }
        ensures failing { (in_memory result).failing ≡ [] }
        ensures calls { (in_memory result).calls ≡ 0 }
        ensures whole { (in_memory result).most ≡ usize.MAX }
    {
        MemFiles {
            alloc,
            files: BTreeMap::new(alloc),
            others: 0,
            failing: Vec::new(alloc),
            calls: 0,
            most: usize::MAX,
        }
    }

    /// Holds a copy of these bytes under a name from now on, in place of those that were held there.
    ///
    /// Every name keeps its count: a new file begins with the count of the names that are not held.
    /// If memory runs out nothing changes.
    pub fn put(&mut self, name: &str, bytes: &[u8]) -> Result<(), Memory>
        ensures held { OnOk result ((in_memory self.new).held name.now ≡ Some bytes.now) }
        ensures others { (other : List ℕ) → other ≢ name.now → (in_memory self.new).held other ≡ (in_memory self.old).held other }
        ensures counts { (other : List ℕ) → (in_memory self.new).faults other ≡ (in_memory self.old).faults other }
        ensures failing { (in_memory self.new).failing ≡ (in_memory self.old).failing }
        ensures calls { (in_memory self.new).calls ≡ (in_memory self.old).calls }
        ensures most { (in_memory self.new).most ≡ (in_memory self.old).most }
        ensures refused { OnErr result (in_memory self.new ≡ in_memory self.old) }
    {
        let copy = Bytes::from_slice(self.alloc, bytes)?;
        match self.files.get_mut(name) {
            Some(file) => file.bytes = copy,
            None => {
                let key = String::from_str(self.alloc, name)?;
                let file = HeldFile {
                    bytes: copy,
                    faults: self.others,
                };
                self.files.insert(key, file)?;
            }
        }
        Ok(())
    }

    /// Lets the read with this number fail, counted from 1 over all reads. If memory runs out nothing changes.
    pub fn fail_at(&mut self, call: u32) -> Result<(), Memory>
        ensures chosen { OnOk result (in_memory self.new ≡ record (in_memory self.old) { failing = (in_memory self.old).failing ++ call ∷ [] }) }
        ensures refused { OnErr result (in_memory self.new ≡ in_memory self.old) }
    {
        self.failing.push(u64::from(call))?;
        Ok(())
    }

    /// Lets each read from now on give at most `n` bytes. It takes no memory.
    pub fn cut_to(&mut self, n: u32)
        requires { 0 < n }
        ensures { in_memory self.new ≡ record (in_memory self.old) { most = n } }
    {
        self.most = n as usize;
    }
}

impl Files for MemFiles {
    ghost use Rattle.ps_outside.specs.HeldFiles.{in_memory};

    ghost tells = { λ _. true };

    ghost held = { λ m. (in_memory m).held };

    ghost faults = { λ m. (in_memory m).faults };

    fn read_at(&mut self, name: &str, at: u64, buf: &mut [u8]) -> Result<usize, Failed>
        ensures number { (in_memory self.new).calls ≡ min ((in_memory self.old).calls + 1) last_count }
        ensures fails { IsErr result ↔ ReadFails (in_memory self.old) name.now (in_memory self.new).calls }
        ensures given { (text : List ℕ) → (in_memory self.old).held name.now ≡ Some text →
            IfOk result (λ n. n ≡ given_count text at (length buf.new) (in_memory self.old).most) }

        ensures fits { IfOk result (λ n. n ≤ length buf.new) }
        ensures found { OnOk result (IsSome ((in_memory self.old).held name.now)) }
        ensures bytes { (text : List ℕ) → (in_memory self.old).held name.now ≡ Some text → IfOk result (λ n. Reads text at n buf.new) }

        // A read that fails raises the count of its name, and with it no count of a file that is held.
        ensures failed { OnErr result (Rose ((in_memory self.old).faults name.now) ((in_memory self.new).faults name.now)) }
        ensures rises { OnErr result ((other : List ℕ) → ShareCount (in_memory self.old) name.now other →
            (in_memory self.new).faults other ≡ min ((in_memory self.old).faults other + 1) last_count) }
        ensures stays { OnErr result ((other : List ℕ) → ¬ ShareCount (in_memory self.old) name.now other →
            (in_memory self.new).faults other ≡ (in_memory self.old).faults other) }
        ensures counts { (other : List ℕ) → (in_memory self.old).faults other ≤ (in_memory self.new).faults other }
        ensures exact { OnOk result (CountsStay (in_memory self.old).faults (in_memory self.new).faults) }

        ensures kept { (in_memory self.new).held ≡ (in_memory self.old).held }
        ensures failing { (in_memory self.new).failing ≡ (in_memory self.old).failing }
        ensures most { (in_memory self.new).most ≡ (in_memory self.old).most }
    {
        self.calls = self.calls.saturating_add(1);
        let chosen = self.failing.contains(&self.calls);
        match self.files.get_mut(name) {
            None => {
                self.others = self.others.saturating_add(1);
                Err(Failed)
            }
            Some(file) => {
                if chosen {
                    file.faults = file.faults.saturating_add(1);
                    return Err(Failed);
                }
                Ok(copy_from(file.bytes.as_slice(), at, self.most, buf))
            }
        }
    }
}

// Copies the bytes from an offset on, as many as there is room for, but at most `most`.
fn copy_from(text: &[u8], at: u64, most: usize, buf: &mut [u8]) -> usize
    requires { 0 < most }
    ensures given { result ≡ given_count text.now at (length buf.new) most }
    ensures bytes { Reads text.now at result buf.new }
{
    let at = at as usize;
    if at >= text.len() {
        return 0;
    }
    let n = (text.len() - at).min(buf.len()).min(most);
    buf[..n].copy_from_slice(&text[at..at + n]);
    n
}
