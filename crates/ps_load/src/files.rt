// The texts of a load, as files.

ghost use Rattle.std.specs.Prelude.{◌≡◌, ◌≤◌, ◌+◌, ◌-◌, true, ℕ, List, Some, IsSome, IsNone, IsErr, IfOk, OnOk, OnErr};
ghost use Rattle.std.specs.Prelude.{◌↔◌, length, min};
ghost use Rattle.ps_load.specs.Holding.{held_of, faults_of};
ghost use Rattle.ps_outside.specs.Outside.{Rose, Reads, CountsStay, last_count};

use crate::texts::{read_app, read_trace};
use ps_outside::{Failed, Files};
use std::marker::Model;

/// The texts that a load runs over, under the names `app` and `trace`. They always tell their bytes, and reading these
/// two never fails.
///
/// The bytes are made where they are read, and take no memory. The trace of a load N has 1000 N scans, 10 ms apart.
/// There is one count of faults for all names that are not held.
#[derive(Drop)]
pub struct LoadFiles {
    number: u32,
    // the count of all names that are not held
    others: u64,
    ghost most: { number ≤ 1000 },
}

impl Model for LoadFiles {
    ghost use Rattle.ps_load.specs.Holding.{Load};

    ghost Value = { Load };

    ghost view = { λ f. record { number = f.number; others = f.others } };
}

impl LoadFiles {
    /// The texts of a load of this number, from 1 to 1000.
    pub fn new(n: u32) -> LoadFiles
        requires first { 1 ≤ n }
        requires last { n ≤ 1000 }
        ensures { result ≡ record { number = n; others = 0 } }
    {
        LoadFiles {
            number: n,
            others: 0,
        }
    }
}

impl Files for LoadFiles {
    ghost tells = { λ _. true };

    ghost held = { held_of };

    ghost faults = { faults_of };

    // Fills the whole buffer, where the text has so many bytes.
    fn read_at(&mut self, name: &str, at: u64, buf: &mut [u8]) -> Result<usize, Failed>
        ensures reads { IsErr result ↔ IsNone (held_of self.old name.now) }
        ensures given { (text : List ℕ) → held_of self.old name.now ≡ Some text → IfOk result (λ n. n ≡ min (length text - at) (length buf.new)) }
        ensures rises { OnErr result (self.new.others ≡ min (self.old.others + 1) last_count) }
        ensures unchanged { OnOk result (self.new ≡ self.old) }

        ensures fits { IfOk result (λ n. n ≤ length buf.new) }
        ensures found { OnOk result (IsSome (held_of self.old name.now)) }
        ensures bytes { (text : List ℕ) → held_of self.old name.now ≡ Some text → IfOk result (λ n. Reads text at n buf.new) }
        ensures failed { OnErr result (Rose (faults_of self.old name.now) (faults_of self.new name.now)) }
        ensures exact { OnOk result (CountsStay (faults_of self.old) (faults_of self.new)) }
        ensures counts { (other : List ℕ) → faults_of self.old other ≤ faults_of self.new other }
        ensures kept { self.new.number ≡ self.old.number }
    {
        match name {
            "app" => Ok(read_app(at, buf)),
            "trace" => Ok(read_trace(self.number, at, buf)),
            _ => {
                self.others = self.others.saturating_add(1);
                Err(Failed)
            }
        }
    }
}
