// The trace of cases, held in memory.

ghost use Rattle.std.specs.Prelude.{◌≡◌, ◌≤◌, [], true, ℕ, List, Some, IfOk, OnOk, IsOk, All, length};
ghost use Rattle.ps_bench_cases.specs.Alone.{alone};
ghost use Rattle.ps_bench_cases.specs.Expanded.{expanded};
ghost use Rattle.ps_bench_cases.specs.Meant.{whole_case};
ghost use Rattle.ps_bench_cases.specs.Runnable.{IsRunnable};
ghost use Rattle.ps_bench_cases.specs.declared.case.Case.{Case as CaseOf};
ghost use Rattle.ps_bench_cases.specs.declared.limits.TheConstants.{MOST_CASES};
ghost use Rattle.ps_outside.specs.Outside.{Reads};

use ps_base::Memory;
use ps_bench_cases::{Case, CaseFile, ExpandFail, expand, expand_alone};
use ps_model::App;
use ps_outside::{Failed, Files, Sink};
use std::alloc::Global;
use std::marker::Model;

// An output that keeps what it takes. A write for which there is no memory fails.
#[derive(Drop)]
struct Sheet {
    bytes: Vec<u8>,
    faults: u64,
}

impl Sink for Sheet {
    ghost tells = { λ _. true };

    ghost taken = { λ sheet. sheet.bytes.items };

    ghost faults = { λ sheet. sheet.faults };

    fn write(&mut self, piece: &[u8]) -> Result<usize, Failed> {
        match self.bytes.extend_from_slice(piece) {
            Ok(()) => Ok(piece.len()),
            Err(_) => {
                self.faults = self.faults.saturating_add(1);
                Err(Failed)
            }
        }
    }
}

impl Sheet {
    // No byte was taken.
    fn new(alloc: Global) -> Sheet
        ensures { result.bytes.items ≡ [] }
    {
        Sheet {
            bytes: Vec::new(alloc),
            faults: 0,
        }
    }

    // What was taken, if all was written.
    fn finish(self, written: Result<(), ExpandFail>) -> Result<Expansion, Memory>
        ensures text { IfOk result (λ expansion. expansion ≡ self.bytes.items) }
        ensures whole { OnOk result (IsOk written) }
    {
        match written {
            Ok(()) => Ok(Expansion { text: self.bytes }),
            Err(_) => Err(Memory),
        }
    }
}

/// A trace of cases, held in memory: files that hold it under every name, whose reads never fail. Contracts see it as
/// the text.
#[derive(Drop)]
pub struct Expansion {
    text: Vec<u8>,
}

impl Model for Expansion {
    ghost use Rattle.std.specs.Prelude.{List, ℕ};

    ghost Value = { List ℕ };

    ghost view = { λ expansion. expansion.text.items };
}

impl Expansion {
    /// The trace of all cases of a file. An error means out of memory.
    pub fn of_all(alloc: Global, app: &App, file: &CaseFile) -> Result<Expansion, Memory>
        requires runnable { All (λ (case : CaseOf). IsRunnable app.now (whole_case file.now case)) file.now.cases }
        requires few { length file.now.cases ≤ MOST_CASES }
        ensures { IfOk result (λ expansion. expansion ≡ expanded app.now file.now) }
    {
        let mut sheet = Sheet::new(alloc);
        let written = expand(&mut sheet, alloc, app, file);
        sheet.finish(written)
    }

    /// The trace of one case of a file, as if the file had this case alone. An error means out of memory.
    pub fn of_one(
        alloc: Global,
        app: &App,
        file: &CaseFile,
        case: &Case,
    ) -> Result<Expansion, Memory>
        requires { IsRunnable app.now (whole_case file.now case.now) }
        ensures { IfOk result (λ expansion. expansion ≡ expanded app.now (alone file.now case.now)) }
    {
        let mut sheet = Sheet::new(alloc);
        let written = expand_alone(&mut sheet, alloc, app, file, case);
        sheet.finish(written)
    }
}

impl Files for Expansion {
    ghost tells = { λ _. true };

    ghost held = { λ text _. Some text };

    ghost faults = { λ _ _. 0 };

    fn read_at(&mut self, _name: &str, at: u64, buf: &mut [u8]) -> Result<usize, Failed> {
        Ok(copy_from(self.text.as_slice(), at, buf))
    }
}

// Copies the bytes from an offset on, as many as there is room for.
fn copy_from(text: &[u8], at: u64, buf: &mut [u8]) -> usize
    ensures bytes { Reads text.now at result buf.new }
    ensures fits { result ≤ length buf.new }
{
    let at = at as usize;
    if at >= text.len() {
        return 0;
    }
    let count = (text.len() - at).min(buf.len());
    buf[..count].copy_from_slice(&text[at..at + count]);
    count
}
