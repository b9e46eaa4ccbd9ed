// A scan's inputs, and what is reported of it.

use crate::app::App;
use crate::values::Bits;
use ps_base::Memory;
use std::alloc::Global;
use std::marker::Model;

/// What a scan takes in.
#[derive(Drop)]
pub struct Scan {
    /// The time in ms.
    pub now: u32,
    /// The values of the inputs, in order.
    pub ins: Bits,
}

/// What a block says of itself (PLCopen TC5).
#[derive(Clone, Copy, PartialEq)]
pub struct Diag {
    /// Ready: the block is not in Idle.
    pub ready: bool,
    /// Error: the block is in a state Cxxx.
    pub error: bool,
    /// DiagCode: the state, 0 to 65,535.
    pub code: u16,
}

/// What each instance says of itself, in order, which contracts see as a list.
#[derive(Drop)]
pub struct Diags {
    items: Vec<Diag>,
}

impl Model for Diags {
    ghost use Rattle.std.specs.Prelude.{List};
    ghost use Rattle.ps_model.specs.declared.report.Diag.{Diag};

    ghost Value = { List Diag };

    ghost view = { λ d. d.items.items };
}

/// The report of a scan.
pub struct Report {
    /// The values of the outputs, in order.
    pub outs: Bits,
    /// What each instance says of itself, in order.
    pub diags: Diags,
}

impl Drop for Report {
    // One call for whoever owns one, in place of a walk through all that it holds.
    fn drop(self) {
        let Report { outs: _, diags: _ } = self;
    }
}

ghost use Rattle.std.specs.Prelude.{◌≡◌, IfOk, false, replicate};
ghost use Rattle.ps_model.specs.Network.{input_count};

impl Diag {
    // What an idle block says of itself.
    const IDLE: Diag = Diag {
        ready: false,
        error: false,
        code: 0,
    };

    ghost use Rattle.std.specs.Prelude.{◌≡◌};
    ghost use Rattle.ps_model.specs.Fields.{diag_fields, first_unequal};

    // Which of the fields Ready, Error and DiagCode, numbered 0 to 2, is the first that differs.
    fn first_difference(self, other: Diag) -> Option<usize>
        ensures { result ≡ first_unequal (diag_fields self) (diag_fields other) }
    {
        if self.ready != other.ready {
            Some(0)
        } else if self.error != other.error {
            Some(1)
        } else if self.code != other.code {
            Some(2)
        } else {
            None
        }
    }
}

impl Diags {
    ghost use Rattle.std.specs.Prelude.{◌≡◌, ◌<◌, [], ◌∷◌, ◌++◌, IfOk, OnOk, Some, length, replicate, slice_get, slice_set};
    ghost use Rattle.ps_model.specs.Blank.{no_diag};

    /// None. It takes no memory.
    pub fn new(alloc: Global) -> Diags
        ensures { result ≡ [] }
    {
        Diags {
            items: Vec::new(alloc),
        }
    }

    /// Those of this many idle blocks. `Err` comes only if memory runs out.
    pub fn all_idle(alloc: Global, count: usize) -> Result<Diags, Memory>
        ensures { IfOk result (λ d. d ≡ replicate count no_diag) }
    {
        let items = vec![in alloc; Diag::IDLE; count]?;
        Ok(Diags { items })
    }

    /// One more at the end. `Err` comes only if memory runs out.
    pub fn push(&mut self, diag: Diag) -> Result<(), Memory>
        ensures { OnOk result (self.new ≡ self.old ++ diag ∷ []) }
    {
        self.items.push(diag)?;
        Ok(())
    }

    /// How many there are.
    pub fn len(&self) -> usize
        ensures { result ≡ length self.now }
    {
        self.items.len()
    }

    /// That of an instance, by its number.
    pub fn at(&self, i: usize) -> Diag
        requires { i < length self.now }
        ensures { slice_get self.now i ≡ Some result }
    {
        self.items[i]
    }

    /// Puts that of an instance.
    pub fn set(&mut self, i: usize, diag: Diag)
        requires { i < length self.old }
        ensures { self.new ≡ slice_set self.old i diag }
    {
        self.items[i] = diag;
    }

    /// Makes each that of an idle block. It takes no memory.
    pub fn clear(&mut self)
        ensures { self.new ≡ replicate (length self.old) no_diag }
    {
        self.items.as_mut_slice().fill(Diag::IDLE);
    }
}

impl Scan {
    /// A scan of the application's size at time 0, all FALSE.
    pub fn for_app(alloc: Global, app: &App) -> Result<Scan, Memory>
        ensures { IfOk result (λ scan. scan ≡ record { now = 0; ins = replicate (input_count app.now) false }) }
    {
        let ins = Bits::all_false(alloc, app.input_count() as usize)?;
        Ok(Scan { now: 0, ins })
    }
}

impl Report {
    ghost use Rattle.std.specs.Prelude.{◌≡◌, ◌≤◌, ◌+◌, ◌*◌, ◌^◌, ◌↔◌, IfOk, IsNone, length};
    ghost use Rattle.ps_model.specs.Network.{instance_count};
    ghost use Rattle.ps_model.specs.Fields.{first_difference, blank_report};

    /// A report of the application's sizes, all FALSE and 0.
    pub fn for_app(alloc: Global, app: &App) -> Result<Report, Memory>
        ensures { IfOk result (λ report. report ≡ blank_report (length app.now.outputs) (instance_count app.now)) }
    {
        let outs = Bits::all_false(alloc, app.output_count() as usize)?;
        let diags = Diags::all_idle(alloc, app.instance_count() as usize)?;
        Ok(Report { outs, diags })
    }

    /// Makes every output, Ready and Error FALSE and every code 0. It takes no memory.
    pub fn clear(&mut self)
        ensures { self.new ≡ blank_report (length self.old.outs) (length self.old.diags) }
    {
        self.outs.clear();
        self.diags.clear();
    }

    /// The number of the first field that differs, and None exactly where the reports are equal. The fields are
    /// numbered from 0: the outputs in order, then Ready, Error and DiagCode of each instance in order. It takes no
    /// memory.
    pub fn first_difference(&self, other: &Report) -> Option<u16>
        requires outs { length self.now.outs ≡ length other.now.outs }
        requires diags { length self.now.diags ≡ length other.now.diags }
        requires few { length self.now.outs + 3 * length self.now.diags ≤ 2 ^ 16 }
        ensures first { result ≡ first_difference self.now other.now }
        ensures equal { IsNone result ↔ (self.now ≡ other.now) }
    {
        let outputs = self.outs.len();
        for j in 0..outputs {
            if self.outs.at(j) != other.outs.at(j) {
                return Some(j as u16);
            }
        }
        for i in 0..self.diags.len() {
            if let Some(part) = self.diags.at(i).first_difference(other.diags.at(i)) {
                return Some((outputs + 3 * i + part) as u16);
            }
        }
        None
    }
}
