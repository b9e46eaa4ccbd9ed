// Lists of what a case file says.

use crate::case::{Case, Check, Statement};
use ps_base::Memory;
use std::alloc::Global;
use std::marker::Model;

/// The checks of an expectation, which contracts see as a list.
#[derive(Drop)]
pub struct Checks {
    items: Vec<Check>,
}

impl Model for Checks {
    ghost use Rattle.std.specs.Prelude.{List};
    ghost use Rattle.ps_bench_cases.specs.declared.case.Check.{Check};

    ghost Value = { List Check };

    ghost view = { λ x. x.items.items };
}

impl Checks {
    ghost use Rattle.std.specs.Prelude.{◌≡◌, [], ◌∷◌, ◌++◌, OnOk};

    /// There are no checks. It takes no memory.
    pub fn new(alloc: Global) -> Checks
        ensures { result ≡ [] }
    {
        Checks {
            items: Vec::new(alloc),
        }
    }

    /// One more check at the end. `Err` comes only if memory runs out.
    pub fn push(&mut self, check: Check) -> Result<(), Memory>
        ensures { OnOk result (self.new ≡ self.old ++ check ∷ []) }
    {
        self.items.push(check)?;
        Ok(())
    }

    /// All of them, as a slice.
    pub fn as_slice(&self) -> &[Check]
        ensures { result.now ≡ self.now }
    {
        self.items.as_slice()
    }
}

/// The statements in the order of their lines, which contracts see as a list.
#[derive(Drop)]
pub struct Statements {
    items: Vec<Statement>,
}

impl Model for Statements {
    ghost use Rattle.std.specs.Prelude.{List};
    ghost use Rattle.ps_bench_cases.specs.declared.case.Statement.{Statement};

    ghost Value = { List Statement };

    ghost view = { λ x. x.items.items };
}

impl Statements {
    ghost use Rattle.std.specs.Prelude.{◌≡◌, [], ◌∷◌, ◌++◌, OnOk};

    /// There are no statements. It takes no memory.
    pub fn new(alloc: Global) -> Statements
        ensures { result ≡ [] }
    {
        Statements {
            items: Vec::new(alloc),
        }
    }

    /// One more statement at the end. `Err` comes only if memory runs out.
    pub fn push(&mut self, statement: Statement) -> Result<(), Memory>
        ensures { OnOk result (self.new ≡ self.old ++ statement ∷ []) }
    {
        self.items.push(statement)?;
        Ok(())
    }

    /// All of them, as a slice.
    pub fn as_slice(&self) -> &[Statement]
        ensures { result.now ≡ self.now }
    {
        self.items.as_slice()
    }
}

/// The cases in the order of their file, which contracts see as a list.
#[derive(Drop)]
pub struct Cases {
    items: Vec<Case>,
}

impl Model for Cases {
    ghost use Rattle.std.specs.Prelude.{List};
    ghost use Rattle.ps_bench_cases.specs.declared.case.Case.{Case};

    ghost Value = { List Case };

    ghost view = { λ x. x.items.items };
}

impl Cases {
    ghost use Rattle.std.specs.Prelude.{◌≡◌, [], ◌∷◌, ◌++◌, OnOk};

    /// There are no cases. It takes no memory.
    pub fn new(alloc: Global) -> Cases
        ensures { result ≡ [] }
    {
        Cases {
            items: Vec::new(alloc),
        }
    }

    /// One more case at the end. `Err` comes only if memory runs out.
    pub fn push(&mut self, case: Case) -> Result<(), Memory>
        ensures { OnOk result (self.new ≡ self.old ++ case ∷ []) }
    {
        self.items.push(case)?;
        Ok(())
    }

    /// All of them, as a slice.
    pub fn as_slice(&self) -> &[Case]
        ensures { result.now ≡ self.now }
    {
        self.items.as_slice()
    }
}
