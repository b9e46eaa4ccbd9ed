// Lists of what a rules file says.

use crate::rules::{Condition, Follow, Rule};
use ps_base::Memory;
use std::alloc::Global;
use std::marker::Model;

/// The inputs that follow a signal, which contracts see as a list.
#[derive(Drop)]
pub struct Follows {
    items: Vec<Follow>,
}

impl Model for Follows {
    ghost use Rattle.std.specs.Prelude.{List};
    ghost use Rattle.ps_bench_rules.specs.declared.rules.Follow.{Follow};

    ghost Value = { List Follow };

    ghost view = { λ x. x.items.items };
}

impl Follows {
    ghost use Rattle.std.specs.Prelude.{◌≡◌, [], ◌∷◌, ◌++◌, OnOk};

    /// There are none. It takes no memory.
    pub fn new(alloc: Global) -> Follows
        ensures { result ≡ [] }
    {
        Follows {
            items: Vec::new(alloc),
        }
    }

    /// One more follow at the end. `Err` comes only if memory runs out.
    pub fn push(&mut self, follow: Follow) -> Result<(), Memory>
        ensures { OnOk result (self.new ≡ self.old ++ follow ∷ []) }
    {
        self.items.push(follow)?;
        Ok(())
    }

    /// All of them, as a slice.
    pub fn as_slice(&self) -> &[Follow]
        ensures { result.now ≡ self.now }
    {
        self.items.as_slice()
    }
}

/// The conditions of a rule, which contracts see as a list.
#[derive(Drop)]
pub struct Conditions {
    items: Vec<Condition>,
}

impl Model for Conditions {
    ghost use Rattle.std.specs.Prelude.{List};
    ghost use Rattle.ps_bench_rules.specs.declared.rules.Condition.{Condition};

    ghost Value = { List Condition };

    ghost view = { λ x. x.items.items };
}

impl Conditions {
    ghost use Rattle.std.specs.Prelude.{◌≡◌, [], ◌∷◌, ◌++◌, OnOk};

    /// There are none. It takes no memory.
    pub fn new(alloc: Global) -> Conditions
        ensures { result ≡ [] }
    {
        Conditions {
            items: Vec::new(alloc),
        }
    }

    /// One more condition at the end. `Err` comes only if memory runs out.
    pub fn push(&mut self, condition: Condition) -> Result<(), Memory>
        ensures { OnOk result (self.new ≡ self.old ++ condition ∷ []) }
    {
        self.items.push(condition)?;
        Ok(())
    }

    /// More conditions at the end. `Err` comes only if memory runs out.
    pub fn append(&mut self, conditions: Conditions) -> Result<(), Memory>
        ensures { OnOk result (self.new ≡ self.old ++ conditions) }
    {
        let Conditions { mut items } = conditions;
        self.items.append(&mut items)?;
        Ok(())
    }

    /// All of them, as a slice.
    pub fn as_slice(&self) -> &[Condition]
        ensures { result.now ≡ self.now }
    {
        self.items.as_slice()
    }
}

/// The rules in the order of their file, which contracts see as a list.
#[derive(Drop)]
pub struct Rules {
    items: Vec<Rule>,
}

impl Model for Rules {
    ghost use Rattle.std.specs.Prelude.{List};
    ghost use Rattle.ps_bench_rules.specs.declared.rules.Rule.{Rule};

    ghost Value = { List Rule };

    ghost view = { λ x. x.items.items };
}

impl Rules {
    ghost use Rattle.std.specs.Prelude.{◌≡◌, [], ◌∷◌, ◌++◌, OnOk};

    /// There are none. It takes no memory.
    pub fn new(alloc: Global) -> Rules
        ensures { result ≡ [] }
    {
        Rules {
            items: Vec::new(alloc),
        }
    }

    /// One more rule at the end. `Err` comes only if memory runs out.
    pub fn push(&mut self, rule: Rule) -> Result<(), Memory>
        ensures { OnOk result (self.new ≡ self.old ++ rule ∷ []) }
    {
        self.items.push(rule)?;
        Ok(())
    }

    /// All of them, as a slice.
    pub fn as_slice(&self) -> &[Rule]
        ensures { result.now ≡ self.now }
    {
        self.items.as_slice()
    }
}
