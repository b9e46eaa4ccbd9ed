// A source: a program, or a function block.

ghost use Rattle.std.specs.Prelude.{◌≡◌, IsSome, Some, None};
ghost use Rattle.ps_parser.specs.Whole.{IsSource};
ghost use Rattle.ps_parser.specs.Places.{step_place};
ghost use Rattle.ps_parser.specs.Pins.{pin_text};

use crate::name::Name;
use crate::section::Sections;
use crate::statement::Statements;
use ps_base::Place;
use std::marker::Model;

/// A program or a function block: its name, its sections and its statements, which contracts see as a `SourceTree`.
///
/// Groups are nested at most `MOST_GROUPS` deep. Each TIME literal is at most `LARGEST_TIME` ms. Each name in it is a
/// name of the language, or several names joined by dots as one name. The names of a declaration, the factors of a
/// product and the products of a sum are one at least.
pub struct Source {
    pub name: Name,
    pub sections: Sections,
    pub statements: Statements,
}

impl Drop for Source {
    // One call for whoever owns one, in place of a walk through all that it holds.
    fn drop(self) {
        let Source {
            name: _,
            sections: _,
            statements: _,
        } = self;
    }
}

impl Model for Source {
    ghost use Rattle.std.specs.Coded.{codes};
    ghost use Rattle.ps_parser.specs.Tree.{SourceTree};
    ghost use Rattle.ps_parser.specs.TreeCode.{sum_code};

    ghost Value = { SourceTree };

    ghost coded = { Prim.hlevel (codes, sum_code) };

    ghost use Rattle.ps_parser.specs.SourceView.{source_tree, IsSourceInside};

    ghost view = { source_tree };

    ghost invariant = { IsSourceInside };
}

impl Source {
    /// What every source keeps: its invariant. It does nothing.
    pub fn kept(&self)
        ensures { IsSource self.now }
    {
        let _ = &self.name;
    }

    /// The place of a step, which is that of its assignment's target or of its called name; where a pin's name is
    /// given, that of the pin's first mention in the call. The step has to exist, and with a pin's name it has to be a
    /// call that names this pin, without letter case. It takes no memory.
    pub fn place(&self, step: u16, pin: Option<&str>) -> Place
        requires { IsSome (step_place self.now step (pin_text pin)) }
        ensures { Some result ≡ step_place self.now step (pin_text pin.entry) }
    {
        match self.place_if(step, pin) {
            Some(place) => place,
            None => unreachable!(),
        }
    }

    /// The place of a step, or of a pin in it; none where there is no such step, or it is no call that names the pin.
    pub(crate) fn place_if(&self, step: u16, pin: Option<&str>) -> Option<Place>
        ensures { result ≡ step_place self.now step (pin_text pin.entry) }
    {
        let step = step as usize;
        if step >= self.statements.len() {
            return None;
        }
        let statement = self.statements.at(step);
        match pin {
            None => Some(statement.place()),
            Some(pin) => statement.pin_place(pin),
        }
    }
}
