// The tree of a whole text.

ghost use Rattle.std.specs.Prelude.{◌≡◌, ◌<◌, [], ◌∷◌, ◌++◌, OnOk, length, Some, slice_get};

use ps_base::Memory;
use ps_parser::Source;
use std::alloc::Global;
use std::marker::Model;

/// Sources in order, which contracts see as a list of trees.
#[derive(Drop)]
pub struct Sources {
    items: Vec<Source>,
}

/// A whole text: its function blocks in the order of the text, and its program.
pub struct Library {
    pub blocks: Sources,
    pub program: Source,
}

impl Drop for Library {
    // One call for whoever owns one, in place of a walk through all that it holds.
    fn drop(self) {
        let Library {
            blocks: _,
            program: _,
        } = self;
    }
}

impl Library {
    /// The program, without the function blocks. It takes no memory.
    pub fn into_program(self) -> Source
        ensures { result ≡ self.program }
    {
        let Library { blocks: _, program } = self;
        program
    }
}

impl Model for Sources {
    ghost use Rattle.std.specs.Prelude.{List};
    ghost use Rattle.std.specs.Coded.{codes};
    ghost use Rattle.ps_parser.specs.Tree.{SourceTree};
    ghost use Rattle.ps_parser.specs.TreeCode.{sum_code};

    ghost Value = { List SourceTree };

    ghost coded = { Prim.hlevel (codes, sum_code) };

    ghost view = { λ s. s.items.items };
}

impl Sources {
    /// No sources. It takes no memory.
    pub fn new(alloc: Global) -> Sources
        ensures { result ≡ [] }
    {
        Sources {
            items: Vec::new(alloc),
        }
    }

    /// One more source at the end.
    pub fn push(&mut self, source: Source) -> Result<(), Memory>
        ensures { OnOk result (self.new ≡ self.old ++ source ∷ []) }
    {
        self.items.push(source)?;
        Ok(())
    }

    /// How many there are.
    pub fn len(&self) -> usize
        ensures { result ≡ length self.now }
    {
        self.items.len()
    }

    /// The source at a place of the list.
    pub fn at(&self, i: usize) -> &Source
        requires { i < length self.now }
        ensures { slice_get self.now i ≡ Some result.now }
    {
        &self.items[i]
    }

    /// The sources as a slice.
    pub fn as_slice(&self) -> &[Source]
        ensures { result.now ≡ self.now }
    {
        self.items.as_slice()
    }
}
