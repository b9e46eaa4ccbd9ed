// Lines that tell facts, one below another.

ghost use Rattle.std.specs.Prelude.{◌≡◌, map, IfOk, IfSome};
ghost use Rattle.std.specs.List.{range_with_len};
ghost use Rattle.ps_why.specs.Below.{first_line, line_below};

use ps_base::Memory;
use std::alloc::Global;

/// A line that tells a fact.
#[derive(Clone, Copy)]
pub struct Line {
    /// The number of the fact.
    pub fact: u32,
    /// How many lines it stands below.
    pub depth: u32,
}

impl Line {
    /// The line of a fact right below this one, one deeper. None: no line can stand that deep.
    pub fn below(self, fact: u32) -> Option<Line>
        ensures { IfSome result (λ line. line ≡ line_below self fact) }
    {
        let depth = self.depth.checked_add(1)?;
        Some(Line { fact, depth })
    }
}

/// For each of so many facts, in order, the line that tells it at the left. `Err` comes only if memory runs out.
pub fn first_lines(alloc: Global, count: u32) -> Result<Vec<Line>, Memory>
    ensures { IfOk result (λ lines. lines.items ≡ map first_line (range_with_len 0 count)) }
{
    let mut lines = Vec::with_capacity(alloc, count as usize)?;
    for fact in 0..count {
        lines.push(Line { fact, depth: 0 })?;
    }
    Ok(lines)
}
