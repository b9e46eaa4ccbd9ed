// In which order facts are told, and how deep each stands.

ghost use Rattle.std.specs.Prelude.{◌≡◌, ◌++◌, ◌∷◌, true, [], length, map, IfOk, OnOk, Some, slice_get};
ghost use Rattle.std.specs.List.{range_with_len};
ghost use Rattle.ps_why.specs.Below.{first_line};
ghost use Rattle.ps_bench_why.specs.Pending.{AddsChildren, IsInOrder, IsOfFact, IsTelling, KeepsNotes, KeepsOrder};
ghost use Rattle.ps_bench_why.specs.Pending.{children_of};
ghost use Rattle.ps_bench_why.specs.Trees.{AreLinesOf};

use ps_base::Memory;
use ps_why::{Explanation, Line, first_lines};
use std::alloc::Global;

// Puts the reasons of the fact of a line to those that are pending, right below it, the first one last.
fn push_reasons(
    explanation: &Explanation,
    line: Line,
    pending: &mut Vec<Line>,
) -> Result<(), Memory>
    ensures adds { OnOk result (AddsChildren explanation.now line pending.old.items pending.new.items) }
    ensures all { OnOk result (pending.new.items ≡ pending.old.items ++ children_of explanation.now line) }
{
    let place = line.fact as usize;
    if place >= explanation.reasons.len() {
        return Ok(());
    }
    let reasons = explanation.reasons[place].facts.as_slice();
    for i in 0..reasons.len() {
        let fact = reasons[reasons.len() - 1 - i];
        let Some(below) = line.below(fact) else {
            return Err(Memory);
        };
        if (fact as usize) < explanation.facts.len() {
            pending.push(below)?;
        }
    }
    Ok(())
}

// Tells a line, unless its fact is told, and puts what it rests on to those that are pending.
fn tell_line(
    explanation: &Explanation,
    line: Line,
    told: &mut [bool],
    lines: &mut Vec<Line>,
    pending: &mut Vec<Line>,
) -> Result<(), Memory>
    requires telling { IsTelling explanation.now told.old lines.old.items (pending.old.items ++ line ∷ []) }
    ensures telling { OnOk result (IsTelling explanation.now told.new lines.new.items pending.new.items) }
    ensures order { OnOk result (KeepsOrder explanation.now lines.old.items (pending.old.items ++ line ∷ [])
        lines.new.items pending.new.items) }
    ensures keeps { OnOk result (KeepsNotes told.old told.new) }
    ensures tells { OnOk result (slice_get told.new line.fact ≡ Some true) }
{
    let place = line.fact as usize;
    if told[place] {
        return Ok(());
    }
    told[place] = true;
    lines.push(line)?;
    push_reasons(explanation, line, pending)
}

// Tells what is pending, and all that it rests on.
fn tell_pending(
    explanation: &Explanation,
    told: &mut [bool],
    lines: &mut Vec<Line>,
    pending: &mut Vec<Line>,
) -> Result<(), Memory>
    requires telling { IsTelling explanation.now told.old lines.old.items pending.old.items }
    ensures telling { OnOk result (IsTelling explanation.now told.new lines.new.items pending.new.items) }
    ensures order { OnOk result (KeepsOrder explanation.now lines.old.items pending.old.items
        lines.new.items pending.new.items) }
    ensures keeps { OnOk result (KeepsNotes told.old told.new) }
    ensures done { OnOk result (pending.new.items ≡ []) }
{
    for _turn in 0..u64::MAX {
        match pending.pop() {
            Some(line) => tell_line(explanation, line, told, lines, pending)?,
            None => return Ok(()),
        }
    }
    Err(Memory)
}

// Tells a line at the left, and all that its fact rests on, unless it is told.
fn tell_first(
    explanation: &Explanation,
    line: Line,
    told: &mut [bool],
    lines: &mut Vec<Line>,
    pending: &mut Vec<Line>,
) -> Result<(), Memory>
    requires telling { IsTelling explanation.now told.old lines.old.items [] }
    requires none { pending.old.items ≡ [] }
    requires left { line.depth ≡ 0 }
    requires fact { IsOfFact explanation.now line }
    ensures telling { OnOk result (IsTelling explanation.now told.new lines.new.items []) }
    ensures order { OnOk result (KeepsOrder explanation.now lines.old.items (line ∷ []) lines.new.items []) }
    ensures none { OnOk result (pending.new.items ≡ []) }
    ensures keeps { OnOk result (KeepsNotes told.old told.new) }
    ensures tells { OnOk result (slice_get told.new line.fact ≡ Some true) }
{
    tell_line(explanation, line, told, lines, pending)?;
    tell_pending(explanation, told, lines, pending)
}

// Tells these lines at the left, one for each fact, and all that their facts rest on.
fn tell_firsts(
    explanation: &Explanation,
    firsts: &[Line],
    told: &mut [bool],
    lines: &mut Vec<Line>,
    pending: &mut Vec<Line>,
) -> Result<(), Memory>
    requires firsts { firsts.now ≡ map first_line (range_with_len 0 (length explanation.now.facts.items)) }
    requires telling { IsTelling explanation.now told.old lines.old.items [] }
    requires order { IsInOrder explanation.now lines.old.items [] firsts.now }
    requires none { pending.old.items ≡ [] }
    ensures { OnOk result (AreLinesOf explanation.now lines.new.items) }
{
    for line in firsts {
        tell_first(explanation, *line, told, lines, pending)?;
    }
    Ok(())
}

/// The lines in which an explanation is told: each fact once, below the one of which it is a reason that leads to it
/// first, and the reasons of a fact in their order. `Err` comes only if memory runs out.
pub fn lines_of(alloc: Global, explanation: &Explanation) -> Result<Vec<Line>, Memory>
    ensures { IfOk result (λ lines. AreLinesOf explanation.now lines.items) }
{
    let Ok(count) = u32::try_from(explanation.facts.len()) else {
        return Err(Memory);
    };
    let firsts = first_lines(alloc, count)?;
    let mut told = vec![in alloc; false; count as usize]?;
    let mut lines = Vec::with_capacity(alloc, count as usize)?;
    let mut pending = Vec::new(alloc);
    tell_firsts(
        explanation,
        firsts.as_slice(),
        told.as_mut_slice(),
        &mut lines,
        &mut pending,
    )?;
    Ok(lines)
}
