// Parts joined by AND or OR, made slim.

ghost use Rattle.std.specs.Prelude.{◌≡◌, [], ◌∷◌, ◌++◌, IfOk, OnOk, map};
ghost use Rattle.std.specs.List.{list_any};
ghost use Rattle.ps_demand.specs.Requirement.{same};
ghost use Rattle.ps_demand.specs.Slim.{neutral, deciding, parts_within, telling, gathered, slim_of_parts};
ghost use Rattle.ps_demand.specs.Views.{requirement};

use crate::demand::{Demand, Demands, is_among, is_same};
use crate::join::Join;
use indexmap::IndexSet;
use ps_base::Memory;
use std::alloc::Global;

// What says nothing as a part: TRUE in a conjunction, FALSE in a disjunction.
fn neutral(join: Join) -> Demand
    ensures { requirement result ≡ neutral join }
{
    match join {
        Join::And => Demand::True,
        Join::Or => Demand::False,
    }
}

// What decides alone as a part: FALSE in a conjunction, TRUE in a disjunction.
fn deciding(join: Join) -> Demand
    ensures { requirement result ≡ deciding join }
{
    match join {
        Join::And => Demand::False,
        Join::Or => Demand::True,
    }
}

// Adds a part at the end, or in its place its parts where it is of the same sort.
pub(crate) fn add_part(join: Join, part: Demand, parts: &mut Vec<Demand>) -> Result<(), Memory>
    ensures { OnOk result (map requirement parts.new.items ≡ map requirement parts.old.items ++ parts_within join (requirement part)) }
{
    match part {
        Demand::All(within) => match join {
            Join::And => add_each(within, parts),
            Join::Or => add_one(Demand::All(within), parts),
        },
        Demand::Any(within) => match join {
            Join::And => add_one(Demand::Any(within), parts),
            Join::Or => add_each(within, parts),
        },
        leaf => add_one(leaf, parts),
    }
}

// Adds a part at the end.
fn add_one(part: Demand, parts: &mut Vec<Demand>) -> Result<(), Memory>
    ensures { OnOk result (map requirement parts.new.items ≡ map requirement parts.old.items ++ requirement part ∷ []) }
{
    parts.push(part)?;
    Ok(())
}

// Adds parts at the end.
fn add_each(within: Demands, parts: &mut Vec<Demand>) -> Result<(), Memory>
    ensures { OnOk result (map requirement parts.new.items ≡ map requirement parts.old.items ++ map requirement within.items.items) }
{
    for part in within.items {
        parts.push(part)?;
    }
    Ok(())
}

// The parts as one.
fn gather(join: Join, mut parts: Vec<Demand>) -> Demand
    ensures { requirement result ≡ gathered join (map requirement parts.items) }
{
    if parts.len() > 1 {
        let group = Demands { items: parts };
        return match join {
            Join::And => Demand::All(group),
            Join::Or => Demand::Any(group),
        };
    }
    match parts.pop() {
        Some(part) => part,
        None => neutral(join),
    }
}

// Whether a part decides alone.
fn is_decided(join: Join, parts: &[Demand]) -> bool
    ensures { result ≡ list_any (same (deciding join)) (map requirement parts.now) }
{
    is_among(&deciding(join), parts)
}

// Whether a part says nothing.
fn is_silent(join: Join, part: &Demand) -> bool
    ensures { result ≡ same (requirement part.now) (neutral join) }
{
    is_same(part, &neutral(join))
}

// The parts of a set, in its order.
fn parts_of_set(alloc: Global, set: IndexSet<Demand>) -> Result<Vec<Demand>, Memory>
    ensures { IfOk result (λ parts. parts.items ≡ set.keys) }
{
    let mut parts = Vec::new(alloc);
    for part in set {
        parts.push(part)?;
    }
    Ok(parts)
}

// The parts that say something, without those that equal an earlier one, which their hashes find.
fn telling_parts(alloc: Global, join: Join, parts: Vec<Demand>) -> Result<Vec<Demand>, Memory>
    ensures { IfOk result (λ told. map requirement told.items ≡ telling join [] (map requirement parts.items)) }
{
    let mut set = IndexSet::with_capacity(alloc, parts.len())?;
    for part in parts {
        if !is_silent(join, &part) {
            set.insert(part)?;
        }
    }
    parts_of_set(alloc, set)
}

// Parts none of which is of the same sort, made slim. It takes the time of a few looks at each part.
pub(crate) fn slim_of_parts(alloc: Global, join: Join, parts: Vec<Demand>) -> Result<Demand, Memory>
    ensures { IfOk result (λ d. requirement d ≡ slim_of_parts join (map requirement parts.items)) }
{
    if is_decided(join, parts.as_slice()) {
        return Ok(deciding(join));
    }
    let told = telling_parts(alloc, join, parts)?;
    Ok(gather(join, told))
}
