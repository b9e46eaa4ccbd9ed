// What a safe output demands, as a formula.

ghost use Rattle.std.specs.Prelude.{◌≡◌, ◌≢◌, IfOk, map, length, fold};
ghost use Rattle.std.specs.List.{list_any};
ghost use Rattle.ps_demand.specs.Hashing.{hashed, hashed_parts};
ghost use Rattle.ps_demand.specs.Requirement.{requirements, same, same_parts};
ghost use Rattle.ps_demand.specs.Views.{requirement};

use ps_base::Memory;
use std::alloc::Global;
use std::hash::{Hash, Hasher};
use thiserror::Error;

/// What a safe output demands: a formula over the inputs of the same scan and the signals of the scan before, which
/// stand by their numbers.
#[derive(Drop)]
#[cycle(demand)]
pub enum Demand {
    /// Nothing: it holds in every scan.
    True,
    /// What no scan has.
    False,
    /// An input is TRUE in this scan.
    Now(u16),
    /// A signal was TRUE after the scan before.
    Before(u16),
    /// An input is FALSE in this scan.
    NotNow(u16),
    /// A signal was FALSE after the scan before.
    NotBefore(u16),
    /// Every part holds.
    All(Demands),
    /// At least one part holds.
    Any(Demands),
}

/// The parts of a conjunction or a disjunction, in order. Contracts read them by `items`.
#[derive(Drop)]
#[cycle(demand)]
pub struct Demands {
    /// The parts.
    pub items: Vec<Demand>,
}

/// The most leaves that a demand may have before it is made slim, TRUE and FALSE among them.
pub const MOST_LEAVES: u32 = 1_000;

/// Why a demand is not answered.
#[derive(Clone, Copy, Debug, Error)]
pub enum DemandFail {
    /// Out of memory.
    #[error("memory is wanting")]
    Memory,
    /// The demand has over 1,000 leaves before it is made slim.
    #[error("the demand has over 1,000 leaves")]
    Large,
}

impl From<Memory> for DemandFail {
    ghost use Rattle.std.specs.Prelude.{◌≡◌};
    ghost use Rattle.ps_demand.specs.declared.demand.DemandFail.TheVariants.{Memory as NoMemory};

    ghost from_gives = { λ _ fail. fail ≡ NoMemory };

    fn from(_memory: Memory) -> DemandFail {
        DemandFail::Memory
    }
}

/// A copy of a demand.
#[cycle(copy)]
pub fn copy(alloc: Global, demand: &Demand) -> Result<Demand, Memory>
    ensures { IfOk result (λ copied. requirement copied ≡ requirement demand.now) }
{
    Ok(match demand {
        Demand::True => Demand::True,
        Demand::False => Demand::False,
        Demand::Now(s) => Demand::Now(*s),
        Demand::Before(s) => Demand::Before(*s),
        Demand::NotNow(s) => Demand::NotNow(*s),
        Demand::NotBefore(s) => Demand::NotBefore(*s),
        Demand::All(parts) => Demand::All(copy_parts(alloc, parts)?),
        Demand::Any(parts) => Demand::Any(copy_parts(alloc, parts)?),
    })
}

// A copy of each part.
#[cycle(copy)]
fn copy_parts(alloc: Global, parts: &Demands) -> Result<Demands, Memory>
    ensures { IfOk result (λ copied. map requirement copied.items.items ≡ map requirement parts.now.items.items) }
{
    let mut items = Vec::new(alloc);
    for part in &parts.items {
        items.push(copy(alloc, part)?)?;
    }
    Ok(Demands { items })
}

/// Whether two demands are the same.
#[cycle(same)]
pub fn is_same(a: &Demand, b: &Demand) -> bool
    ensures { result ≡ same (requirement a.now) (requirement b.now) }
{
    match (a, b) {
        (Demand::True, Demand::True) | (Demand::False, Demand::False) => true,
        (Demand::Now(s), Demand::Now(t)) => s == t,
        (Demand::Before(s), Demand::Before(t)) => s == t,
        (Demand::NotNow(s), Demand::NotNow(t)) => s == t,
        (Demand::NotBefore(s), Demand::NotBefore(t)) => s == t,
        (Demand::All(parts), Demand::All(others)) => are_same(parts, others),
        (Demand::Any(parts), Demand::Any(others)) => are_same(parts, others),
        _ => false,
    }
}

// Whether two lists of parts are the same, one after another.
#[cycle(same)]
fn are_same(parts: &Demands, others: &Demands) -> bool
    ensures { result ≡ same_parts (requirements (map requirement parts.now.items.items)) (requirements (map requirement others.now.items.items)) }
{
    if parts.items.len() != others.items.len() {
        return false;
    }
    for (i, part) in parts.items.iter().enumerate() {
        if !is_same(part, &others.items[i]) {
            return false;
        }
    }
    true
}

impl PartialEq for Demand {
    ghost use Rattle.std.specs.Cmp.{on_per, partial_equiv_from_equiv};
    ghost use Rattle.ps_demand.specs.Hashing.{same_equivalence};

    ghost eq = { λ a b. same (requirement a) (requirement b) };

    ghost laws = { on_per requirement (partial_equiv_from_equiv same_equivalence) };

    fn eq(&self, other: &Demand) -> bool {
        is_same(self, other)
    }
}

impl Eq for Demand {
    ghost use Rattle.std.specs.Cmp.{on_equiv};
    ghost use Rattle.ps_demand.specs.Hashing.{same_equivalence};

    ghost laws = { on_equiv requirement same_equivalence };
}

// Gives what a demand is made of to a hasher.
#[cycle(give)]
fn give<H: Hasher>(demand: &Demand, state: &mut H)
    ensures { state.new ≡ fold H.write state.old (hashed (requirement demand.now)) }
{
    match demand {
        Demand::True => state.write_u8(0),
        Demand::False => state.write_u8(1),
        Demand::Now(s) => {
            state.write_u8(2);
            state.write_u16(*s);
        }
        Demand::Before(s) => {
            state.write_u8(3);
            state.write_u16(*s);
        }
        Demand::NotNow(s) => {
            state.write_u8(4);
            state.write_u16(*s);
        }
        Demand::NotBefore(s) => {
            state.write_u8(5);
            state.write_u16(*s);
        }
        Demand::All(parts) => {
            state.write_u8(6);
            give_parts(parts, state);
        }
        Demand::Any(parts) => {
            state.write_u8(7);
            give_parts(parts, state);
        }
    }
}

// Gives what each part is made of to a hasher.
#[cycle(give)]
fn give_parts<H: Hasher>(parts: &Demands, state: &mut H)
    ensures { state.new ≡ fold H.write state.old (hashed_parts (requirements (map requirement parts.now.items.items))) }
{
    for part in &parts.items {
        give(part, state);
    }
}

impl Hash for Demand {
    ghost use Rattle.ps_demand.specs.Hashing.{same_hashed};

    ghost hash_input = { λ d. hashed (requirement d) };

    ghost respects_eq = { λ a b equal. same_hashed (requirement a) (requirement b) equal };

    fn hash<H: Hasher>(&self, state: &mut H) {
        give(self, state);
    }
}

/// Whether a demand is the same as one of these.
pub fn is_among(demand: &Demand, others: &[Demand]) -> bool
    ensures { result ≡ list_any (same (requirement demand.now)) (map requirement others.now) }
{
    for other in others {
        if is_same(demand, other) {
            return true;
        }
    }
    false
}
