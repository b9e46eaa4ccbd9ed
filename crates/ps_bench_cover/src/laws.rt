//! Laws of the places of operands.

ghost use Rattle.ps_bench_cover.specs.OfOperands.{PlacesAreOfOperands};

/// Where an application stands for a source, each point that is a decision has the place of its operand: of an operand
/// that is written there and stands for the formula that decides.
pub fn places_are_of_operands()
    ensures { PlacesAreOfOperands }
{}
