// Laws of what is told of a scan.

ghost use Rattle.ps_why.specs.Laws.{EachFactHasGrounds, FormulasFollow, GroundsAreEnough};
ghost use Rattle.ps_why.specs.Laws.{WhateverTheInputs, WhyIsEnough};

use ps_model::App;
use ps_model::block_laws::each_demands;

/// The value of a formula follows from what is told of the signals that it reads: where an AND is FALSE from one FALSE
/// operand, where it is TRUE from all, and of an OR the other way round.
pub fn formulas_follow()
    ensures { FormulasFollow }
{}

/// A fact is so wherever the facts are so on which it rests: a safe output is FALSE where a pin is not as its demand
/// asks, a state is entered where the conditions are so of the guards up to the one that is taken.
pub fn grounds_are_enough()
    ensures { GroundsAreEnough }
{
    each_demands();
}

/// What is told as an explanation is enough, and so it is true: in every scan, from whatever state and after whatever
/// time, in which the leaves that are told are so, everything that is told is so.
pub fn why_is_enough(app: &App)
    ensures { WhyIsEnough app.now }
{
    app.sound();
    each_demands();
}

/// Of a scan whose leaves were told as they are: in every other one from the same state and after the same time, in
/// which the inputs that are told have their values, everything that is told is so. No other input has a say in it.
pub fn whatever_the_inputs(app: &App)
    ensures { WhateverTheInputs app.now }
{
    app.sound();
    each_demands();
}

/// Nothing that is so stays without a reason: each fact of a scan is a leaf, or rests on others that are so in it.
pub fn each_fact_has_grounds(app: &App)
    ensures { EachFactHasGrounds app.now }
{
    app.sound();
}
