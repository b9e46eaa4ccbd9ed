// Laws of the world of three seats, over lists of events in any order of turns, with restarts and heals, and Spoils of
// any bytes at any place.

ghost use Rattle.ps_model.specs.Typing.{Accepted};
ghost use Rattle.ps_vote.specs.Whole.{Setup, machines_in, IsSetupOf};
ghost use Rattle.ps_vote.specs.Answers.{VoteRunsAreRight, HealRunsAreRight};
ghost use Rattle.ps_vote.specs.Laws.{SpoiledSeatIsOutvoted, MendedSeats, VotesExactly};

use ps_decision::laws::decision_code_keeps_the_meaning;
use ps_eqgen::laws::equation_code_keeps_the_meaning;
use ps_model::App;
use ps_stackgen::laws::stack_code_keeps_the_meaning;

/// Votes exactly: All comes exactly where three reports are equal, and Two of a seat exactly where the other two are
/// equal and it has none or another.
pub fn votes_exactly()
    ensures { (setup : Setup) → VotesExactly (machines_in setup) }
{}

/// One spoiled seat is outvoted: after every lawful list of events whose Spoils name one seat a vote is not Split and
/// gives the report of the meaning of the scan that it closes.
pub fn spoiled_seat_is_outvoted(app: &App)
    ensures { Accepted app.now → (setup : Setup) → IsSetupOf app.now setup → SpoiledSeatIsOutvoted app.now (machines_in setup) }
{
    app.sound();
    stack_code_keeps_the_meaning(app);
    equation_code_keeps_the_meaning(app);
    decision_code_keeps_the_meaning(app);
}

/// Mended seats: the same after every lawful list in which each seat that is struck was healed before another is; and a
/// vote is All where a Heal stands before it and no Spoil between the two.
pub fn mended_seats(app: &App)
    ensures { Accepted app.now → (setup : Setup) → IsSetupOf app.now setup → MendedSeats app.now (machines_in setup) }
{
    app.sound();
    stack_code_keeps_the_meaning(app);
    equation_code_keeps_the_meaning(app);
    decision_code_keeps_the_meaning(app);
}

/// A run of `vote` is right: in its order of events, over timely scans and restarts and faults that strike one seat, no
/// vote is Split and each gives the report of the meaning.
pub fn vote_runs_are_right(app: &App)
    ensures { Accepted app.now → (setup : Setup) → IsSetupOf app.now setup → VoteRunsAreRight app.now (machines_in setup) }
{
    app.sound();
    stack_code_keeps_the_meaning(app);
    equation_code_keeps_the_meaning(app);
    decision_code_keeps_the_meaning(app);
}

/// A run of `heal` is right: the same over faults that strike any seats, up to a fault that is reached while another
/// seat is dirty; and where none is, every scan is closed.
pub fn heal_runs_are_right(app: &App)
    ensures { Accepted app.now → (setup : Setup) → IsSetupOf app.now setup → HealRunsAreRight app.now (machines_in setup) }
{
    app.sound();
    stack_code_keeps_the_meaning(app);
    equation_code_keeps_the_meaning(app);
    decision_code_keeps_the_meaning(app);
}
