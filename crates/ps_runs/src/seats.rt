//! A world of three seats that the faults of a list strike.

ghost use Rattle.std.specs.Prelude.{◌≡◌, ◌≤◌, false, length};
ghost use Rattle.ps_runs.specs.Again.{first_again, healed_by};
ghost use Rattle.ps_model.specs.Network.{Network, input_count, instance_count};
ghost use Rattle.ps_trace.specs.FaultOrder.{StrikeInOrder, StrikeOne};
ghost use Rattle.ps_vote.specs.Faults.{line_of_fault};
ghost use Rattle.ps_vote.specs.Whole.{IsWorldOf};

use crate::performing::Performer;
use crate::striking::{count_upto, faults_from, number_behind};
use ps_base::{Place, Refusal, Rule};
use ps_model::{App, Report, Scan};
use ps_vote::{Seat, Vote, VoteFaults, VoteWorld};

/// A seat that was outvoted again in the scan after its healing.
#[derive(Clone, Copy)]
pub struct Again {
    /// The time of that scan in ms.
    pub now: u32,
    /// The seat.
    pub seat: Seat,
}

/// A world of three seats, with the faults of a run and how far the run has come.
#[derive(Drop)]
pub struct StruckSeats {
    /// The world, as the last scan or restart left it.
    pub world: VoteWorld,
    /// The faults of the whole run, in the order in which they strike.
    pub faults: VoteFaults,
    /// Whether a seat that a vote outvotes is healed.
    pub heals: bool,
    /// The first seat of the whole run that was outvoted again in the scan after its healing, where one was.
    pub again: Option<Again>,
    // the seat that was healed after the last scan, where no restart came since
    pub(crate) healed: Option<Seat>,
    // the place of the first fault that is still to come
    pub(crate) next: usize,
    // how many scans were made; they are counted while faults are still to come
    pub(crate) scans: u32,
}

/// A refusal by a rule at a line of a text, with no column.
pub fn at_line(rule: Rule, line: u32) -> Refusal
    ensures { result ≡ record { rule = rule; place = record { line = line; column = 0 } } }
{
    Refusal {
        rule,
        place: Place { line, column: 0 },
    }
}

// The seat that a run heals after this vote.
fn healed_by(heals: bool, vote: Vote) -> Option<Seat>
    ensures { result ≡ healed_by heals vote }
{
    match vote {
        Vote::Two(seat) if heals => Some(seat),
        _ => None,
    }
}

// The first seat that was outvoted again right after its healing, after a scan at this time with this vote.
fn first_again(before: Option<Again>, healed: Option<Seat>, now: u32, vote: Vote) -> Option<Again>
    ensures { result ≡ first_again before healed now vote }
{
    match (before, healed, vote) {
        (None, Some(Seat::A), Vote::Two(Seat::A)) => Some(Again { now, seat: Seat::A }),
        (None, Some(Seat::B), Vote::Two(Seat::B)) => Some(Again { now, seat: Seat::B }),
        (None, Some(Seat::C), Vote::Two(Seat::C)) => Some(Again { now, seat: Seat::C }),
        _ => before,
    }
}

impl StruckSeats {
    ghost use Rattle.std.specs.Prelude.{OnOk};
    ghost use Rattle.ps_runs.specs.Outcomes.{outcome_of};
    ghost use Rattle.ps_runs.specs.Seats.{AreAtBeginning, AreStruckSeatsFor, VotesScan};

    /// A run at its beginning, with faults that come in order, and strike one seat where it heals none. No scan is
    /// before the first, so a fault of a scan 0 would never strike.
    pub fn new(world: VoteWorld, faults: VoteFaults, heals: bool) -> StruckSeats
        requires ordered { StrikeInOrder line_of_fault faults }
        requires one_seat { heals ≡ false → StrikeOne line_of_fault faults }
        ensures begins { (net : Network) → IsWorldOf net world → AreAtBeginning net result }
        ensures fits { (net : Network) → IsWorldOf net world → AreStruckSeatsFor net result }
        ensures world { result.world ≡ world }
        ensures faults { result.faults ≡ faults }
        ensures heals { result.heals ≡ heals }
    {
        let next = count_upto(faults.as_slice(), 0);
        StruckSeats {
            world,
            faults,
            heals,
            again: None,
            healed: None,
            next,
            scans: 0,
        }
    }

    /// Makes the next scan by its events, with the faults that are due. It takes no memory.
    ///
    /// It is refused where a run that heals reaches a fault while another seat is dirty: by F4 at the line of the
    /// fault.
    pub fn make_scan(
        &mut self,
        app: &App,
        scan: &Scan,
        report: &mut Report,
    ) -> Result<Vote, Refusal>
        requires fits { AreStruckSeatsFor app.now self.old }
        requires due { self.old.world.state.last ≤ scan.now.now }
        requires inputs { length scan.now.ins ≡ input_count app.now }
        requires outputs { length report.old.outs ≡ length app.now.outputs }
        requires diagnoses { length report.old.diags ≡ instance_count app.now }
        ensures votes { VotesScan app.now self.old scan.entry.now.now scan.entry.now.ins
            (outcome_of scan.entry.now.now report.new result) self.new }
        ensures fits { OnOk result (AreStruckSeatsFor app.now self.new) }
        ensures last { self.new.world.state.last ≤ scan.entry.now.now }
        ensures outputs { length report.new.outs ≡ length app.now.outputs }
        ensures diagnoses { length report.new.diags ≡ instance_count app.now }
    {
        let to_come = faults_from(self.faults.as_slice(), self.next);
        let number = number_behind(self.scans, to_come);
        let due = count_upto(to_come, number);
        let answer = self
            .world
            .make_scan(scan, &to_come[..due], self.heals, report);
        self.scans = number;
        self.next += due;
        match answer {
            Ok(vote) => {
                self.again = first_again(self.again, self.healed, scan.now, vote);
                self.healed = healed_by(self.heals, vote);
                Ok(vote)
            }
            Err(line) => {
                self.healed = None;
                Err(at_line(Rule::F4, line))
            }
        }
    }
}

/// The world of three seats that faults strike: it makes each scan by its events, and refuses one that ends at a fault.
impl Performer for StruckSeats {
    type Verdict = Vote;

    ghost use Rattle.ps_runs.specs.Seats.{AreStruckSeatsFor, VotesItem};

    ghost fits = { AreStruckSeatsFor };

    ghost earliest = { λ p. p.world.state.last };

    ghost performs = { VotesItem };

    fn perform_scan(
        &mut self,
        app: &App,
        scan: &Scan,
        report: &mut Report,
    ) -> Result<Vote, Refusal> {
        self.make_scan(app, scan, report)
    }

    fn perform_restart(&mut self, _app: &App) {
        self.world.restart();
        self.healed = None;
    }
}
