//! A world of two channels that the faults of a list strike, and what is common to the faults of such lists.

ghost use Rattle.std.specs.Prelude.{◌≡◌, ◌⊎◌, ◌≤◌, ◌<◌, ℕ, suc, All, [], take, drop, length, IfOk};
ghost use Rattle.std.specs.List.Sorted.{IsNonDecreasingBy};
ghost use Rattle.std.specs.Option.{option_or};
ghost use Rattle.ps_model.specs.Network.{Network, input_count, instance_count};
ghost use Rattle.ps_trace.specs.FaultOrder.{AreInOrder, AreOfOneChannel};
ghost use Rattle.ps_world.specs.Whole.{IsWorldOf, machines_in};
ghost use Rattle.ps_runs.specs.Performing.{trips_with};
ghost use Rattle.ps_runs.specs.Tripping.{outcome_in, trip_with, values_with};

use crate::performing::Performer;
use ps_base::Refusal;
use ps_model::{App, Cause, Channel, Fault, Report, Scan, Verdict};
use ps_trace::Faults;
use ps_vote::VoteFault;
use ps_world::World;

/// A scan that tripped.
#[derive(Clone, Copy)]
pub struct Trip {
    /// Its time in ms.
    pub now: u32,
    /// Why it tripped.
    pub cause: Cause,
    /// The values of channel A and of channel B in the first field in which their reports differ, where they do: 0 or 1
    /// of a Boolean, or a code.
    pub values: Option<(u16, u16)>,
}

/// A world of two channels, with the faults of a run and how far the run has come.
#[derive(Drop)]
pub struct StruckWorld {
    /// The world, as the last scan or restart left it.
    pub world: World,
    /// The faults of the whole run, in the order in which they strike.
    pub faults: Faults,
    /// Whether a scan tripped, in the whole run.
    pub tripped: bool,
    /// The first scan that tripped, where one did.
    pub trip: Option<Trip>,
    // the place of the first fault that is still to come
    pub(crate) next: usize,
    // how many scans were made; they are counted while faults are still to come
    pub(crate) scans: u32,
}

// A fault of a list, which strikes in one scan of a run.
pub(crate) trait Strikes {
    // The number of that scan.
    ghost in_scan: { Self → ℕ };

    // The number of that scan, counted from 1.
    fn scan(&self) -> u32
        ensures { result ≡ in_scan self.now };
}

impl Strikes for Fault {
    ghost in_scan = { λ f. f.scan };

    fn scan(&self) -> u32 {
        self.scan
    }
}

impl Strikes for VoteFault {
    ghost in_scan = { λ f. f.scan };

    fn scan(&self) -> u32 {
        self.scan
    }
}

// How many of these faults, which come in order, are of this scan or an earlier one: they stand first.
pub(crate) fn count_upto<F: Strikes>(faults: &[F], scan: u32) -> usize
    requires { IsNonDecreasingBy F.in_scan faults.now }
    ensures within { result ≤ length faults.now }
    ensures upto { All (λ f. F.in_scan f ≤ scan) (take result faults.now) }
    ensures later { All (λ f. scan < F.in_scan f) (drop result faults.now) }
{
    faults.partition_point(|fault| fault.scan() <= scan)
}

// The number of the scan after so many, counted while faults are still to come.
pub(crate) fn number_behind<F: Strikes>(scans: u32, faults: &[F]) -> u32
    requires { All (λ f. scans < F.in_scan f) faults.now }
    ensures { (faults.now ≡ []) ⊎ (result ≡ suc scans) }
{
    match faults {
        [] => scans,
        [first, ..] => {
            let next = first.scan();
            prove!(scans < next);
            scans + 1
        }
    }
}

// The faults from a place on.
pub(crate) fn faults_from<F>(faults: &[F], place: usize) -> &[F]
    requires { place ≤ length faults.now }
    ensures { result.now ≡ drop place faults.now }
{
    &faults[place..]
}

// Whether a scan with this verdict trips.
fn is_trip(verdict: Verdict) -> bool
    ensures { result ≡ trips_with verdict }
{
    matches!(verdict, Verdict::Tripped(_))
}

// The values of the two channels in the first field in which their reports differ, where this is the cause of a trip.
fn values_of(world: &mut World, cause: Cause) -> Option<(u16, u16)>
    ensures same { world.new ≡ world.old }
    ensures values { result ≡ values_with cause
        (outcome_in Channel.A (machines_in world.old.setup) world.old.state)
        (outcome_in Channel.B (machines_in world.old.setup) world.old.state) }
{
    let Cause::Differ(field) = cause else {
        return None;
    };
    let a = world.field_value(Channel::A, field)?;
    let b = world.field_value(Channel::B, field)?;
    Some((a, b))
}

// Remembers a scan at this time with this verdict, which the world has just made, where it is the first that tripped.
fn remember_trip(trip: &mut Option<Trip>, world: &mut World, now: u32, verdict: Verdict)
    ensures same { world.new ≡ world.old }
    ensures first { trip.new ≡ option_or trip.old (trip_with verdict now
        (outcome_in Channel.A (machines_in world.old.setup) world.old.state)
        (outcome_in Channel.B (machines_in world.old.setup) world.old.state)) }
{
    if trip.is_some() {
        return;
    }
    if let Verdict::Tripped(cause) = verdict {
        let values = values_of(world, cause);
        *trip = Some(Trip { now, cause, values });
    }
}

impl StruckWorld {
    ghost use Rattle.ps_runs.specs.Outcomes.{performed};
    ghost use Rattle.ps_runs.specs.Performing.{IsStruckWorldFor, MakesScan};
    ghost use Rattle.ps_runs.specs.Running.{IsBeginning};

    /// A run at its beginning, with faults that come in order and strike one channel. No scan is before the first, so
    /// a fault of a scan 0 would never strike.
    pub fn new(world: World, faults: Faults) -> StruckWorld
        requires ordered { AreInOrder faults }
        requires one_channel { AreOfOneChannel faults }
        ensures begins { (net : Network) → IsWorldOf net world → IsBeginning net result }
        ensures fits { (net : Network) → IsWorldOf net world → IsStruckWorldFor net result }
        ensures world { result.world ≡ world }
        ensures faults { result.faults ≡ faults }
    {
        let next = count_upto(faults.as_slice(), 0);
        StruckWorld {
            world,
            faults,
            tripped: false,
            trip: None,
            next,
            scans: 0,
        }
    }

    /// Makes the next scan by its events, with the faults that are due. It takes no memory.
    pub fn make_scan(&mut self, app: &App, scan: &Scan, report: &mut Report) -> Verdict
        requires fits { IsStruckWorldFor app.now self.old }
        requires due { self.old.world.state.last ≤ scan.now.now }
        requires inputs { length scan.now.ins ≡ input_count app.now }
        requires outputs { length report.old.outs ≡ length app.now.outputs }
        requires diagnoses { length report.old.diags ≡ instance_count app.now }
        ensures makes { MakesScan app.now self.old scan.entry.now.now scan.entry.now.ins
            (performed scan.entry.now.now result report.new) self.new }
        ensures fits { IsStruckWorldFor app.now self.new }
        ensures last { self.new.world.state.last ≤ scan.entry.now.now }
        ensures outputs { length report.new.outs ≡ length app.now.outputs }
        ensures diagnoses { length report.new.diags ≡ instance_count app.now }
    {
        let to_come = faults_from(self.faults.as_slice(), self.next);
        let number = number_behind(self.scans, to_come);
        let due = count_upto(to_come, number);
        let verdict = self.world.make_scan(scan, &to_come[..due], report);
        self.scans = number;
        self.next += due;
        self.tripped |= is_trip(verdict);
        remember_trip(&mut self.trip, &mut self.world, scan.now, verdict);
        verdict
    }
}

/// The world of two channels that faults strike: it makes each scan by its events, and refuses none.
impl Performer for StruckWorld {
    type Verdict = Verdict;

    ghost use Rattle.ps_runs.specs.Performing.{IsStruckWorldFor, Performs};

    ghost fits = { IsStruckWorldFor };

    ghost earliest = { λ p. p.world.state.last };

    ghost performs = { Performs };

    fn perform_scan(
        &mut self,
        app: &App,
        scan: &Scan,
        report: &mut Report,
    ) -> Result<Verdict, Refusal> {
        Ok(self.make_scan(app, scan, report))
    }

    fn perform_restart(&mut self, _app: &App) {
        self.world.restart();
    }
}
