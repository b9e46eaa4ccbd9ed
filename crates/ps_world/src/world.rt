// The world of two channels, event by event.

ghost use Rattle.std.specs.Prelude.{◌≡◌, ◌≤◌, ◌<◌, ◌^◌, ◌&&◌, ◌||◌, ◌+◌, false, true, is_err, length, nat_lt, None};
ghost use Rattle.std.specs.Prelude.{IfSome, IfNone, IfOk, [], ◌*◌};
ghost use Rattle.ps_model.specs.Typing.{Accepted};
ghost use Rattle.ps_model.specs.Budgets.{turns_a, turns_b};
ghost use Rattle.ps_model.specs.Fields.{blank_report};
ghost use Rattle.ps_model.specs.Sized.{AreSizesOf};
ghost use Rattle.ps_machine.specs.Channels.{ended};
ghost use Rattle.ps_stackvm.specs.Channel.{workings_a};
ghost use Rattle.ps_stackvm.specs.Code.{code_a};
ghost use Rattle.ps_eqvm.specs.Channel.{workings_b};
ghost use Rattle.ps_eqvm.specs.Code.{code_b};
ghost use Rattle.ps_machine.specs.Seats.{new_seat, machine_in};
ghost use Rattle.ps_world.specs.Worlds.{machine, channel};
ghost use Rattle.ps_world.specs.Worlds.Event.{Begin, Turn, Spoil, Compare, Restart};
ghost use Rattle.ps_world.specs.Steps.{both_ended};
ghost use Rattle.ps_world.specs.Verdicts.{verdict, report_given, judged, cause_of, field_in};
ghost use Rattle.ps_world.specs.Whole.{machines_in, region_in, happened, after_events, whole_of, IsWorldOf};
ghost use Rattle.ps_world.specs.Orders.{spoils_before, next_turn, turn_events, events_before_compare, at_compare};
ghost use Rattle.ps_world.specs.Orders.{scan_events};
ghost use Rattle.ps_machine.specs.Outcomes.{outcome};
ghost use Rattle.ps_machine.specs.Outcomes.Outcome.{gives};

use crate::field::value_given;
use ps_base::Memory;
use ps_eqgen::{equation_image, equation_sizes};
use ps_eqvm::EquationChannel;
use ps_machine::{Failing, Seat};
use ps_model::{
    App, Cause, Channel, Fault, ImageSizes, OutOfRegion, Region, Report, Scan, Sizes, Verdict,
};
use ps_stackgen::stack_image;
use ps_stackvm::StackChannel;
use std::alloc::Global;
use std::marker::Model;

/// Two channels of one application, which make its scans event by event and whose reports are compared.
/// Contracts see it as a `Whole`. Only `build` takes memory.
pub struct World {
    a: Seat<StackChannel>,
    b: Seat<EquationChannel>,
    last: u32,
    begun: bool,
    tripped: bool,
    // room for the report of channel B, which is no part of what the world is
    other: Report,
}

impl Drop for World {
    // One call for whoever owns one, in place of a walk through all that it holds.
    fn drop(self) {
        let World {
            a: _,
            b: _,
            last: _,
            begun: _,
            tripped: _,
            other: _,
        } = self;
    }
}

impl Model for World {
    ghost use Rattle.std.specs.Prelude.{◌≡◌, ◌≤◌, ◌+◌, ◌*◌, ◌^◌, length};
    ghost use Rattle.ps_world.specs.Whole.{Whole};

    ghost Value = { Whole };

    ghost view = { λ w. record {
      setup = record { sizes = w.a.sizes; image_a = w.a.image; image_b = w.b.image; budget_a = w.a.budget; budget_b = w.b.budget };
      state = record { a = w.a.channel; b = w.b.channel; last = w.last; begun = w.begun; tripped = w.tripped };
    } };

    ghost invariant = { λ w. (w.b.sizes ≡ w.a.sizes) × (w.a.sizes.outputs + 3 * w.a.sizes.instances ≤ 2 ^ 16)
        × (length w.other.outs ≡ w.a.sizes.outputs) × (length w.other.diags ≡ w.a.sizes.instances) };
}

// The cause that a channel's failing is.
fn cause_of_failing(channel: Channel, failing: Failing) -> Cause
    ensures { result ≡ cause_of channel failing }
{
    match failing {
        Failing::Trap(n) => Cause::Trap(channel, n),
        Failing::Stuck => Cause::Stuck(channel),
        Failing::NoReport => Cause::NoReport(channel),
    }
}

// The seat of channel A of an application of these sizes.
fn stack_seat(alloc: Global, app: &App, sizes: &Sizes) -> Result<Seat<StackChannel>, Memory>
    requires { Accepted app.now }
    ensures { IfOk result (λ seat. seat ≡ new_seat workings_a sizes.now (code_a app.now) (turns_a app.now)) }
{
    let image = stack_image(alloc, app)?;
    let budget = app.turns_a();
    Seat::build(alloc, image, sizes, budget)
}

// The seat of channel B of an application of these sizes, which are counted for it anew: it does not take those of
// channel A.
fn equation_seat(alloc: Global, app: &App, sizes: &Sizes) -> Result<Seat<EquationChannel>, Memory>
    requires accepted { Accepted app.now }
    requires sizes { AreSizesOf app.now sizes.now }
    ensures { IfOk result (λ seat. seat ≡ new_seat workings_b sizes.now (code_b app.now) (turns_b app.now)) }
{
    let own_sizes = equation_sizes(alloc, app)?;
    let image = equation_image(alloc, app)?;
    let budget = app.turns_b();
    Seat::build(alloc, image, &own_sizes, budget)
}

// Compares the report of channel A with that of channel B, which is read into a blank one.
fn judge_by(report: &Report, b: &Seat<EquationChannel>, other: &mut Report) -> Verdict
    requires blank { other.old ≡ blank_report b.now.sizes.outputs b.now.sizes.instances }
    requires outs { length report.now.outs ≡ b.now.sizes.outputs }
    requires diags { length report.now.diags ≡ b.now.sizes.instances }
    requires few { b.now.sizes.outputs + 3 * b.now.sizes.instances ≤ 2 ^ 16 }
    ensures verdict { result ≡ judged (gives report.now) (outcome (machine_in workings_b b.now) b.now.channel.cells) }
    ensures outs { length other.new.outs ≡ length other.old.outs }
    ensures diags { length other.new.diags ≡ length other.old.diags }
{
    if let Err(failing) = b.outcome_into(other) {
        return Verdict::Tripped(cause_of_failing(Channel::B, failing));
    }
    match report.first_difference(other) {
        None => Verdict::Released,
        Some(field) => Verdict::Tripped(Cause::Differ(field)),
    }
}

impl World {
    /// The world of an application at the beginning: both compilers' code, which it keeps outside every region,
    /// blank cells, no scan begun and not tripped.
    pub fn build(alloc: Global, app: &App) -> Result<World, Memory>
        requires { Accepted app.now }
        ensures { IfOk result (λ world. IsWorldOf app.now world) }
    {
        let sizes = Sizes::of(alloc, app)?;
        let a = stack_seat(alloc, app, &sizes)?;
        let b = equation_seat(alloc, app, &sizes)?;
        let other = Report::for_app(alloc, app)?;
        app.sound();
        Ok(World::from_seats(a, b, other))
    }

    // The world of two seats of one application, of which no scan is begun.
    fn from_seats(a: Seat<StackChannel>, b: Seat<EquationChannel>, other: Report) -> World
        requires sizes { b.sizes ≡ a.sizes }
        requires few { a.sizes.outputs + 3 * a.sizes.instances ≤ 2 ^ 16 }
        requires outs { length other.outs ≡ a.sizes.outputs }
        requires diags { length other.diags ≡ a.sizes.instances }
        ensures { result ≡ whole_of a b }
    {
        World {
            a,
            b,
            last: 0,
            begun: false,
            tripped: false,
            other,
        }
    }

    /// The lengths of the code and the cells of both channels, in bytes.
    pub fn sizes(&self) -> ImageSizes
        ensures { result ≡ record { a_code = length self.now.state.a.code; a_cells = length self.now.state.a.cells; b_code = length self.now.state.b.code; b_cells = length self.now.state.b.cells } }
    {
        ImageSizes {
            a_code: self.a.region_len(Region::Code),
            a_cells: self.a.region_len(Region::Cells),
            b_code: self.b.region_len(Region::Code),
            b_cells: self.b.region_len(Region::Cells),
        }
    }

    /// Whether the world is tripped.
    pub fn is_tripped(&self) -> bool
        ensures { result ≡ self.now.state.tripped }
    {
        self.tripped
    }

    /// Whether a scan is begun.
    pub fn scan_begun(&self) -> bool
        ensures { result ≡ self.now.state.begun }
    {
        self.begun
    }

    /// Begins a scan in both channels.
    pub fn begin(&mut self, scan: &Scan)
        requires rest { self.old.state.begun ≡ false }
        requires up { self.old.state.tripped ≡ false }
        requires later { self.old.state.last ≤ scan.now.now }
        requires inputs { length scan.now.ins ≡ self.old.setup.sizes.inputs }
        ensures { self.new ≡ happened (Begin scan.entry.now.now scan.entry.now.ins) self.old }
    {
        self.a.begin(scan);
        self.b.begin(scan);
        self.last = scan.now;
        self.begun = true;
    }

    /// Whether a channel has ended: its progress is not Running, or it has spent its budget of turns.
    pub fn ended(&self, of: Channel) -> bool
        ensures { result ≡ ended (machine of (machines_in self.now.setup)) (channel of self.now.state) }
    {
        match of {
            Channel::A => self.a.ended(),
            Channel::B => self.b.ended(),
        }
    }

    /// One turn of a channel.
    pub fn turn(&mut self, of: Channel)
        requires begun { self.old.state.begun ≡ true }
        requires goes { ended (machine of (machines_in self.old.setup)) (channel of self.old.state) ≡ false }
        ensures { self.new ≡ happened (Turn of) self.old }
    {
        match of {
            Channel::A => self.a.turn(),
            Channel::B => self.b.turn(),
        }
    }

    /// Replaces bytes of a channel's region, at any moment. OutOfRegion comes exactly where they would
    /// pass the region's end, and then nothing changed.
    pub fn spoil(
        &mut self,
        of: Channel,
        region: Region,
        at: u32,
        bytes: &[u8],
    ) -> Result<(), OutOfRegion>
        ensures bytes { self.new ≡ happened (Spoil of region at bytes.now) self.old }
        ensures refused { is_err result ≡ nat_lt (length (region_in of region self.old)) (at + length bytes.now) }
    {
        match of {
            Channel::A => self.a.spoil(region, at, bytes),
            Channel::B => self.b.spoil(region, at, bytes),
        }
    }

    /// Closes the scan, or answers Down in a tripped world. `into`, a report of the application's sizes, becomes the
    /// report that is released, and one with every output, Ready and Error FALSE and every code 0 with Tripped and
    /// Down.
    pub fn compare(&mut self, into: &mut Report) -> Verdict
        requires closes { (self.old.state.tripped || (self.old.state.begun && both_ended (machines_in self.old.setup) self.old.state)) ≡ true }
        requires outs { length into.old.outs ≡ self.old.setup.sizes.outputs }
        requires diags { length into.old.diags ≡ self.old.setup.sizes.instances }
        ensures event { self.new ≡ happened Compare self.old }
        ensures verdict { result ≡ verdict (machines_in self.old.setup) self.old.state }
        ensures report { into.new ≡ report_given (machines_in self.old.setup) self.old.setup.sizes.outputs self.old.setup.sizes.instances self.old.state }
        ensures sized { (length into.new.outs ≡ length into.old.outs) × (length into.new.diags ≡ length into.old.diags) }
    {
        self.begun = false;
        let verdict = if self.tripped {
            Verdict::Down
        } else {
            self.judge(into)
        };
        if verdict != Verdict::Released {
            self.tripped = true;
            into.clear();
        }
        verdict
    }

    // Compares the reports of the two channels, of which that of A is left in `into`. Both are read into blank reports,
    // so that nothing of an earlier scan is compared or released.
    fn judge(&mut self, into: &mut Report) -> Verdict
        requires outs { length into.old.outs ≡ self.old.setup.sizes.outputs }
        requires diags { length into.old.diags ≡ self.old.setup.sizes.instances }
        ensures same { self.new ≡ self.old }
        ensures verdict { result ≡ judged (outcome (machines_in self.old.setup).a self.old.state.a.cells) (outcome (machines_in self.old.setup).b self.old.state.b.cells) }
        ensures report { result ≡ Verdict.Released → outcome (machines_in self.old.setup).a self.old.state.a.cells ≡ gives into.new }
        ensures outs { length into.new.outs ≡ length into.old.outs }
        ensures diags { length into.new.diags ≡ length into.old.diags }
    {
        into.clear();
        self.other.clear();
        if let Err(failing) = self.a.outcome_into(into) {
            return Verdict::Tripped(cause_of_failing(Channel::A, failing));
        }
        judge_by(into, &self.b, &mut self.other)
    }

    /// The value of a field in the report that the cells of a channel hold: 0 or 1 of a Boolean, or a code. Fields are
    /// numbered as those of `Cause::Differ`. None comes exactly where the channel has no report, or a report no such
    /// field. The world stays as it is. It takes no memory.
    pub fn field_value(&mut self, of: Channel, field: u16) -> Option<u16>
        ensures same { self.new ≡ self.old }
        ensures value { result ≡ field_in field (outcome (machine of (machines_in self.old.setup)) (channel of self.old.state).cells) }
    {
        match of {
            Channel::A => value_given(&self.a, &mut self.other, field),
            Channel::B => value_given(&self.b, &mut self.other, field),
        }
    }

    /// Both channels begin anew, from code as compiled and blank cells.
    pub fn restart(&mut self)
        requires { self.old.state.begun ≡ false }
        ensures { self.new ≡ happened Restart self.old }
    {
        self.a.restart();
        self.b.restart();
        self.begun = false;
        self.tripped = false;
    }

    /// Becomes what another world of the same application is. It takes no memory.
    pub fn copy_from(&mut self, other: &World)
        requires { self.old.setup ≡ other.now.setup }
        ensures { self.new ≡ other.now }
    {
        self.a.copy_from(&other.a);
        self.b.copy_from(&other.b);
        self.last = other.last;
        self.begun = other.begun;
        self.tripped = other.tripped;
    }

    /// True only where this is what another world of the same application is: code, cells and turns of both channels, and
    /// where the scan stands.
    pub fn is_twin_of(&self, other: &World) -> bool
        requires { self.now.setup ≡ other.now.setup }
        ensures { result ≡ true → self.now ≡ other.now }
    {
        self.last == other.last
            && self.begun == other.begun
            && self.tripped == other.tripped
            && self.a.is_twin_of(&other.a)
            && self.b.is_twin_of(&other.b)
    }

    /// Makes a scan by the order of events of a run, where `faults` are those of the scan in the order of the fault
    /// file: the Spoils before it, Begin, turns of A and B in turn with the Spoils before each, and Compare. In a
    /// tripped world it is Compare alone. Verdict and report are those of the Compare. It takes no memory.
    pub fn make_scan(&mut self, scan: &Scan, faults: &[Fault], into: &mut Report) -> Verdict
        requires rest { self.old.state.begun ≡ false }
        requires later { self.old.state.last ≤ scan.now.now }
        requires inputs { length scan.now.ins ≡ self.old.setup.sizes.inputs }
        requires outs { length into.old.outs ≡ self.old.setup.sizes.outputs }
        requires diags { length into.old.diags ≡ self.old.setup.sizes.instances }
        ensures events { self.new ≡ after_events (scan_events (machines_in self.old.setup) faults.now scan.entry.now.now scan.entry.now.ins self.old.state) self.old }
        ensures verdict { result ≡ verdict (machines_in self.old.setup) (at_compare (machines_in self.old.setup) faults.now scan.entry.now.now scan.entry.now.ins self.old.state) }
        ensures report { into.new ≡ report_given (machines_in self.old.setup) self.old.setup.sizes.outputs self.old.setup.sizes.instances (at_compare (machines_in self.old.setup) faults.now scan.entry.now.now scan.entry.now.ins self.old.state) }
        ensures rest { self.new.state.begun ≡ false }
        ensures last { self.new.state.last ≤ scan.entry.now.now }
        ensures sized { (length into.new.outs ≡ length into.old.outs) × (length into.new.diags ≡ length into.old.diags) }
    {
        self.run_scan(scan, faults);
        self.compare(into)
    }

    // A scan up to its Compare. In a tripped world nothing comes before that.
    fn run_scan(&mut self, scan: &Scan, faults: &[Fault])
        requires rest { self.old.state.begun ≡ false }
        requires later { self.old.state.last ≤ scan.now.now }
        requires inputs { length scan.now.ins ≡ self.old.setup.sizes.inputs }
        ensures events { self.new ≡ after_events (events_before_compare (machines_in self.old.setup) faults.now scan.entry.now.now scan.entry.now.ins self.old.state) self.old }
        ensures closes { (self.new.state.tripped || (self.new.state.begun && both_ended (machines_in self.old.setup) self.new.state)) ≡ true }
    {
        if self.tripped {
            return;
        }
        if faults.is_empty() {
            self.run_quietly(scan);
        } else {
            self.run_struck(scan, faults);
        }
    }

    // A scan without a fault: the channels run one after the other, which leads to the world of turns one by one.
    fn run_quietly(&mut self, scan: &Scan)
        requires rest { self.old.state.begun ≡ false }
        requires up { self.old.state.tripped ≡ false }
        requires later { self.old.state.last ≤ scan.now.now }
        requires inputs { length scan.now.ins ≡ self.old.setup.sizes.inputs }
        ensures events { self.new ≡ after_events (events_before_compare (machines_in self.old.setup) [] scan.entry.now.now scan.entry.now.ins self.old.state) self.old }
        ensures begun { self.new.state.begun ≡ true }
        ensures over { both_ended (machines_in self.old.setup) self.new.state ≡ true }
    {
        self.begin(scan);
        self.finish_both();
    }

    // A scan that these faults may strike.
    fn run_struck(&mut self, scan: &Scan, faults: &[Fault])
        requires rest { self.old.state.begun ≡ false }
        requires up { self.old.state.tripped ≡ false }
        requires later { self.old.state.last ≤ scan.now.now }
        requires inputs { length scan.now.ins ≡ self.old.setup.sizes.inputs }
        ensures events { self.new ≡ after_events (events_before_compare (machines_in self.old.setup) faults.now scan.entry.now.now scan.entry.now.ins self.old.state) self.old }
        ensures begun { self.new.state.begun ≡ true }
        ensures over { both_ended (machines_in self.old.setup) self.new.state ≡ true }
    {
        self.strike(faults, 0);
        self.begin(scan);
        self.take_turns(faults);
    }

    // The turns of a scan that is begun and that nothing strikes.
    fn finish_both(&mut self)
        requires begun { self.old.state.begun ≡ true }
        requires none_a { self.old.state.a.turns ≡ 0 }
        requires none_b { self.old.state.b.turns ≡ 0 }
        ensures events { self.new ≡ after_events (turn_events (machines_in self.old.setup) [] (self.old.setup.budget_a + self.old.setup.budget_b) 0 None self.old.state) self.old }
        ensures begun { self.new.state.begun ≡ true }
        ensures over { both_ended (machines_in self.old.setup) self.new.state ≡ true }
    {
        self.a.finish();
        self.b.finish();
    }

    // The Spoils of these faults that come before a turn. One out of its region changes nothing.
    fn strike(&mut self, faults: &[Fault], turn: u64)
        ensures { self.new ≡ after_events (spoils_before turn faults.now) self.old }
    {
        for fault in faults {
            if u64::from(fault.turn) == turn {
                let _changed = self.spoil(
                    fault.channel,
                    fault.region,
                    fault.at,
                    fault.bytes.as_slice(),
                );
            }
        }
    }

    // The channel that has the next turn, and None exactly where both have ended.
    fn next_turn(&self, last: Option<Channel>) -> Option<Channel>
        ensures some { IfSome result (λ of. (of ≡ next_turn (machines_in self.now.setup) last self.now.state) × (ended (machine of (machines_in self.now.setup)) (channel of self.now.state) ≡ false) × (both_ended (machines_in self.now.setup) self.now.state ≡ false)) }
        ensures none { IfNone result (both_ended (machines_in self.now.setup) self.now.state ≡ true) }
    {
        let (first, second) = match last {
            Some(Channel::A) => (Channel::B, Channel::A),
            _ => (Channel::A, Channel::B),
        };
        if !self.ended(first) {
            Some(first)
        } else if !self.ended(second) {
            Some(second)
        } else {
            None
        }
    }

    // The turns of a scan that is begun, with the Spoils before each, until both channels have ended.
    fn take_turns(&mut self, faults: &[Fault])
        requires begun { self.old.state.begun ≡ true }
        requires none_a { self.old.state.a.turns ≡ 0 }
        requires none_b { self.old.state.b.turns ≡ 0 }
        ensures events { self.new ≡ after_events (turn_events (machines_in self.old.setup) faults.now (self.old.setup.budget_a + self.old.setup.budget_b) 0 None self.old.state) self.old }
        ensures begun { self.new.state.begun ≡ true }
        ensures over { both_ended (machines_in self.old.setup) self.new.state ≡ true }
    {
        let most = u64::from(self.a.budget()) + u64::from(self.b.budget());
        let mut last = None;
        for done in 0..most {
            self.strike(faults, done + 1);
            match self.next_turn(last) {
                None => return,
                Some(of) => {
                    self.turn(of);
                    last = Some(of);
                }
            }
        }
        self.strike(faults, most + 1);
    }
}
