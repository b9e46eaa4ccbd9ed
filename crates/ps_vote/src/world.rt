// The world of three seats, event by event.

ghost use Rattle.std.specs.Prelude.{◌≡◌, ◌≤◌, ◌<◌, ◌^◌, ◌&&◌, ◌+◌, ◌*◌, Bool, false, true, is_err, length, nat_lt};
ghost use Rattle.std.specs.Prelude.{IfOk, None, Some, [], ◌∷◌};
ghost use Rattle.ps_model.specs.Typing.{Accepted};
ghost use Rattle.ps_machine.specs.Channels.{ended};
ghost use Rattle.ps_machine.specs.Seats.{machine_in, new_seat};
ghost use Rattle.ps_vote.specs.Worlds.{machine, channel, mark, is_another_dirty};
ghost use Rattle.ps_vote.specs.Orders.{turns, most_turns};
ghost use Rattle.ps_vote.specs.Worlds.Event.{Begin, Turn, Spoil, TakeVote, Restart, Heal};
ghost use Rattle.ps_vote.specs.Steps.{all_ended, region_in};
ghost use Rattle.ps_vote.specs.Votes.{vote, vote_of, report_in, report_given, agree, shown, HasRoom};
ghost use Rattle.ps_vote.specs.Whole.{machines_in, happened, after_events, with_rebuilt, IsWorldOf};
ghost use Rattle.ps_model.specs.Budgets.{turns_a, turns_b};
ghost use Rattle.ps_model.specs.Network.{instance_count};
ghost use Rattle.ps_model.specs.Sized.{AreSizesOf};
ghost use Rattle.ps_stackvm.specs.Channel.{workings_a};
ghost use Rattle.ps_stackvm.specs.Code.{code_a};
ghost use Rattle.ps_eqvm.specs.Channel.{workings_b};
ghost use Rattle.ps_eqvm.specs.Code.{code_b};
ghost use Rattle.ps_decision.specs.Budget.{turns_c};
ghost use Rattle.ps_decision.specs.Channel.{workings_c};
ghost use Rattle.ps_decision.specs.Code.{code_c};

use crate::limits::limits;
use crate::seat::{DirtySeats, Seat, Vote, VoteSizes};
use ps_base::Memory;
use ps_decision::{DecisionChannel, decision_image, turns_c};
use ps_eqgen::{equation_image, equation_sizes};
use ps_eqvm::EquationChannel;
use ps_machine::ScanMachine;
use ps_model::{App, OutOfRegion, Region, Report, Scan, Sizes};
use ps_stackgen::stack_image;
use ps_stackvm::StackChannel;
use std::alloc::Global;
use std::marker::Model;

/// Three channels of one application, which make its scans event by event, and whose reports are voted on two out of
/// three. A seat that was outvoted takes part again, and can be rebuilt from another. Contracts see it as a `Whole`.
/// Only `build` takes memory.
pub struct VoteWorld {
    a: ps_machine::Seat<StackChannel>,
    b: ps_machine::Seat<EquationChannel>,
    c: ps_machine::Seat<DecisionChannel>,
    limits: Vec<u32>,
    dirty: DirtySeats,
    last: u32,
    begun: bool,
    outvoted: Option<Seat>,
    room: Room,
}

impl Drop for VoteWorld {
    // One call for whoever owns one, in place of a walk through all that it holds.
    fn drop(self) {
        let VoteWorld {
            a: _,
            b: _,
            c: _,
            limits: _,
            dirty: _,
            last: _,
            begun: _,
            outvoted: _,
            room: _,
        } = self;
    }
}

// Room for work, which is no part of what a world is.
#[derive(Drop)]
struct Room {
    second: Report,
    third: Report,
    bytes: Vec<u8>,
}

impl Model for VoteWorld {
    ghost use Rattle.std.specs.Prelude.{◌≡◌, ◌≤◌, ◌+◌, ◌*◌, ◌^◌, length};
    ghost use Rattle.ps_vote.specs.Votes.{HasRoom};
    ghost use Rattle.ps_vote.specs.Whole.{Whole};

    ghost Value = { Whole };

    ghost view = { λ w. record {
      setup = record {
        sizes = w.a.sizes;
        limits = w.limits.items;
        image_a = w.a.image;
        image_b = w.b.image;
        image_c = w.c.image;
        budget_a = w.a.budget;
        budget_b = w.b.budget;
        budget_c = w.c.budget;
      };
      state = record { a = w.a.channel; b = w.b.channel; c = w.c.channel; dirty = w.dirty; last = w.last; begun = w.begun; outvoted = w.outvoted };
    } };

    ghost invariant = { λ w. (w.b.sizes ≡ w.a.sizes) × (w.c.sizes ≡ w.a.sizes) × (w.a.sizes.outputs + 3 * w.a.sizes.instances ≤ 2 ^ 16)
        × HasRoom w.a.sizes.outputs w.a.sizes.instances w.room.second w.room.third
        × (length w.limits.items ≡ w.a.sizes.instances) × (length w.room.bytes.items ≡ w.a.sizes.signals + 16 * w.a.sizes.instances) };
}

// Writes the report of a seat that has ended into one of the application's sizes, which is made blank before, so that
// nothing of an earlier scan takes part in a vote; false where it has none.
fn report_into<C: ScanMachine>(seat: &ps_machine::Seat<C>, into: &mut Report) -> bool
    requires outs { length into.old.outs ≡ seat.now.sizes.outputs }
    requires diags { length into.old.diags ≡ seat.now.sizes.instances }
    ensures report { report_in (machine_in C.workings seat.now) seat.now.channel.cells ≡ shown result into.new }
    ensures sized { (length into.new.outs ≡ length into.old.outs) × (length into.new.diags ≡ length into.old.diags) }
{
    into.clear();
    seat.outcome_into(into).is_ok()
}

// Whether two seats have equal reports, of which each may be none.
fn agree(has: bool, report: &Report, has_other: bool, other: &Report) -> bool
    requires outs { length report.now.outs ≡ length other.now.outs }
    requires diags { length report.now.diags ≡ length other.now.diags }
    requires few { length report.now.outs + 3 * length report.now.diags ≤ 2 ^ 16 }
    ensures { result ≡ agree (shown has report.now) (shown has_other other.now) }
{
    has && has_other && report.first_difference(other).is_none()
}

// What a vote answers of the reports of the three seats, of which each may be none.
fn vote_of(has_a: bool, a: &Report, has_b: bool, b: &Report, has_c: bool, c: &Report) -> Vote
    requires outs_b { length a.now.outs ≡ length b.now.outs }
    requires diags_b { length a.now.diags ≡ length b.now.diags }
    requires outs_c { length a.now.outs ≡ length c.now.outs }
    requires diags_c { length a.now.diags ≡ length c.now.diags }
    requires few { length a.now.outs + 3 * length a.now.diags ≤ 2 ^ 16 }
    ensures { result ≡ vote_of (shown has_a a.now) (shown has_b b.now) (shown has_c c.now) }
{
    if agree(has_a, a, has_b, b) {
        if agree(has_a, a, has_c, c) {
            Vote::All
        } else {
            Vote::Two(Seat::C)
        }
    } else if agree(has_a, a, has_c, c) {
        Vote::Two(Seat::B)
    } else if agree(has_b, b, has_c, c) {
        Vote::Two(Seat::A)
    } else {
        Vote::Split
    }
}

// Seat A of an application, with its stack code.
fn stack_seat(
    alloc: Global,
    app: &App,
    sizes: &Sizes,
) -> Result<ps_machine::Seat<StackChannel>, Memory>
    requires { Accepted app.now }
    ensures { IfOk result (λ seat. seat ≡ new_seat workings_a sizes.now (code_a app.now) (turns_a app.now)) }
{
    ps_machine::Seat::build(alloc, stack_image(alloc, app)?, sizes, app.turns_a())
}

// Seat B of an application of these sizes, with its equation code. They are counted for it anew: it does not take those
// of the other seats.
fn equation_seat(
    alloc: Global,
    app: &App,
    sizes: &Sizes,
) -> Result<ps_machine::Seat<EquationChannel>, Memory>
    requires accepted { Accepted app.now }
    requires sizes { AreSizesOf app.now sizes.now }
    ensures { IfOk result (λ seat. seat ≡ new_seat workings_b sizes.now (code_b app.now) (turns_b app.now)) }
{
    let own_sizes = equation_sizes(alloc, app)?;
    let image = equation_image(alloc, app)?;
    let budget = app.turns_b();
    ps_machine::Seat::build(alloc, image, &own_sizes, budget)
}

// Seat C of an application, with its decision code.
fn decision_seat(
    alloc: Global,
    app: &App,
    sizes: &Sizes,
) -> Result<ps_machine::Seat<DecisionChannel>, Memory>
    requires { Accepted app.now }
    ensures { IfOk result (λ seat. seat ≡ new_seat workings_c sizes.now (code_c app.now) (turns_c app.now)) }
{
    ps_machine::Seat::build(alloc, decision_image(alloc, app)?, sizes, turns_c(app))
}

// Room for the reports of channels B and C, and for the bytes of the signals and instances of a seat that is rebuilt.
fn make_room(alloc: Global, app: &App, sizes: &Sizes) -> Result<Room, Memory>
    ensures { IfOk result (λ room. HasRoom (length app.now.outputs) (instance_count app.now) room.second room.third × (length room.bytes.items ≡ sizes.now.signals + 16 * sizes.now.instances)) }
{
    let signals = sizes.signals as usize;
    let instances = sizes.instances as usize;
    let second = Report::for_app(alloc, app)?;
    let third = Report::for_app(alloc, app)?;
    let bytes = vec![in alloc; 0; signals + 16 * instances]?;
    Ok(Room {
        second,
        third,
        bytes,
    })
}

// A report has few fields.
fn few_fields(app: &App)
    ensures { length app.now.outputs + 3 * instance_count app.now ≤ 2 ^ 16 }
{
    app.sound();
}

impl VoteWorld {
    /// The world of an application at the beginning: the code of the three compilers, which it keeps outside every
    /// region, blank cells, no scan begun, no seat dirty and none outvoted. It takes the memory for all that is kept.
    pub fn build(alloc: Global, app: &App) -> Result<VoteWorld, Memory>
        requires { Accepted app.now }
        ensures { IfOk result (λ world. IsWorldOf app.now world) }
    {
        let sizes = Sizes::of(alloc, app)?;
        let a = stack_seat(alloc, app, &sizes)?;
        let b = equation_seat(alloc, app, &sizes)?;
        let c = decision_seat(alloc, app, &sizes)?;
        let limits = limits(alloc, app)?;
        let room = make_room(alloc, app, &sizes)?;
        few_fields(app);
        Ok(VoteWorld {
            a,
            b,
            c,
            limits,
            dirty: DirtySeats::NONE,
            last: 0,
            begun: false,
            outvoted: None,
            room,
        })
    }

    /// The lengths of the code and the cells of the seats, in bytes.
    pub fn sizes(&self) -> VoteSizes
        ensures { result ≡ record { code = length self.now.state.a.code ∷ length self.now.state.b.code ∷ length self.now.state.c.code ∷ []; cells = length self.now.state.a.cells ∷ length self.now.state.b.cells ∷ length self.now.state.c.cells ∷ [] } }
    {
        VoteSizes {
            code: [
                self.a.region_len(Region::Code),
                self.b.region_len(Region::Code),
                self.c.region_len(Region::Code),
            ],
            cells: [
                self.a.region_len(Region::Cells),
                self.b.region_len(Region::Cells),
                self.c.region_len(Region::Cells),
            ],
        }
    }

    /// Begins a scan in all seats. None is outvoted then.
    pub fn begin(&mut self, scan: &Scan)
        requires rest { self.old.state.begun ≡ false }
        requires later { self.old.state.last ≤ scan.now.now }
        requires inputs { length scan.now.ins ≡ self.old.setup.sizes.inputs }
        ensures { self.new ≡ happened (Begin scan.entry.now.now scan.entry.now.ins) self.old }
    {
        self.a.begin(scan);
        self.b.begin(scan);
        self.c.begin(scan);
        self.last = scan.now;
        self.outvoted = None;
        self.begun = true;
    }

    /// Whether a seat has ended: its progress is not Running, or it has spent its budget of turns.
    pub fn ended(&self, seat: Seat) -> bool
        ensures { result ≡ ended (machine seat (machines_in self.now.setup)) (channel seat self.now.state) }
    {
        match seat {
            Seat::A => self.a.ended(),
            Seat::B => self.b.ended(),
            Seat::C => self.c.ended(),
        }
    }

    /// One turn of a seat.
    pub fn turn(&mut self, seat: Seat)
        requires begun { self.old.state.begun ≡ true }
        requires goes { ended (machine seat (machines_in self.old.setup)) (channel seat self.old.state) ≡ false }
        ensures { self.new ≡ happened (Turn seat) self.old }
    {
        match seat {
            Seat::A => self.a.turn(),
            Seat::B => self.b.turn(),
            Seat::C => self.c.turn(),
        }
    }

    // The turns of a scan that is begun and that nothing strikes: the seats run one after the other, which leads to the
    // world of turns one by one.
    pub(crate) fn finish_all(&mut self)
        requires none_a { self.old.state.a.turns ≡ 0 }
        requires none_b { self.old.state.b.turns ≡ 0 }
        requires none_c { self.old.state.c.turns ≡ 0 }
        ensures events { (heals : Bool) → self.new ≡ after_events (turns heals (machines_in self.old.setup) [] (most_turns (machines_in self.old.setup)) 0 None self.old.state).events self.old }
        ensures goes { (heals : Bool) → (turns heals (machines_in self.old.setup) [] (most_turns (machines_in self.old.setup)) 0 None self.old.state).refused ≡ None }
    {
        self.a.finish();
        self.b.finish();
        self.c.finish();
    }

    /// All seats begin anew, from code as compiled and blank cells. None is dirty and none outvoted then.
    pub fn restart(&mut self)
        requires { self.old.state.begun ≡ false }
        ensures { self.new ≡ happened Restart self.old }
    {
        self.a.restart();
        self.b.restart();
        self.c.restart();
        self.begun = false;
        self.dirty = DirtySeats::NONE;
        self.outvoted = None;
    }

    /// Replaces bytes of a seat's region, at any moment, and the seat is dirty then. OutOfRegion comes exactly where
    /// they would pass the region's end, and then nothing changed.
    pub fn spoil(
        &mut self,
        seat: Seat,
        region: Region,
        at: u32,
        bytes: &[u8],
    ) -> Result<(), OutOfRegion>
        ensures event { self.new ≡ happened (Spoil seat region at bytes.now) self.old }
        ensures refused { is_err result ≡ nat_lt (length (region_in region (channel seat self.old.state))) (at + length bytes.now) }
    {
        match seat {
            Seat::A => self.a.spoil(region, at, bytes)?,
            Seat::B => self.b.spoil(region, at, bytes)?,
            Seat::C => self.c.spoil(region, at, bytes)?,
        }
        self.dirty = self.dirty.with(seat, true);
        Ok(())
    }

    /// Closes the scan. `into`, a report of the application's sizes, becomes the shared report, and one with every
    /// output, Ready and Error FALSE and every code 0 where no two reports are equal.
    pub fn vote(&mut self, into: &mut Report) -> Vote
        requires begun { self.old.state.begun ≡ true }
        requires over { all_ended (machines_in self.old.setup) self.old.state ≡ true }
        requires outs { length into.old.outs ≡ self.old.setup.sizes.outputs }
        requires diags { length into.old.diags ≡ self.old.setup.sizes.instances }
        ensures event { self.new ≡ happened TakeVote self.old }
        ensures vote { result ≡ vote (machines_in self.old.setup) self.old.state }
        ensures report { into.new ≡ report_given (machines_in self.old.setup) self.old.setup.sizes.outputs self.old.setup.sizes.instances self.old.state }
        ensures sized { (length into.new.outs ≡ length into.old.outs) × (length into.new.diags ≡ length into.old.diags) }
    {
        let vote = self.judge(into);
        self.begun = false;
        self.outvoted = match vote {
            Vote::Two(seat) => Some(seat),
            Vote::All | Vote::Split => None,
        };
        vote
    }

    // What a vote answers, with its report in `into`.
    fn judge(&mut self, into: &mut Report) -> Vote
        requires outs { length into.old.outs ≡ self.old.setup.sizes.outputs }
        requires diags { length into.old.diags ≡ self.old.setup.sizes.instances }
        ensures same { self.new ≡ self.old }
        ensures vote { result ≡ vote (machines_in self.old.setup) self.old.state }
        ensures report { into.new ≡ report_given (machines_in self.old.setup) self.old.setup.sizes.outputs self.old.setup.sizes.instances self.old.state }
        ensures sized { (length into.new.outs ≡ length into.old.outs) × (length into.new.diags ≡ length into.old.diags) }
    {
        let a = report_into(&self.a, into);
        let b = report_into(&self.b, &mut self.room.second);
        let c = report_into(&self.c, &mut self.room.third);
        let vote = vote_of(a, into, b, &self.room.second, c, &self.room.third);
        match vote {
            Vote::All | Vote::Two(Seat::B | Seat::C) => {}
            Vote::Two(Seat::A) => {
                let _read = report_into(&self.b, into);
            }
            Vote::Split => into.clear(),
        }
        vote
    }

    /// The seat that the last vote outvoted: None where no vote came, it was not Two, or a Begin, Restart or Heal came
    /// since.
    pub fn outvoted(&self) -> Option<Seat>
        ensures { result ≡ self.now.state.outvoted }
    {
        self.outvoted
    }

    /// Whether a Spoil in region named the seat since the latest of the beginning, the last Restart and its own last
    /// Heal.
    pub fn is_dirty(&self, seat: Seat) -> bool
        ensures { result ≡ mark seat self.now.state.dirty }
    {
        self.dirty.has(seat)
    }

    // Whether another seat is dirty.
    pub(crate) fn is_another_dirty(&self, seat: Seat) -> bool
        ensures { result ≡ is_another_dirty seat self.now.state.dirty }
    {
        self.dirty.has_another(seat)
    }

    // The most turns of a scan, over all seats.
    pub(crate) fn most_turns(&self) -> u64
        ensures sum { result ≡ most_turns (machines_in self.now.setup) }
        ensures few { result < 2 ^ 34 }
    {
        u64::from(self.a.budget()) + u64::from(self.b.budget()) + u64::from(self.c.budget())
    }

    /// Rebuilds the outvoted seat from another on its bytes as they are: seat A from C, and the others from A. It is
    /// not dirty then, and none is outvoted.
    pub fn heal(&mut self, seat: Seat)
        requires { self.old.state.outvoted ≡ Some seat }
        ensures { self.new ≡ happened (Heal seat) self.old }
    {
        match seat {
            Seat::A => self.rebuild_a(),
            Seat::B => self.rebuild_b(),
            Seat::C => self.rebuild_c(),
        }
        self.dirty = self.dirty.with(seat, false);
        self.outvoted = None;
    }

    // Rebuilds seat A from seat C.
    fn rebuild_a(&mut self)
        ensures { self.new ≡ with_rebuilt Seat.A self.old }
    {
        self.c.channel().carry_into(&mut self.room.bytes);
        self.a
            .restore(&self.limits, self.last, &mut self.room.bytes);
    }

    // Rebuilds seat B from seat A.
    fn rebuild_b(&mut self)
        ensures { self.new ≡ with_rebuilt Seat.B self.old }
    {
        self.a.channel().carry_into(&mut self.room.bytes);
        self.b
            .restore(&self.limits, self.last, &mut self.room.bytes);
    }

    // Rebuilds seat C from seat A.
    fn rebuild_c(&mut self)
        ensures { self.new ≡ with_rebuilt Seat.C self.old }
    {
        self.a.channel().carry_into(&mut self.room.bytes);
        self.c
            .restore(&self.limits, self.last, &mut self.room.bytes);
    }
}
