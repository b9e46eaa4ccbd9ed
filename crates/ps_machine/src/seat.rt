// A machine with the code as compiled, its turn count and its budget.

ghost use Rattle.std.specs.Prelude.{◌≡◌, ◌≤◌, ◌+◌, ◌*◌, false, true, IfOk, IfErr, OnOk, OnErr, is_err, length, nat_lt};
ghost use Rattle.ps_model.specs.Fields.{blank_report};
ghost use Rattle.ps_machine.specs.Channels.{ended};
ghost use Rattle.ps_machine.specs.Channels.Own.{begins, makes_turn, struck, restarts, is_remade};
ghost use Rattle.ps_machine.specs.StoredChannel.{region_of};
ghost use Rattle.ps_machine.specs.Seats.{machine_in, meeting, new_seat, stored_in, AreOfOne, Finishes};
ghost use Rattle.ps_machine.specs.Outcomes.{outcome};
ghost use Rattle.ps_machine.specs.Outcomes.Outcome.{gives, lacks};

use crate::{CodeImage, ScanMachine, TwinMachine};
use ps_base::Memory;
use ps_model::{OutOfRegion, Progress, Region, Report, Scan, Sizes};
use std::alloc::Global;
use std::marker::Model;

/// Why a channel that has ended has no report: it trapped with this number, it spent its budget while
/// Running, or its cells hold no Boolean report. They are looked for in this order.
#[derive(Clone, Copy)]
pub enum Failing {
    Trap(u8),
    Stuck,
    NoReport,
}

/// A channel with its code as compiled, the number of turns that it has made in its scan, and the most
/// that it may make. Contracts see it as a `Seat_state`. Only `build` takes memory.
pub struct Seat<C: ScanMachine> {
    channel: C,
    image: CodeImage,
    turns: u32,
    budget: u32,
}

impl<C: ScanMachine> Drop for Seat<C> {
    // One call for whoever owns one, in place of a walk through all that it holds.
    fn drop(self) {
        let Seat {
            channel: _,
            image: _,
            turns: _,
            budget: _,
        } = self;
    }
}

impl<C: ScanMachine> Model for Seat<C> {
    ghost use Rattle.std.specs.Prelude.{◌≡◌, ◌≤◌, length};
    ghost use Rattle.ps_machine.specs.Seats.{Seat_state};

    ghost Value = { Seat_state };

    ghost view = { λ s. record {
      sizes = (C.stored s.channel).sizes;
      image = s.image;
      budget = s.budget;
      channel = record { code = (C.stored s.channel).code; cells = (C.stored s.channel).cells; turns = s.turns };
    } };

    ghost invariant = { λ s. (s.turns ≤ s.budget) × (length (C.stored s.channel).code ≡ length s.image) };
}

impl<C: ScanMachine> Seat<C> {
    /// A seat for an application of these sizes, with this code and this budget of turns.
    pub fn build(
        alloc: Global,
        image: CodeImage,
        sizes: &Sizes,
        budget: u32,
    ) -> Result<Seat<C>, Memory>
        ensures { IfOk result (λ seat. seat ≡ new_seat C.workings sizes.now image budget) }
    {
        let channel = C::new(alloc, &image, sizes)?;
        Ok(Seat {
            channel,
            image,
            turns: 0,
            budget,
        })
    }

    /// The channel as it is.
    pub fn channel(&self) -> &C
        ensures { C.stored result.now ≡ stored_in self.now }
    {
        &self.channel
    }

    /// The length of a region in bytes.
    pub fn region_len(&self, region: Region) -> u32
        ensures { result ≡ length (region_of region (stored_in self.now)) }
    {
        self.channel.region_len(region)
    }

    /// The most turns of a scan.
    pub fn budget(&self) -> u32
        ensures { result ≡ self.now.budget }
    {
        self.budget
    }

    /// Begins a scan, which has one value for each input, and counts turns from 0.
    pub fn begin(&mut self, scan: &Scan)
        requires { length scan.now.ins ≡ self.old.sizes.inputs }
        ensures { self.new ≡ meeting C.workings (begins scan.entry.now.now scan.entry.now.ins) self.old }
    {
        self.channel.begin(scan);
        self.turns = 0;
    }

    /// Whether the channel has ended: it is not Running, or has spent its budget.
    pub fn ended(&self) -> bool
        ensures { result ≡ ended (machine_in C.workings self.now) self.now.channel }
    {
        self.channel.progress() != Progress::Running || self.budget <= self.turns
    }

    /// One turn of a channel that has not ended.
    pub fn turn(&mut self)
        requires { ended (machine_in C.workings self.old) self.old.channel ≡ false }
        ensures { self.new ≡ meeting C.workings makes_turn self.old }
    {
        self.channel.turn();
        self.turns += 1;
    }

    /// Makes the turns that are left of the scan, up to its end.
    pub fn finish(&mut self)
        ensures { Finishes C.workings self.old self.new }
    {
        self.turns += self.channel.turns(self.budget - self.turns);
    }

    /// Replaces bytes of a region. OutOfRegion comes exactly where they would pass its end, and then
    /// nothing changed.
    pub fn spoil(&mut self, region: Region, at: u32, bytes: &[u8]) -> Result<(), OutOfRegion>
        ensures bytes { self.new ≡ meeting C.workings (struck region at bytes.now) self.old }
        ensures refused { is_err result ≡ nat_lt (length (region_of region (stored_in self.old))) (at + length bytes.now) }
    {
        self.channel.spoil(region, at, bytes)
    }

    /// Begins anew: the code as compiled, blank cells and no turns.
    pub fn restart(&mut self)
        ensures { self.new ≡ meeting C.workings restarts self.old }
    {
        self.channel.renew(&self.image);
        self.turns = 0;
    }

    /// Restores the channel with the code as compiled, by the limits of the instances and at this time of the last
    /// scan, all in ms, from the bytes of the signals and instances of another channel; the turn count stays. `bytes`
    /// is room for work: what it has then is not said.
    pub fn restore(&mut self, limits: &[u32], time: u32, bytes: &mut [u8])
        requires limits { length limits.now ≡ self.old.sizes.instances }
        requires bytes { length bytes.old ≡ self.old.sizes.signals + 16 * self.old.sizes.instances }
        ensures { self.new ≡ meeting C.workings (is_remade (C.restored self.old.sizes limits.now time bytes.old)) self.old }
    {
        self.channel.restore(&self.image, limits, time, bytes);
    }

    /// Writes the report of a channel that has ended into a blank one of the application's sizes, or answers why there
    /// is none, and then `into` is still blank. A caller hands over a blank report, every Boolean FALSE and every code
    /// 0, so that a channel that writes nothing, as by a compiler's or a processor's fault, releases nothing that stood
    /// there.
    #[inline(always)]
    pub fn outcome_into(&self, into: &mut Report) -> Result<(), Failing>
        requires blank { into.old ≡ blank_report self.now.sizes.outputs self.now.sizes.instances }
        ensures gives { OnOk result (outcome (machine_in C.workings self.now) self.now.channel.cells ≡ gives into.new) }
        ensures lacks { IfErr result (λ failing. outcome (machine_in C.workings self.now) self.now.channel.cells ≡ lacks failing) }
        ensures kept { OnErr result (into.new ≡ into.old) }
        ensures sized { (length into.new.outs ≡ length into.old.outs) × (length into.new.diags ≡ length into.old.diags) }
    {
        match self.channel.progress() {
            Progress::Trapped(n) => Err(Failing::Trap(n)),
            Progress::Running => Err(Failing::Stuck),
            Progress::Done => {
                if self.channel.report_into(into) {
                    Ok(())
                } else {
                    Err(Failing::NoReport)
                }
            }
        }
    }
}

impl<C: TwinMachine> Seat<C> {
    /// Becomes what another seat of the same application is: of the same sizes, the same code as compiled and the same
    /// budget. It takes no memory.
    pub fn copy_from(&mut self, other: &Seat<C>)
        requires { AreOfOne self.old other.now }
        ensures { self.new ≡ other.now }
    {
        self.channel.copy_from(&other.channel);
        self.turns = other.turns;
    }

    /// True only where this is what another seat of the same application is.
    pub fn is_twin_of(&self, other: &Seat<C>) -> bool
        requires { AreOfOne self.now other.now }
        ensures { result ≡ true → self.now ≡ other.now }
    {
        self.turns == other.turns && self.channel.is_twin_of(&other.channel)
    }
}
