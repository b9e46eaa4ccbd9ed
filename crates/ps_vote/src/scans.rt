// The scans of the world of three seats, in the order of events of `vote` and `heal`.

ghost use Rattle.std.specs.Prelude.{◌≡◌, ◌≤◌, false, true, length, IfSome, IfNone, OnOk, None, Bool, []};
ghost use Rattle.ps_machine.specs.Channels.{ended};
ghost use Rattle.ps_vote.specs.Worlds.{machine, channel};
ghost use Rattle.ps_vote.specs.Steps.{all_ended};
ghost use Rattle.ps_vote.specs.Votes.{vote, report_given};
ghost use Rattle.ps_vote.specs.Whole.{machines_in, after_events};
ghost use Rattle.ps_vote.specs.Orders.{of_turn, spoils, next_turn, turns, most_turns, path_to_vote, at_vote, closing};
ghost use Rattle.ps_vote.specs.Orders.{path_of_scan, path_answer, scan_answer};

use crate::faults::VoteFault;
use crate::seat::{Seat, Vote};
use crate::world::VoteWorld;
use ps_model::{Report, Scan};

impl VoteWorld {
    /// Makes a scan by the order of events of `vote`, or of `heal` where it `heals`. `faults` are those of the scan in
    /// the order of the fault file: the Spoils before it, Begin, turns of A, B and C in rotation with the Spoils before
    /// each, and the vote, whose answer and report are given; where it heals, the Heal of a seat that is outvoted.
    ///
    /// Err comes only where it heals, and exactly where a fault is reached while another seat is dirty, with the line
    /// of the fault: it is not done, and the scan is not closed. It takes no memory.
    pub fn make_scan(
        &mut self,
        scan: &Scan,
        faults: &[VoteFault],
        heals: bool,
        into: &mut Report,
    ) -> Result<Vote, u32>
        requires rest { self.old.state.begun ≡ false }
        requires later { self.old.state.last ≤ scan.now.now }
        requires inputs { length scan.now.ins ≡ self.old.setup.sizes.inputs }
        requires outs { length into.old.outs ≡ self.old.setup.sizes.outputs }
        requires diags { length into.old.diags ≡ self.old.setup.sizes.instances }
        ensures events { self.new ≡ after_events (path_of_scan heals (machines_in self.old.setup) faults.now scan.entry.now.now scan.entry.now.ins self.old.state).events self.old }
        ensures answer { result ≡ scan_answer (path_of_scan heals (machines_in self.old.setup) faults.now scan.entry.now.now scan.entry.now.ins self.old.state).refused (vote (machines_in self.old.setup) (at_vote heals (machines_in self.old.setup) faults.now scan.entry.now.now scan.entry.now.ins self.old.state)) }
        ensures report { OnOk result (into.new ≡ report_given (machines_in self.old.setup) self.old.setup.sizes.outputs self.old.setup.sizes.instances (at_vote heals (machines_in self.old.setup) faults.now scan.entry.now.now scan.entry.now.ins self.old.state)) }
        ensures rest { OnOk result (self.new.state.begun ≡ false) }
        ensures last { self.new.state.last ≤ scan.entry.now.now }
        ensures sized { (length into.new.outs ≡ length into.old.outs) × (length into.new.diags ≡ length into.old.diags) }
    {
        self.run_scan(scan, faults, heals)?;
        Ok(self.close_scan(heals, into))
    }

    // The vote of a scan, and after it, where it heals, the Heal of a seat that is outvoted.
    fn close_scan(&mut self, heals: bool, into: &mut Report) -> Vote
        requires begun { self.old.state.begun ≡ true }
        requires over { all_ended (machines_in self.old.setup) self.old.state ≡ true }
        requires outs { length into.old.outs ≡ self.old.setup.sizes.outputs }
        requires diags { length into.old.diags ≡ self.old.setup.sizes.instances }
        ensures events { self.new ≡ after_events (closing heals (machines_in self.old.setup) self.old.state) self.old }
        ensures vote { result ≡ vote (machines_in self.old.setup) self.old.state }
        ensures report { into.new ≡ report_given (machines_in self.old.setup) self.old.setup.sizes.outputs self.old.setup.sizes.instances self.old.state }
        ensures sized { (length into.new.outs ≡ length into.old.outs) × (length into.new.diags ≡ length into.old.diags) }
    {
        let vote = self.vote(into);
        if heals && let Vote::Two(seat) = vote {
            self.heal(seat);
        }
        vote
    }

    // A scan up to its vote, or up to the fault at which it ends.
    fn run_scan(&mut self, scan: &Scan, faults: &[VoteFault], heals: bool) -> Result<(), u32>
        requires rest { self.old.state.begun ≡ false }
        requires later { self.old.state.last ≤ scan.now.now }
        requires inputs { length scan.now.ins ≡ self.old.setup.sizes.inputs }
        ensures events { self.new ≡ after_events (path_to_vote heals (machines_in self.old.setup) faults.now scan.entry.now.now scan.entry.now.ins self.old.state).events self.old }
        ensures refused { result ≡ path_answer (path_to_vote heals (machines_in self.old.setup) faults.now scan.entry.now.now scan.entry.now.ins self.old.state).refused }
    {
        if faults.is_empty() {
            self.run_quietly(scan);
            Ok(())
        } else {
            self.run_struck(scan, faults, heals)
        }
    }

    // A scan without a fault: the seats run one after the other, which leads to the world of turns one by one.
    fn run_quietly(&mut self, scan: &Scan)
        requires rest { self.old.state.begun ≡ false }
        requires later { self.old.state.last ≤ scan.now.now }
        requires inputs { length scan.now.ins ≡ self.old.setup.sizes.inputs }
        ensures events { (heals : Bool) → self.new ≡ after_events (path_to_vote heals (machines_in self.old.setup) [] scan.entry.now.now scan.entry.now.ins self.old.state).events self.old }
        ensures goes { (heals : Bool) → (path_to_vote heals (machines_in self.old.setup) [] scan.entry.now.now scan.entry.now.ins self.old.state).refused ≡ None }
    {
        self.begin(scan);
        self.finish_all();
    }

    // A scan that these faults may strike.
    fn run_struck(&mut self, scan: &Scan, faults: &[VoteFault], heals: bool) -> Result<(), u32>
        requires rest { self.old.state.begun ≡ false }
        requires later { self.old.state.last ≤ scan.now.now }
        requires inputs { length scan.now.ins ≡ self.old.setup.sizes.inputs }
        ensures events { self.new ≡ after_events (path_to_vote heals (machines_in self.old.setup) faults.now scan.entry.now.now scan.entry.now.ins self.old.state).events self.old }
        ensures refused { result ≡ path_answer (path_to_vote heals (machines_in self.old.setup) faults.now scan.entry.now.now scan.entry.now.ins self.old.state).refused }
    {
        self.strike(faults, heals, 0)?;
        self.begin(scan);
        self.take_turns(faults, heals)
    }

    // The Spoils of these faults that come before a turn, up to a fault that is not done. One out of its region changes
    // nothing.
    fn strike(&mut self, faults: &[VoteFault], heals: bool, turn: u64) -> Result<(), u32>
        ensures events { self.new ≡ after_events (spoils heals (machines_in self.old.setup) (of_turn turn faults.now) self.old.state).events self.old }
        ensures refused { result ≡ path_answer (spoils heals (machines_in self.old.setup) (of_turn turn faults.now) self.old.state).refused }
    {
        for fault in faults {
            if u64::from(fault.turn) == turn {
                let refused = heals && self.is_another_dirty(fault.seat);
                if refused {
                    return Err(fault.line);
                }
                let _changed = self.spoil(
                    fault.seat,
                    fault.region,
                    fault.at,
                    fault.bytes.as_slice(),
                );
            }
        }
        Ok(())
    }

    // The seat that has the next turn, and None exactly where all three have ended.
    fn next_turn(&self, last: Option<Seat>) -> Option<Seat>
        ensures some { IfSome result (λ seat. (seat ≡ next_turn (machines_in self.now.setup) last self.now.state) × (ended (machine seat (machines_in self.now.setup)) (channel seat self.now.state) ≡ false) × (all_ended (machines_in self.now.setup) self.now.state ≡ false)) }
        ensures none { IfNone result (all_ended (machines_in self.now.setup) self.now.state ≡ true) }
    {
        let first = match last {
            None => Seat::A,
            Some(seat) => seat.after(),
        };
        let second = first.after();
        let third = second.after();
        if !self.ended(first) {
            Some(first)
        } else if !self.ended(second) {
            Some(second)
        } else if !self.ended(third) {
            Some(third)
        } else {
            None
        }
    }

    // The turns of a scan that is begun, with the Spoils before each, until all seats have ended, or up to a fault that
    // is not done.
    fn take_turns(&mut self, faults: &[VoteFault], heals: bool) -> Result<(), u32>
        requires begun { self.old.state.begun ≡ true }
        ensures events { self.new ≡ after_events (turns heals (machines_in self.old.setup) faults.now (most_turns (machines_in self.old.setup)) 0 None self.old.state).events self.old }
        ensures refused { result ≡ path_answer (turns heals (machines_in self.old.setup) faults.now (most_turns (machines_in self.old.setup)) 0 None self.old.state).refused }
    {
        let most = self.most_turns();
        let mut last = None;
        for done in 0..most {
            self.strike(faults, heals, done + 1)?;
            match self.next_turn(last) {
                None => return Ok(()),
                Some(seat) => {
                    self.turn(seat);
                    last = Some(seat);
                }
            }
        }
        self.strike(faults, heals, most + 1)
    }
}
