//! A call of the program: the files that it reads, the output that it writes, and what it leaves behind, as one value.

ghost use Rattle.std.specs.Prelude.{◌≡◌, ◌≤◌, ◌++◌, ℕ, List, IsTrue, Some, IsErr, IfOk, IfErr, OnOk, Err, take, length};
ghost use Rattle.std.specs.Prelude.{false, IsErrOf};
ghost use Rattle.ps_model.specs.Network.{input_count};
ghost use Rattle.ps_outside.specs.Outside.{Rose};
ghost use Rattle.ps_runs.specs.Doing.{DoesItems};
ghost use Rattle.ps_runs.specs.Running.{Fits};
ghost use Rattle.ps_trace.specs.FaultOrder.{AreInOrder, AreOfOneChannel, StrikeInOrder, StrikeOne};
ghost use Rattle.ps_trace.specs.Faults.{faults_of};
ghost use Rattle.ps_trace.specs.Reading.{IsReadingTrace, file_of, input_count_of, items_left, last_of};
ghost use Rattle.ps_vote.specs.Faults.{line_of_fault};
ghost use Rattle.ps_top.specs.Calls.{CallSeen, ReadsName, Streams, Writes, files_seen, output_seen, with_left};
ghost use Rattle.ps_top.specs.Leaving.{left_with};
ghost use Rattle.ps_top.specs.Opening.{GivesFaults, GivesText, IsOpened, OpensTrace};
ghost use Rattle.ps_top.specs.Program as program;

use crate::left::{Leaving, Left};
use ps_base::Bytes;
use ps_model::{App, ImageSizes};
use ps_outside::{Files, ReadFail, Sink, Stopped, TextFail, read_upto, write_all};
use ps_runs::{Cut, Performer, Runner, Taker, do_items};
use ps_trace::{Faults, TraceReader, read_faults};
use ps_vote::{VoteFaults, VoteSizes, read_heal_faults, read_vote_faults};
use std::alloc::Global;

/// A call of the program, as the commands see it: what it can read, write and leave. Contracts see it by `seen`.
pub trait Call {
    /// The files, the output and what is left, as contracts see them.
    ghost seen: { Self → CallSeen };

    /// What takes memory for the call.
    fn alloc(&self) -> Global;

    /// Reads the text of a name, or its first `most` bytes where it has more.
    fn read(&mut self, name: &str, most: u32) -> Result<Bytes, ReadFail>
        ensures gives { IsTrue (seen self.old).files.tells →
            GivesText most ((seen self.old).files.held name.now) result }
        ensures reads { ReadsName name.now (IsErrOf result ReadFail.Fault) (seen self.old) (seen self.new) };

    /// Begins to read the trace of a name, after its header.
    fn open_trace(&mut self, name: &str, app: &App) -> Result<TraceReader, TextFail>
        ensures opens { IsTrue (seen self.old).files.tells →
            OpensTrace app.now ((seen self.old).files.held name.now) result }
        ensures opened { IfOk result (IsOpened app.now name.now) }
        ensures reads { ReadsName name.now (IsErrOf result TextFail.Fault) (seen self.old) (seen self.new) };

    /// Reads the fault file of two channels of a name.
    fn read_faults(&mut self, name: &str, sizes: &ImageSizes) -> Result<Faults, TextFail>
        ensures gives { IsTrue (seen self.old).files.tells →
            GivesFaults (λ text. faults_of text sizes.now) ((seen self.old).files.held name.now) result }
        ensures ordered { IfOk result AreInOrder }
        ensures one_channel { IfOk result AreOfOneChannel }
        ensures reads { ReadsName name.now (IsErrOf result TextFail.Fault) (seen self.old) (seen self.new) };

    /// Reads the fault file of three seats of a name: by the rules of `heal`, or of `vote`.
    fn read_seat_faults(
        &mut self,
        name: &str,
        sizes: &VoteSizes,
        heals: bool,
    ) -> Result<VoteFaults, TextFail>
        ensures gives { IsTrue (seen self.old).files.tells →
            GivesFaults (λ text. program.seat_faults_of heals text sizes.now)
            ((seen self.old).files.held name.now) result }
        ensures ordered { IfOk result (λ faults. StrikeInOrder line_of_fault faults) }
        ensures one_seat { heals ≡ false → IfOk result (λ faults. StrikeOne line_of_fault faults) }
        ensures reads { ReadsName name.now (IsErrOf result TextFail.Fault) (seen self.old) (seen self.new) };

    /// Does the items of a trace that are left, in order. It takes no memory.
    fn do_items<P: Performer, T: Taker<P>>(
        &mut self,
        app: &App,
        trace: &mut TraceReader,
        runner: &mut Runner<P, T>,
    ) -> Result<(), Cut>
        requires fits { Fits (P.fits app.now) (T.fits app.now) app.now runner.old }
        requires due { P.earliest runner.old.performer ≤ last_of trace.old }
        requires inputs { input_count_of trace.old ≡ input_count app.now }
        ensures does { IsTrue (seen self.old).files.tells → (text : List ℕ) →
            (seen self.old).files.held (file_of trace.old) ≡ Some text → IsReadingTrace trace.old text →
            DoesItems (P.performs app.now) (T.said app.now) (T.takes app.now)
            (last_of trace.old) runner.old.performer runner.old.taker (items_left trace.old text)
            (seen self.old).out.tells (seen self.old).out.taken (seen self.new).out.taken
            result runner.new.performer runner.new.taker }
        ensures streams { Streams (file_of trace.old) (seen self.old) (seen self.new) result };

    /// Does the items of a trace in other files than the call's own.
    fn do_items_of<F: Files, P: Performer, T: Taker<P>>(
        &mut self,
        files: &mut F,
        app: &App,
        trace: &mut TraceReader,
        runner: &mut Runner<P, T>,
    ) -> Result<(), Cut>
        requires fits { Fits (P.fits app.now) (T.fits app.now) app.now runner.old }
        requires due { P.earliest runner.old.performer ≤ last_of trace.old }
        requires inputs { input_count_of trace.old ≡ input_count app.now }
        ensures does { IsTrue (F.tells files.old) → (text : List ℕ) →
            F.held files.old (file_of trace.old) ≡ Some text → IsReadingTrace trace.old text →
            DoesItems (P.performs app.now) (T.said app.now) (T.takes app.now)
            (last_of trace.old) runner.old.performer runner.old.taker (items_left trace.old text)
            (seen self.old).out.tells (seen self.old).out.taken (seen self.new).out.taken
            result runner.new.performer runner.new.taker }
        ensures unread { result ≡ Err Cut.Unread → Rose (F.faults files.old (file_of trace.old)) (F.faults files.new
            (file_of trace.old)) }
        ensures kept { F.held files.new ≡ F.held files.old }
        ensures writes { Writes (result ≡ Err Cut.Unwritten) (seen self.old) (seen self.new) }
        ensures left { (seen self.new).left ≡ (seen self.old).left };

    /// Writes all of a piece.
    fn write(&mut self, piece: &[u8]) -> Result<(), Stopped>
        ensures whole { IsTrue (seen self.old).out.tells → OnOk result ((seen self.new).out.taken ≡
            (seen self.old).out.taken ++ piece.now) }
        ensures part { IsTrue (seen self.old).out.tells →
            IfErr result (λ stop. (seen self.new).out.taken ≡ (seen self.old).out.taken ++ take stop.taken piece.now) }
        ensures within { IfErr result (λ stop. stop.taken ≤ length piece.now) }
        ensures writes { Writes (IsErr result) (seen self.old) (seen self.new) }
        ensures left { (seen self.new).left ≡ (seen self.old).left };

    /// Leaves something after.
    fn leave(&mut self, what: Leaving)
        ensures { seen self.new ≡ with_left (left_with what (seen self.old).left) (seen self.old) };
}

/// A call over files and an output, which leaves something after in the place that its maker lends.
pub(crate) struct CallOver<'a, F: Files, S: Sink> {
    pub(crate) alloc: Global,
    pub(crate) files: &'a mut F,
    pub(crate) out: &'a mut S,
    pub(crate) left: &'a mut Left,
}

impl<'a, F: Files, S: Sink> Call for CallOver<'a, F, S> {
    ghost seen = { λ c. record {
      files = files_seen F.tells F.held F.faults c.files.now;
      out = output_seen S.tells S.taken S.faults c.out.now;
      left = c.left.now;
      loans = record { files = c.files.ghost_name; out = c.out.ghost_name; left = c.left.ghost_name };
    } };

    fn alloc(&self) -> Global {
        self.alloc
    }

    fn read(&mut self, name: &str, most: u32) -> Result<Bytes, ReadFail> {
        read_upto(self.alloc, self.files, name, most)
    }

    fn open_trace(&mut self, name: &str, app: &App) -> Result<TraceReader, TextFail> {
        TraceReader::start(self.alloc, self.files, name, app)
    }

    fn read_faults(&mut self, name: &str, sizes: &ImageSizes) -> Result<Faults, TextFail> {
        read_faults(self.alloc, self.files, name, sizes)
    }

    fn read_seat_faults(
        &mut self,
        name: &str,
        sizes: &VoteSizes,
        heals: bool,
    ) -> Result<VoteFaults, TextFail> {
        if heals {
            read_heal_faults(self.alloc, self.files, name, sizes)
        } else {
            read_vote_faults(self.alloc, self.files, name, sizes)
        }
    }

    fn do_items<P: Performer, T: Taker<P>>(
        &mut self,
        app: &App,
        trace: &mut TraceReader,
        runner: &mut Runner<P, T>,
    ) -> Result<(), Cut> {
        do_items(app, trace, runner, self.files, self.out)
    }

    fn do_items_of<G: Files, P: Performer, T: Taker<P>>(
        &mut self,
        files: &mut G,
        app: &App,
        trace: &mut TraceReader,
        runner: &mut Runner<P, T>,
    ) -> Result<(), Cut> {
        do_items(app, trace, runner, files, self.out)
    }

    fn write(&mut self, piece: &[u8]) -> Result<(), Stopped> {
        write_all(self.out, piece)
    }

    fn leave(&mut self, what: Leaving) {
        self.left.leave(what)
    }
}
