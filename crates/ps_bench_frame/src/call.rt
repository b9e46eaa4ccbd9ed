// A call of the program: the files that it reads, the output that it writes and whoever listens, as one value.

ghost use Rattle.std.specs.Prelude.{◌≡◌, ◌≤◌, ◌∷◌, ◌++◌, [], All, IsTrue, IsErr, IfErr, IfOk, OnOk, length, take};
ghost use Rattle.ps_bench_cases.specs.Meant.{whole_case};
ghost use Rattle.ps_bench_cases.specs.Runnable.{IsRunnable};
ghost use Rattle.ps_bench_cases.specs.declared.case.Case.{Case as CaseOf};
ghost use Rattle.ps_bench_cases.specs.declared.limits.TheConstants.{MOST_CASES};
ghost use Rattle.ps_model.specs.Typing.{Accepted};
ghost use Rattle.ps_names.specs.Stands.{Stands};
ghost use Rattle.ps_runs.specs.Running.{Fits};
ghost use Rattle.ps_bench_frame.specs.Coming.{OpensCases, OpensSourced};
ghost use Rattle.ps_bench_frame.specs.Ending.{IsOfRun};
ghost use Rattle.ps_bench_frame.specs.Following.{FollowsTrace};
ghost use Rattle.ps_bench_frame.specs.Leaving.{OnlyReads};
ghost use Rattle.ps_bench_frame.specs.Opening.{source_of_call};
ghost use Rattle.ps_bench_frame.specs.Seen.{CallSeen, Writes, files_seen, output_seen, texts_of};

use crate::ending::Stop;
use crate::following::follow;
use crate::opening::{Opened, open_cases};
use crate::sourcing::{Sourced, sourced_of};
use ps_bench_cases::CaseFile;
use ps_message::{Listener, hear_bytes};
use ps_model::App;
use ps_outside::{Files, Output, Stopped, write_all};
use ps_runs::{Performer, Runner, Taker};
use std::alloc::Global;

/// A call of the program, as the commands see it: what it can read and write, and who listens. Contracts see it by
/// `seen`.
pub trait Call {
    /// The files and the output, as contracts see them.
    ghost seen: { Self → CallSeen };

    /// What takes memory for the call.
    fn alloc(&self) -> Global;

    /// The accepted application of this name, with its source. Nothing is written.
    fn open_sourced(&mut self, name: &str) -> Result<Sourced, Stop>
        ensures accepted { IfOk result (λ sourced. Accepted sourced.opened.app) }
        ensures stands { IfOk result (λ sourced. Stands sourced.source sourced.opened.app) }
        ensures opens { OpensSourced (texts_of (seen self.old)) name.now result }
        ensures reads { OnlyReads (name.now ∷ []) (seen self.old) (seen self.new) result };

    /// The cases of the file of this name, which stands at this place of the words. Nothing is written.
    fn open_cases(&mut self, opened: &Opened, place: usize, name: &str) -> Result<CaseFile, Stop>
        ensures opens { OpensCases (source_of_call opened.now.app opened.now.sizes (seen self.old)) name.now result }
        ensures runnable { IfOk result (λ file.
            All (λ (case : CaseOf). IsRunnable opened.now.app (whole_case file case)) file.cases) }
        ensures few { IfOk result (λ file. length file.cases ≤ MOST_CASES) }
        ensures reads { OnlyReads (name.now ∷ []) (seen self.old) (seen self.new) result };

    /// Does all items of the trace of this name, for a taker that keeps what comes of them. Nothing is written.
    fn follow<P: Performer, T: Taker<P>>(
        &mut self,
        name: &str,
        app: &App,
        runner: &mut Runner<P, T>,
    ) -> Result<(), Stop>
        requires fits { Fits (P.fits app.now) (T.fits app.now) app.now runner.old }
        requires first { P.earliest runner.old.performer ≡ 0 }
        ensures follows { IsTrue (seen self.old).files.tells →
            FollowsTrace (P.performs app.now) (T.said app.now) (T.takes app.now)
            app.now ((seen self.old).files.held name.now) runner.old.performer runner.new.performer
            runner.old.taker runner.new.taker result }
        ensures of_run { IfErr result IsOfRun }
        ensures reads { OnlyReads (name.now ∷ []) (seen self.old) (seen self.new) result };

    /// Writes all of a piece.
    fn write(&mut self, piece: &[u8]) -> Result<(), Stopped>
        ensures whole { IsTrue (seen self.old).out.tells → OnOk result ((seen self.new).out.taken ≡
            (seen self.old).out.taken ++ piece.now) }
        ensures part { IsTrue (seen self.old).out.tells →
            IfErr result (λ stop. (seen self.new).out.taken ≡ (seen self.old).out.taken ++ take stop.taken piece.now) }
        ensures writes { Writes (IsErr result) (seen self.old) (seen self.new) };

    /// Whether who listens asks for no messages.
    fn is_quiet(&self) -> bool;

    /// Has who listens hear a text, where it is UTF-8.
    fn hear(&mut self, text: &[u8])
        ensures { seen self.new ≡ seen self.old };
}

/// A call over files, an output and whoever listens, each lent for a time of its own.
pub struct CallOver<'f, 'o, 'l, F: Files, O: Output, L: Listener> {
    /// What takes memory for it.
    pub alloc: Global,
    /// The files that it reads.
    pub files: &'f mut F,
    /// The output that it writes.
    pub out: &'o mut O,
    /// Who hears its messages.
    pub listener: &'l mut L,
}

impl<'f, 'o, 'l, F: Files, O: Output, L: Listener> Call for CallOver<'f, 'o, 'l, F, O, L> {
    ghost seen = { λ c. record {
      files = files_seen F.tells F.held F.faults c.files.now;
      out = output_seen O.tells O.taken O.faults c.out.now;
      loans = record { files = c.files.ghost_name; out = c.out.ghost_name };
    } };

    fn alloc(&self) -> Global {
        self.alloc
    }

    fn open_sourced(&mut self, name: &str) -> Result<Sourced, Stop> {
        sourced_of(self.alloc, self.files, name)
    }

    fn open_cases(&mut self, opened: &Opened, place: usize, name: &str) -> Result<CaseFile, Stop> {
        open_cases(self.alloc, self.files, opened, place, name)
    }

    fn follow<P: Performer, T: Taker<P>>(
        &mut self,
        name: &str,
        app: &App,
        runner: &mut Runner<P, T>,
    ) -> Result<(), Stop> {
        follow(self.alloc, self.files, name, app, runner)
    }

    fn write(&mut self, piece: &[u8]) -> Result<(), Stopped> {
        write_all(self.out, piece)
    }

    fn is_quiet(&self) -> bool {
        self.listener.is_quiet()
    }

    fn hear(&mut self, text: &[u8]) {
        hear_bytes(self.listener, text)
    }
}
