// Who watches the scans of a run.

ghost use Rattle.std.specs.Prelude.{◌≡◌, ◌+◌, ◌≤◌, All, IfOk, false, true, map};
ghost use Rattle.ps_model.specs.Network.{Network};
ghost use Rattle.ps_bench_waves.specs.Lines.{scan_text};
ghost use Rattle.ps_bench_waves.specs.Room.{IsKeyed, cells_of, columns_room, frame_room};

use crate::Marks;
use crate::column::{Column, columns_of, renew, room_for};
use crate::format::Format;
use crate::line::Line;
use crate::rows::{make_csv_row, make_json_line};
use crate::telling::make_text_line;
use ps_base::Memory;
use ps_bench_judge::Seen;
use ps_bench_names::Name;
use ps_model::{App, Report, Verdict};
use ps_outside::{Sink, Stopped, write_all};
use ps_runs::{StruckWorld, Taker, Watched};
use std::alloc::Global;

/// Who watches the scans of a run: names and how they are written. It keeps the values of the last scan, and no other.
pub struct Watcher {
    // how it writes
    pub(crate) format: Format,
    // what it watches
    pub(crate) columns: Vec<Column>,
    // room for a line
    pub(crate) line: Line,
    // what marks the next scan
    pub(crate) next: Marks,
}

impl Drop for Watcher {
    // One call for whoever owns one, in place of a walk through all that it holds.
    fn drop(self) {
        let Watcher {
            format: _,
            columns: _,
            line: _,
            next: _,
        } = self;
    }
}

// Makes what is written of a scan.
fn make_line(
    line: &mut Line,
    app: &App,
    format: Format,
    now: u32,
    is_restarted: bool,
    verdict: Verdict,
    columns: &[Column],
)
    requires keyed { All (IsKeyed format app.now) columns.now }
    requires room { frame_room + columns_room columns.now ≤ line.old.room }
    ensures text { line.new.text ≡ scan_text app.now format now is_restarted verdict (cells_of columns.now) }
    ensures room { line.new.room ≡ line.old.room }
{
    match format {
        Format::Text => make_text_line(line, app, now, verdict, columns),
        Format::Csv => make_csv_row(line, now, is_restarted, verdict, columns),
        Format::Json => make_json_line(line, app, now, is_restarted, verdict, columns),
    }
}

impl Watcher {
    ghost use Rattle.ps_bench_judge.specs.Moments.{moment_of};
    ghost use Rattle.ps_bench_waves.specs.Watcher.{IsWatcherFor, TakesScan};

    /// Who watches these names, before the first scan. It takes all memory that it will use.
    pub fn new(alloc: Global, app: &App, format: Format, names: &[Name]) -> Result<Watcher, Memory>
        ensures fits { IfOk result (IsWatcherFor app.now) }
        ensures names { IfOk result (λ w. map (λ c. c.name) w.columns.items ≡ names.now) }
        ensures format { IfOk result (λ w. w.format ≡ format) }
        ensures first { IfOk result (λ w. w.next.is_first ≡ true) }
        ensures not_restarted { IfOk result (λ w. w.next.is_restarted ≡ false) }
    {
        let columns = columns_of(alloc, app, format, names)?;
        let room = room_for(columns.as_slice()).ok_or(Memory)?;
        Ok(Watcher {
            format,
            columns,
            line: Line::with_room(alloc, room)?,
            next: Marks::unmarked(),
        })
    }

    // Takes the values of the next scan.
    fn take_values(&mut self, app: &App, seen: &Seen<'_>)
        ensures takes { TakesScan app.now self.old (moment_of seen.entry.now) self.new }
        ensures room { self.new.line.room ≡ self.old.line.room }
    {
        renew(app, self.next.is_first, seen, self.columns.as_mut_slice());
        self.next = Marks::behind_scan();
    }

    // The same, and it is still a watcher of the application.
    fn see(&mut self, app: &App, seen: &Seen<'_>)
        requires { IsWatcherFor app.now self.old }
        ensures takes { TakesScan app.now self.old (moment_of seen.entry.now) self.new }
        ensures fits { IsWatcherFor app.now self.new }
    {
        self.take_values(app, seen);
    }
}

impl Taker<Watched<StruckWorld>> for Watcher {
    ghost use Rattle.ps_bench_waves.specs.Watcher.{IsWatcherFor, watcher_said, watcher_takes};

    ghost fits = { IsWatcherFor };

    ghost said = { watcher_said };

    ghost takes = { watcher_takes };

    fn take_scan<S: Sink>(
        &mut self,
        app: &App,
        now: u32,
        verdict: Verdict,
        report: &Report,
        performer: &Watched<StruckWorld>,
        out: &mut S,
    ) -> Result<(), Stopped> {
        let seen = Seen {
            now,
            verdict,
            report,
            before: performer.evaluator.signals_before(),
            signals: performer.evaluator.signals(),
        };
        let is_restarted = self.next.is_restarted;
        self.see(app, &seen);
        make_line(
            &mut self.line,
            app,
            self.format,
            now,
            is_restarted,
            verdict,
            self.columns.as_slice(),
        );
        write_all(out, self.line.as_slice())
    }

    fn take_restart<S: Sink>(
        &mut self,
        _app: &App,
        _performer: &Watched<StruckWorld>,
        out: &mut S,
    ) -> Result<(), Stopped> {
        self.next = Marks::behind_restart();
        match self.format {
            Format::Text => write_all(out, b"restart\n"),
            Format::Csv | Format::Json => Ok(()),
        }
    }
}
