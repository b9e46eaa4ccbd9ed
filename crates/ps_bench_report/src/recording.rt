// The scans of a case that are shown, and who takes them.

ghost use Rattle.std.specs.Prelude.{◌≡◌, false, IfOk, OnOk, IsTrue, map, option_map};
ghost use Rattle.ps_bench_report.specs.Recorder.{IsFresh, Shows, Stays, TakesRestart, TakesScan, frame_now, last_frame};
ghost use Rattle.ps_bench_report.specs.Recorder.{with_frame};
ghost use Rattle.ps_bench_report.specs.Recording.{course_of, film_of, frame_of};
ghost use Rattle.ps_bench_judge.specs.Moments.{moment_of};
ghost use Rattle.ps_bench_judge.specs.Named.{value_in};

use crate::marks::Mark;
use ps_base::Memory;
use ps_bench_judge::{Seen, value_of};
use ps_bench_names::Name;
use ps_model::{App, Verdict};
use std::alloc::Global;

/// As many scans of a case are shown, each of which shows a change, or is expected something of.
pub(crate) const MOST_MOMENTS: usize = 400;

/// How a world goes on after a scan.
#[derive(Clone, Copy)]
pub(crate) enum Course {
    /// It runs.
    Runs,
    /// The scan tripped.
    Trips,
    /// It is down since an earlier scan.
    Down,
}

/// A scan that is shown.
#[derive(Drop)]
pub(crate) struct Moment {
    /// Its number in the case, counted from 1.
    pub(crate) scan: u32,
    /// Its time in ms.
    pub(crate) now: u32,
    /// How long it is to the next one that is shown, or to the last scan, in ms.
    pub(crate) wait: u32,
    /// Whether it is the first one after a restart.
    pub(crate) restarted: bool,
    /// How the world goes on.
    pub(crate) course: Course,
    /// The value of each name that is shown, in order.
    pub(crate) values: Vec<u16>,
}

/// What is shown of a case: the values of names in those of its scans that show a change, or of which something is
/// expected.
pub(crate) struct Recording {
    /// The names.
    pub(crate) names: Vec<Name>,
    /// The scans.
    pub(crate) moments: Vec<Moment>,
    /// Whether more scans show a change than are shown.
    pub(crate) is_cut: bool,
}

impl Drop for Recording {
    // One call for whoever owns one, in place of a walk through all that it holds.
    fn drop(self) {
        let Recording {
            names: _,
            moments: _,
            is_cut: _,
        } = self;
    }
}

/// Who takes the scans of a case that are shown.
pub(crate) struct Recorder {
    alloc: Global,
    // what is shown so far
    pub(crate) recording: Recording,
    // what is expected of scans, which are shown in any case, in the order of their numbers
    kept: Vec<Mark>,
    // how many scans were made
    pub(crate) scans: u32,
    // the time of the last scan in ms
    end: u32,
    // whether the next scan is the first one after a restart
    pub(crate) restarted: bool,
    // whether memory ran out for a scan
    pub(crate) is_wanting: bool,
}

impl Drop for Recorder {
    // One call for whoever owns one, in place of a walk through all that it holds.
    fn drop(self) {
        let Recorder {
            alloc: _,
            recording: _,
            kept: _,
            scans: _,
            end: _,
            restarted: _,
            is_wanting: _,
        } = self;
    }
}

// How a world goes on after a scan of this verdict.
fn course_of(verdict: Verdict) -> Course
    ensures { result ≡ course_of verdict }
{
    match verdict {
        Verdict::Released => Course::Runs,
        Verdict::Tripped(_) => Course::Trips,
        Verdict::Down => Course::Down,
    }
}

// The values of names in a scan.
fn values_in(alloc: Global, app: &App, names: &[Name], seen: &Seen<'_>) -> Result<Vec<u16>, Memory>
    ensures { IfOk result (λ values. values.items ≡ map (value_in app.now (moment_of seen.entry.now)) names.now) }
{
    let mut values = Vec::new(alloc);
    for name in names {
        values.push(value_of(app, *name, seen))?;
    }
    Ok(values)
}

// Whether two courses are the same.
fn same_course(course: Course, other: Course) -> bool
    ensures { IsTrue result → course ≡ other }
{
    match (course, other) {
        (Course::Runs, Course::Runs) => true,
        (Course::Trips, Course::Trips) => true,
        (Course::Down, Course::Down) => true,
        _ => false,
    }
}

// Whether a scan shows nothing new after the last one that is shown.
fn shows_nothing(last: Option<&Moment>, moment: &Moment) -> bool
    ensures { IsTrue result → Stays (option_map (λ m. frame_of m.now) last.entry) (frame_of moment.entry.now).shot }
{
    match last {
        Some(last) => {
            !moment.restarted
                && same_course(last.course, moment.course)
                && last.values.as_slice() == moment.values.as_slice()
        }
        None => false,
    }
}

impl Recording {
    // One more scan that is shown, or that would be if there were fewer.
    fn push(&mut self, moment: Moment) -> Result<(), Memory>
        ensures { OnOk result (film_of self.new ≡ with_frame (film_of self.old) (frame_of moment)) }
    {
        if self.moments.len() >= MOST_MOMENTS {
            self.is_cut = true;
            return Ok(());
        }
        self.wait_until(moment.now);
        self.moments.push(moment)?;
        Ok(())
    }

    // The last scan that is shown goes on up to a time in ms.
    fn wait_until(&mut self, now: u32)
        ensures { film_of self.new ≡ film_of self.old }
    {
        if let Some(last) = self.moments.last_mut() {
            last.wait = now.saturating_sub(last.now);
        }
    }
}

impl Recorder {
    /// Who takes the scans that show a change of these names, and those of which something is expected; before the
    /// first.
    pub(crate) fn new(alloc: Global, names: Vec<Name>, kept: Vec<Mark>) -> Recorder
        ensures { IsFresh names.items result }
    {
        Recorder {
            alloc,
            recording: Recording {
                names,
                moments: Vec::new(alloc),
                is_cut: false,
            },
            kept,
            scans: 0,
            end: 0,
            restarted: false,
            is_wanting: false,
        }
    }

    // The last scan as it may be shown.
    fn moment_of(&self, app: &App, seen: &Seen<'_>) -> Result<Moment, Memory>
        ensures { IfOk result (λ m. frame_of m ≡ frame_now app.now self.now (moment_of seen.entry.now)) }
    {
        let values = values_in(self.alloc, app, self.recording.names.as_slice(), seen)?;
        Ok(Moment {
            scan: self.scans,
            now: seen.now,
            wait: 0,
            restarted: self.restarted,
            course: course_of(seen.verdict),
            values,
        })
    }

    // Whether a scan is left out.
    fn leaves_out(&self, moment: &Moment) -> bool
        ensures { IsTrue result → Stays (last_frame (film_of self.now.recording).frames) (frame_of moment.entry.now).shot }
    {
        shows_nothing(self.recording.moments.as_slice().last(), moment)
            && self
                .kept
                .as_slice()
                .binary_search_by_key(&self.scans, |mark| mark.scan)
                .is_err()
    }

    // Shows the last scan where it shows a change or is shown in any case.
    fn show(&mut self, app: &App, seen: &Seen<'_>) -> Result<(), Memory>
        ensures shows { OnOk result (Shows (film_of self.old.recording)
            (frame_now app.now self.old (moment_of seen.entry.now)) (film_of self.new.recording)) }
        ensures scans { self.new.scans ≡ self.old.scans }
        ensures wanting { self.new.is_wanting ≡ self.old.is_wanting }
    {
        let moment = self.moment_of(app, seen)?;
        if self.leaves_out(&moment) {
            return Ok(());
        }
        self.recording.push(moment)
    }

    /// Takes a scan.
    pub(crate) fn take(&mut self, app: &App, seen: &Seen<'_>)
        ensures { TakesScan app.now self.old (moment_of seen.entry.now) self.new }
    {
        self.scans = self.scans.saturating_add(1);
        self.end = seen.now;
        match self.show(app, seen) {
            Ok(()) => (),
            Err(Memory) => self.is_wanting = true,
        }
        self.restarted = false;
    }

    /// Takes a restart.
    pub(crate) fn take_restart(&mut self)
        ensures { TakesRestart self.old self.new }
    {
        self.restarted = true;
    }

    /// What was recorded. An error: memory ran out for a scan.
    pub(crate) fn finish(self) -> Result<Recording, Memory>
        ensures film { IfOk result (λ recording. film_of recording ≡ film_of self.recording) }
        ensures wanting { OnOk result (self.is_wanting ≡ false) }
    {
        if self.is_wanting {
            return Err(Memory);
        }
        let Recorder {
            alloc: _,
            mut recording,
            kept,
            scans: _,
            end,
            restarted: _,
            is_wanting: _,
        } = self;
        let _ = kept;
        if !recording.is_cut {
            recording.wait_until(end);
        }
        Ok(recording)
    }
}
