// That a stream is as a file, and a run of it that of a file.

ghost use Rattle.ps_bench_watch.specs.Fault.{NoneTrips, SaysAsFault, SaysAsRun};
ghost use Rattle.ps_bench_watch.specs.Streaming.{LinesOfFile};
ghost use Rattle.ps_bench_watch.specs.Watch.{SaysAsWatch};

use ps_model::App;
use ps_top::laws::{no_fault_no_trip, scans_in_order};
use ps_world::laws::quiet_runs_release;

/// What `live` wrote by report lines of the first lines of a stream, however many they are, is what `run` writes of a
/// trace with just these lines, and `fault` with a file that has no faults: the same bytes, and after them the line of
/// a refusal where the last line is refused, which `live` writes as it stops. None of their scans trips.
pub fn live_is_fault(app: &App)
    ensures run { SaysAsRun app.now }
    ensures fault { SaysAsFault app.now }
    ensures none_trips { NoneTrips app.now }
{
    app.sound();
    quiet_runs_release(app);
    scans_in_order();
    no_fault_no_trip();
}

/// What `live --names` wrote of the first lines of a stream, however many they are, is what `watch` writes of a trace
/// with just these lines, where neither names nor faults are given to it: the same bytes, and after them the line of a
/// refusal where the last line is refused, which `live` writes as it stops.
pub fn live_is_watch(app: &App)
    ensures { SaysAsWatch app.now }
{
    app.sound();
}

/// Where a file could have the bytes of a stream, the lines of both are the same, and so are their items.
pub fn lines_of_file()
    ensures { LinesOfFile }
{}
