//! What holds of what `watch` writes of every run: a reader of each format gives the scans of the run back, and the
//! run's trace is read back from the log that is written of it.

ghost use Rattle.std.specs.Prelude.{◌≡◌, ◌++◌, ℕ, List, Some, false, length, map, true};
ghost use Rattle.std.specs.List.{AllByRecursion};
ghost use Rattle.ps_bench_names.specs.declared.name.Name.{Name};
ghost use Rattle.ps_bench_judge.specs.Moments.{Moment};
ghost use Rattle.ps_model.specs.Meaning.{Item};
ghost use Rattle.ps_model.specs.Network.{Network};
ghost use Rattle.ps_bench_waves.specs.ReadBack.{identifiers, seen};
ghost use Rattle.ps_bench_waves.specs.Reading.{scans_read};
ghost use Rattle.ps_bench_waves.specs.Dumped.{dump_text};
ghost use Rattle.ps_bench_waves.specs.Parts.{parts_of};
ghost use Rattle.ps_bench_watch.specs.Logged.{is_unbroken, logged};
ghost use Rattle.ps_bench_watch.specs.Objects.{objects_seen, values_read};
ghost use Rattle.ps_bench_watch.specs.Reread.{IsInBits, scans_held};
ghost use Rattle.ps_bench_watch.specs.Retraced.{LogMeansTrace, TraceComesBack};
ghost use Rattle.ps_bench_watch.specs.Rows.{rows_seen, table_read};
ghost use Rattle.ps_bench_waves.specs.Lines.{csv_names, head_text};
ghost use Rattle.ps_bench_waves.specs.declared.format.Format.TheVariants.{Csv, Json};
ghost use Rattle.ps_bench_waves.specs.Watching.{at_first, items_text};

use ps_bench_logs::recorded_trace_is_read;
use ps_bench_waves::read_back;
use ps_top::laws::scans_in_order;

/// A reader of the value changes that are written of a run gives each scan of it back, with its time, its number,
/// whether it is the first after a restart and whether it tripped, and the value of each name that is watched; and no
/// other scan. Times of 32 bits and DiagCodes of 16 are what every run has.
pub fn value_changes_are_read()
    ensures { (net : Network) (names : List Name) (items : List Item) (ms : List Moment) →
        AllByRecursion (IsInBits net) ms →
        scans_read (identifiers (length (parts_of names))) (dump_text net names items ms)
        ≡ map seen (scans_held net names (record { number = 1; is_restarted = false }) items ms) }
{
    read_back();
}

/// A reader of the CSV that is written of a run gives its table back: the names of the columns, and of each scan its
/// time, whether it is the first after a restart, whether it tripped, and the value of each name that is watched; and
/// no other row. Times of 32 bits and DiagCodes of 16 are what every run has.
pub fn rows_are_read()
    ensures { (net : Network) (names : List Name) (items : List Item) (ms : List Moment) →
        AllByRecursion (IsInBits net) ms →
        table_read (head_text net Csv names ++ items_text net Csv names at_first items ms)
        ≡ Some (record {
          names = csv_names net names;
          rows = map (λ row. Some row) (rows_seen net names false items ms);
        }) }
{}

/// A reader of the JSON that is written of a run gives each scan of it back, an object a line, with its time, whether
/// it is the first after a restart, whether it tripped, and the value of each name that is watched; and nothing else.
/// Times of 32 bits and DiagCodes of 16 are what every run has.
pub fn objects_are_read()
    ensures { (net : Network) (names : List Name) (items : List Item) (ms : List Moment) →
        AllByRecursion (IsInBits net) ms →
        values_read (head_text net Json names ++ items_text net Json names at_first items ms)
        ≡ map (λ value. Some value) (objects_seen net names false items ms) }
{}

/// The CSV that is written of a run with all names, whichever faults strike, means as a log just the scans of the run's
/// trace, with their times, the values of their inputs and the restarts, up to its end. Of restarts in a row it has
/// one, and none that no scan follows.
pub fn log_means_trace()
    ensures { LogMeansTrace }
{
    scans_in_order();
}

/// The trace that is written of this log is read as the same scans, up to its end.
pub fn trace_comes_back()
    ensures { TraceComesBack }
{
    scans_in_order();
    recorded_trace_is_read();
}

/// Without restarts these are the scans themselves.
pub fn logged_as_it_is()
    ensures { (items : List Item) → is_unbroken items ≡ true → logged false items ≡ items }
{}
