// What holds of the trace of every log.

ghost use Rattle.std.specs.Prelude.{◌≡◌, ◌≤◌, ◌+◌, ℕ, List, All, length};
ghost use Rattle.ps_base.specs.declared.limits.TheConstants.{LARGEST_TRACE, LONGEST_TRACE_LINE};
ghost use Rattle.ps_model.specs.Network.{Network};
ghost use Rattle.ps_model.specs.Sound.{IsSound};
ghost use Rattle.ps_trace.specs.Header.{input_names};
ghost use Rattle.ps_trace.specs.Scans.{scans_of};
ghost use Rattle.ps_trace.specs.Scans.End.{whole as whole_trace};
ghost use Rattle.ps_bench_cases.specs.Expanded.{header_line};
ghost use Rattle.ps_bench_cases.specs.Legible.{IsSeen};
ghost use Rattle.ps_bench_logs.specs.Log.{log_of};
ghost use Rattle.ps_bench_logs.specs.Recording.{trace_text};

/// The trace of a log is read as the scans and restarts that the log means, in order and up to its end, where the names
/// of inputs are words and fit into a line, and it is no larger than a trace may be.
pub fn recorded_trace_is_read()
    ensures { (net : Network) (text : List ℕ) → IsSound net → All IsSeen (input_names net) →
        length (header_line net) ≤ LONGEST_TRACE_LINE + 1 →
        length (trace_text net (log_of net text).items) ≤ LARGEST_TRACE →
        scans_of (trace_text net (log_of net text).items) net ≡ record { items = (log_of net text).items; end = whole_trace } }
{}
