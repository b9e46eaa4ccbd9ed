// What holds of all case files.

ghost use Rattle.std.specs.Prelude.{◌≡◌, ◌≤◌, ◌+◌, ◌++◌, ◌∷◌, ℕ, List, Bool, All, IfOk, length, flat_map, decimal};
ghost use Rattle.std.specs.Prelude.{codes};
ghost use Rattle.std.specs.List.{range_with_len};
ghost use Rattle.ps_base.specs.declared.limits.TheConstants.{LARGEST_TIME, LONGEST_TRACE_LINE};
ghost use Rattle.ps_model.specs.declared.channel.ImageSizes.{ImageSizes};
ghost use Rattle.ps_model.specs.Meaning.{Item, Meaning, Past, Runs};
ghost use Rattle.ps_model.specs.Network.{Network, input_count};
ghost use Rattle.ps_model.specs.Sound.{IsSound};
ghost use Rattle.ps_model.specs.declared.channel.Fault.{Fault as Strike};
ghost use Rattle.ps_model.specs.Scanning.{State};
ghost use Rattle.ps_trace.specs.Words.{fields};
ghost use Rattle.ps_trace.specs.Trace.{line_said};
ghost use Rattle.ps_trace.specs.Trace.Said.{restarts, scans, skips};
ghost use Rattle.ps_trace.specs.Header.{header_said, input_names};
ghost use Rattle.ps_trace.specs.Header.Header.{places};
ghost use Rattle.ps_trace.specs.Scans.{inputs_of, scans_of};
ghost use Rattle.ps_trace.specs.Scans.End.{whole};
ghost use Rattle.ps_bench_cases.specs.declared.case.Case.{Case};
ghost use Rattle.ps_bench_cases.specs.declared.case.CaseFile.{CaseFile};
ghost use Rattle.ps_bench_cases.specs.Meant.{whole_case, items_of};
ghost use Rattle.ps_bench_cases.specs.Runnable.{IsRunnable};
ghost use Rattle.ps_bench_cases.specs.File.{cases_of};
ghost use Rattle.ps_bench_cases.specs.Expanded.{expanded, fault_line, header_line, name_line, value_text};
ghost use Rattle.ps_bench_cases.specs.Joined.{later, later_past, items_of_file};
ghost use Rattle.ps_bench_cases.specs.Legible.{IsLegible, IsSeen};
ghost use Rattle.ps_bench_cases.specs.Traced.{HasWords};

/// Each case that a text says can be run.
pub fn cases_can_be_run()
    ensures { (net : Network) (sizes : ImageSizes) (text : List ℕ) →
        IfOk (cases_of net sizes text) (λ file.
        All (λ (case : Case). IsRunnable net (whole_case file case)) file.cases) }
{}

/// Blocks know differences of times alone: the same scans so much later, after the same ones so much later, have the
/// same states.
pub fn times_may_be_shifted()
    ensures { (net : Network) (past : Past) (items : List Item) (ws : List State) (by : ℕ) →
        Runs net past items ws → Runs net (later_past by past) (later by items) ws }
{}

/// What the items of all cases in one trace mean is what each case means alone, one case after the other.
pub fn cases_mean_the_same_in_one_trace()
    ensures { (net : Network) (file : CaseFile) (states : Case → List State) →
        All (λ case. Meaning net (items_of net (whole_case file case)) (states case)) file.cases →
        Meaning net (items_of_file net file) (flat_map states file.cases) }
{}

/// A scan line of the trace of all cases, without its line feed, is read as the scan that it was written for, after
/// one at
/// this time or before.
pub fn scan_lines_are_read()
    ensures { (now last : ℕ) (ins : List Bool) → now ≤ LARGEST_TIME → last ≤ now →
        line_said (length ins) last (fields (decimal now ++ flat_map value_text ins)) ≡ scans now ins }
{}

/// The header of the trace of all cases, without its line feed, is read as the inputs in their order, where their names
/// are words: then a scan has the values of its line.
pub fn header_is_read()
    ensures places { (net : Network) → IsSound net → HasWords net →
        header_said (input_names net) (fields (codes "time" ++ flat_map (λ s. 32 ∷ s.name) net.inputs))
        ≡ places (range_with_len 0 (input_count net)) }
    ensures values { (ins : List Bool) → inputs_of (range_with_len 0 (length ins)) ins ≡ ins }
{}

/// The other lines of that trace: names of cases and faults are passed over, and a restart is one.
pub fn other_lines_are_read()
    ensures names { (inputs last : ℕ) (name : List ℕ) → line_said inputs last (fields (name_line name)) ≡ skips }
    ensures faults { (inputs last : ℕ) (fault : Strike) → line_said inputs last (fields (fault_line fault)) ≡ skips }
    ensures restart { (inputs last : ℕ) → line_said inputs last (fields (codes "restart")) ≡ restarts }
{}

/// The trace of all cases is read as the scans and restarts that the cases mean, each case as much later as it begins,
/// up to its end. That of a file that was read is, where the names of inputs are words and fit into a line: names of
/// cases and faults are one line each, and no scan is too late.
pub fn expanded_trace_is_read()
    ensures items { (net : Network) (file : CaseFile) → IsSound net →
        All (λ (case : Case). IsRunnable net (whole_case file case)) file.cases → IsLegible net file →
        scans_of (expanded net file) net ≡ record { items = items_of_file net file; end = whole } }
    ensures legible { (net : Network) (sizes : ImageSizes) (text : List ℕ) → All IsSeen (input_names net) →
        length (header_line net) ≤ LONGEST_TRACE_LINE + 1 → IfOk (cases_of net sizes text) (IsLegible net) }
    // So what is read of it means what each case means alone, one case after the other.
    ensures means { (net : Network) (file : CaseFile) (states : Case → List State) → IsSound net →
        All (λ (case : Case). IsRunnable net (whole_case file case)) file.cases → IsLegible net file →
        All (λ case. Meaning net (items_of net (whole_case file case)) (states case)) file.cases →
        Meaning net (scans_of (expanded net file) net).items (flat_map states file.cases) }
{}
