// The laws of the equations by names, and of texts with function blocks.

ghost use Rattle.ps_language_laws.specs.Laws.{NamesAreNumbers, NestedIsFlat, NestedRunsAreFlat, PathsAreApart};

/// Names are numbers: where a source stands for an application, a state solves the equations of a scan of the
/// application exactly where it has its sizes and is, by its names, what a scan of the source leaves.
pub fn names_are_numbers()
    ensures { NamesAreNumbers }
{}

/// Nested is flat: of a text of the grammar that breaks no rule on function blocks, where its flat source stands for an
/// application, a state solves the equations of a scan of the application exactly where it has its sizes and is, by its
/// dotted names, what a scan of the text leaves.
pub fn nested_is_flat()
    ensures { NestedIsFlat }
{}

/// Runs of scans and restarts of such a text mean what they mean of the application of its flat source.
pub fn nested_runs_are_flat()
    ensures { NestedRunsAreFlat }
{}

/// Paths of names of the grammar are told apart as they are written, since no such name has a dot.
pub fn paths_are_apart()
    ensures { PathsAreApart }
{}
