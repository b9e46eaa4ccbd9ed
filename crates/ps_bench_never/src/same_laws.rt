//! What holds of all that is told of two applications.

ghost use Rattle.ps_bench_never.specs.Naming.{NamedDiffers};
ghost use Rattle.ps_bench_never.specs.Verdicts.{IsSoOfTwo};

/// What is told of a difference names an output that is TRUE in one application and FALSE in the other after the scans
/// that are told.
pub fn the_named_output_differs()
    ensures { NamedDiffers }
{}

/// What is told of two applications is so: no output differs in any scan of any list; or one does after a shortest list,
/// with times of 32 bits; or it is open, as many pairs of states were held as may be, or the times of a shortest list pass
/// 32 bits, which is told.
pub fn two_are_as_told()
    ensures { IsSoOfTwo }
{}
