// Which cases passed, and which statements of a case are from a line on.

ghost use Rattle.std.specs.Prelude.{◌≡◌};
ghost use Rattle.ps_bench_judge.specs.Passed.{failed_behind, has_passed, is_from};

/// Whether a case with so many failures passed.
pub fn has_passed(failures: usize) -> bool
    ensures { result ≡ has_passed failures }
{
    failures == 0
}

/// How many cases failed, after one more that passed or failed. The largest number stays.
pub fn failed_behind(failed: u64, passed: bool) -> u64
    ensures { result ≡ failed_behind failed passed }
{
    if passed {
        failed
    } else {
        failed.saturating_add(1)
    }
}

/// Whether a line is from this one on, counted from 1.
pub fn is_from(first: u32, line: u32) -> bool
    ensures { result ≡ is_from first line }
{
    line >= first
}
