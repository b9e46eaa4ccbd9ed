// The number of a scan of a run.

ghost use Rattle.std.specs.Prelude.{◌≡◌};
ghost use Rattle.ps_bench_waves.specs.Counts.{anew_count, first_count, next_count};

/// The number of a scan of a run, counted over its restarts.
#[derive(Clone, Copy)]
pub struct Count {
    /// The number of the scan, counted from 1. The largest number stays.
    pub number: u64,
    /// Whether it is the first after a restart.
    pub is_restarted: bool,
}

impl Count {
    /// The first scan.
    pub fn first() -> Count
        ensures { result ≡ first_count }
    {
        Count {
            number: 1,
            is_restarted: false,
        }
    }

    /// The scan after this one.
    pub fn next(self) -> Count
        ensures { result ≡ next_count self }
    {
        Count {
            number: self.number.saturating_add(1),
            is_restarted: false,
        }
    }

    /// The same scan, after a restart.
    pub fn anew(self) -> Count
        ensures { result ≡ anew_count self }
    {
        Count {
            number: self.number,
            is_restarted: true,
        }
    }
}
