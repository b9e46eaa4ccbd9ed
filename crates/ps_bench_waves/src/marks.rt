// What marks the next scan of a run.

ghost use Rattle.std.specs.Prelude.{◌≡◌};
ghost use Rattle.ps_bench_waves.specs.Marks.{behind_restart, behind_scan, unmarked};

/// What marks the next scan of a run.
#[derive(Clone, Copy)]
pub struct Marks {
    /// There is no scan before it since the beginning or a restart.
    pub is_first: bool,
    /// It is the first one after a restart.
    pub is_restarted: bool,
}

impl Marks {
    /// Before the first scan.
    pub fn unmarked() -> Marks
        ensures { result ≡ unmarked }
    {
        Marks {
            is_first: true,
            is_restarted: false,
        }
    }

    /// After a scan.
    pub fn behind_scan() -> Marks
        ensures { result ≡ behind_scan }
    {
        Marks {
            is_first: false,
            is_restarted: false,
        }
    }

    /// After a restart.
    pub fn behind_restart() -> Marks
        ensures { result ≡ behind_restart }
    {
        Marks {
            is_first: true,
            is_restarted: true,
        }
    }
}
