// When the scan before was.

ghost use Rattle.std.specs.Prelude.{◌≡◌, None};
ghost use Rattle.ps_cover.specs.Clock.{since};

/// When the scan before was.
#[derive(Clone, Copy)]
pub struct Clock {
    /// Its time in ms, if there was one since the beginning or a restart.
    pub last: Option<u32>,
}

impl Clock {
    /// The ms that passed since the scan before, if there was one; else 0.
    pub fn passed(self, now: u32) -> u32
        ensures { result ≡ since self.last now }
    {
        match self.last {
            Some(before) => now.saturating_sub(before),
            None => 0,
        }
    }

    /// Begins anew, as before the first scan.
    pub fn begin_anew(&mut self)
        ensures { self.new.last ≡ None }
    {
        self.last = None;
    }
}
