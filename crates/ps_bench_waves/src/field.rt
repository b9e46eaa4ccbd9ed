// A value that is watched, from one scan to the next.

ghost use Rattle.std.specs.Prelude.{◌≡◌, ◌==◌, false};
ghost use Rattle.std.specs.Option.{option_map_or};
ghost use Rattle.ps_bench_waves.specs.Fields.{in_next};

/// A value that is watched, with the one after the scan before.
#[derive(Clone, Copy)]
pub struct Field {
    /// Its value after the scan before, if there was one since the beginning or a restart.
    pub before: Option<u16>,
    /// Its value in the last scan; anything before the first one.
    pub value: u16,
}

impl Field {
    /// A field before the first scan.
    pub fn new() -> Field {
        Field {
            before: None,
            value: 0,
        }
    }

    /// The same in the next scan, which is or is not a first one, and in which it has this value.
    pub fn in_next(self, is_first: bool, value: u16) -> Field
        ensures { result ≡ in_next is_first value self }
    {
        let before = if is_first { None } else { Some(self.value) };
        Field { before, value }
    }

    /// Whether the value stayed as it was after the scan before.
    pub fn stays(self) -> bool
        ensures { result ≡ option_map_or (λ before. before == self.value) self.before false }
    {
        match self.before {
            Some(before) => before == self.value,
            None => false,
        }
    }
}
