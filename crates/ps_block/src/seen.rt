//! What the guards of a table see.

ghost use Rattle.std.specs.Prelude.{◌≡◌, ◌<◌, ◌-◌, nat_le};
ghost use Rattle.ps_model.specs.PinBits.{pin_of};

use crate::block::Pins;

/// What the guards of a step see.
#[derive(Clone, Copy)]
pub struct Seen {
    /// The Boolean input pins: bit j is pin j.
    pub bits: u32,
    /// Reset is TRUE and was FALSE in the last step.
    pub edge: bool,
    /// Reset is TRUE and was TRUE in the last step.
    pub static_reset: bool,
    /// The auxiliary input is TRUE and was FALSE in the last step.
    pub rise: bool,
    /// The age of the state is at least the limit.
    pub elapsed: bool,
}

impl Seen {
    ghost use Rattle.ps_block.specs.Seeing.{seen_at, with_reset, with_auxiliary};

    /// What a kind sees that has neither Reset nor an auxiliary input, in a state that was entered or
    /// restarted at the time `since`, in ms.
    pub fn at(pins: Pins, since: u32) -> Seen
        ensures { result ≡ seen_at pins.bits (nat_le pins.limit (pins.now - since)) }
    {
        Seen {
            bits: pins.bits,
            edge: false,
            static_reset: false,
            rise: false,
            elapsed: pins.now.saturating_sub(since) >= pins.limit,
        }
    }

    /// The same with Reset at pin j, which had the value `last` in the last step.
    pub fn with_reset(self, j: u32, last: bool) -> Seen
        requires { j < 32 }
        ensures { result ≡ with_reset self j last }
    {
        let reset = self.pin(j);
        Seen {
            edge: reset && !last,
            static_reset: reset && last,
            ..self
        }
    }

    /// The same with an auxiliary input at pin j, which had the value `last` in the last step.
    pub fn with_auxiliary(self, j: u32, last: bool) -> Seen
        requires { j < 32 }
        ensures { result ≡ with_auxiliary self j last }
    {
        let auxiliary = self.pin(j);
        Seen {
            rise: auxiliary && !last,
            ..self
        }
    }

    /// The value of Boolean input pin j.
    pub fn pin(&self, j: u32) -> bool
        requires { j < 32 }
        ensures { result ≡ pin_of self.entry.now.bits j }
    {
        (self.bits >> j) & 1 == 1
    }
}
