// Why an application has no certificate.

ghost use Rattle.std.specs.Prelude.{◌≡◌};
ghost use Rattle.ps_flow.specs.declared.refusal.PinFail.TheVariants.{Memory as NoMemoryAtPin};
ghost use Rattle.ps_flow.specs.declared.refusal.StepFail.TheVariants.{Memory as NoMemoryInStep};

use ps_base::{Memory, Rule};
use thiserror::Error;

/// The first step that SAFEBOOL flow refuses, by S1 to S4, and the number of its first such pin in the pin table.
/// `pin` is None for S1, where the step is an assignment, and the pin's number otherwise.
#[derive(Clone, Copy, Debug)]
pub struct FlowRefusal {
    pub rule: Rule,
    pub step: u16,
    pub pin: Option<u8>,
}

/// Why an application has no certificate: memory runs out, or SAFEBOOL flow refuses it.
#[derive(Clone, Copy, Debug, Error)]
pub enum FlowFail {
    #[error("memory is wanting")]
    Memory,
    #[error("SAFEBOOL flow refuses the application")]
    Refused(FlowRefusal),
}

// Why what stands at a pin has no lines.
#[derive(Clone, Copy)]
pub(crate) enum PinFail {
    Memory,
    Breaks(Rule),
}

// Why a step has no lines: the rule, and the pin where the step is a call.
#[derive(Clone, Copy)]
pub(crate) enum StepFail {
    Memory,
    Breaks(Rule, Option<u8>),
}

impl From<Memory> for PinFail {
    ghost from_gives = { λ _ fail. fail ≡ NoMemoryAtPin };

    fn from(_memory: Memory) -> PinFail {
        PinFail::Memory
    }
}

impl From<Memory> for StepFail {
    ghost from_gives = { λ _ fail. fail ≡ NoMemoryInStep };

    fn from(_memory: Memory) -> StepFail {
        StepFail::Memory
    }
}
