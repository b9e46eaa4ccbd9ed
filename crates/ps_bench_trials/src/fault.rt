// The fault that a trial makes.

ghost use Rattle.std.specs.Prelude.{◌≡◌, ◌∷◌, [], IfOk};
ghost use Rattle.ps_bench_trials.specs.Faults.{code_of, fault_by};

use crate::byte_left;
use crate::drawing::Trial;
use ps_base::{Bytes, Memory};
use ps_model::{Channel, Fault};
use std::alloc::Global;

// The code of a channel.
fn code_of<'a>(code_a: &'a [u8], code_b: &'a [u8], channel: Channel) -> &'a [u8]
    ensures { result.now ≡ code_of code_a.now code_b.now channel }
{
    match channel {
        Channel::A => code_a,
        Channel::B => code_b,
    }
}

// One byte.
fn one_byte(alloc: Global, byte: u8) -> Result<Bytes, Memory>
    ensures { IfOk result (λ bytes. bytes ≡ byte ∷ []) }
{
    Bytes::from_slice(alloc, &[byte])
}

/// The fault of a trial, where these are the codes of channel A and of channel B as compiled. `Err` comes only where
/// memory runs out.
///
/// In code the byte that stands at the place before any fault is the compiled one, so some of its bits are turned; in
/// cells the byte that was drawn is put, whatever stands there.
pub fn fault_of(alloc: Global, trial: &Trial, code_a: &[u8], code_b: &[u8]) -> Result<Fault, Memory>
    ensures { IfOk result (λ fault. fault ≡ fault_by code_a.now code_b.now trial.now) }
{
    let code = code_of(code_a, code_b, trial.channel);
    let byte = byte_left(code, trial.region, trial.at, trial.bits);
    Ok(Fault {
        scan: trial.scan,
        turn: trial.turn,
        channel: trial.channel,
        region: trial.region,
        at: trial.at,
        bytes: one_byte(alloc, byte)?,
    })
}
