//! SF_ModeSelector (PLCopen TC5, in the profile of this project).

ghost use Rattle.std.specs.Prelude.{◌≡◌, ◌<◌, true, false, IfSome, IfNone};
ghost use Rattle.std.specs.List.{range_with_len};
ghost use Rattle.ps_model.specs.Blocks.{next, latched, modes_on, lowest_on};
ghost use Rattle.ps_model.specs.Stored.{is_state, is_mode};
ghost use Rattle.ps_model.specs.declared.kind.Kind.TheVariants.{ModeSelector as ModeSelectorKind};
ghost use Rattle.ps_model.specs.PinBits.{pin_of};
ghost use Rattle.ps_block.specs.Seeing.{conditions_of};
ghost use Rattle.ps_operator.specs.ModeSelectorStates.{number_of, code_of, mode_of, bits_of};

use ps_block::{Image, Outs, Pins, SafetyBlock, Seen};
use ps_model::Kind;

/// One of the eight modes.
#[derive(Clone, Copy, PartialEq)]
pub enum Mode {
    Mode0,
    Mode1,
    Mode2,
    Mode3,
    Mode4,
    Mode5,
    Mode6,
    Mode7,
}

/// A state of the table, one for each DiagCode; the two that have latched a mode carry it.
#[derive(Clone, Copy, PartialEq)]
pub enum Phase {
    Idle,
    ModeChanged,
    Selected(Mode),
    Locked(Mode),
    ShortCircuit,
    OpenCircuit,
    ResetError1,
    ResetError2,
}

/// The state of a mode selector: the state of the table, the time in ms at which it was entered or
/// restarted, and the Reset and the S_SetMode of the last step.
#[derive(Clone, Copy)]
pub struct ModeSelectorState {
    phase: Phase,
    since: u32,
    last_reset: bool,
    last_set_mode: bool,
}

impl Mode {
    // Its number.
    fn number(self) -> u8
        ensures number { result ≡ number_of self }
        ensures few { result < 8 }
    {
        match self {
            Mode::Mode0 => 0,
            Mode::Mode1 => 1,
            Mode::Mode2 => 2,
            Mode::Mode3 => 3,
            Mode::Mode4 => 4,
            Mode::Mode5 => 5,
            Mode::Mode6 => 6,
            Mode::Mode7 => 7,
        }
    }

    // The mode with a number.
    fn at(number: u8) -> Mode
        requires { number < 8 }
        ensures { number_of result ≡ number }
    {
        match number {
            0 => Mode::Mode0,
            1 => Mode::Mode1,
            2 => Mode::Mode2,
            3 => Mode::Mode3,
            4 => Mode::Mode4,
            5 => Mode::Mode5,
            6 => Mode::Mode6,
            _ => Mode::Mode7,
        }
    }

    // The lowest TRUE mode, and mode 0 where none is TRUE.
    fn lowest(seen: Seen) -> Mode
        ensures { number_of result ≡ lowest_on (range_with_len 0 8) (pin_of seen.bits) }
    {
        if seen.pin(1) {
            Mode::Mode0
        } else if seen.pin(2) {
            Mode::Mode1
        } else if seen.pin(3) {
            Mode::Mode2
        } else if seen.pin(4) {
            Mode::Mode3
        } else if seen.pin(5) {
            Mode::Mode4
        } else if seen.pin(6) {
            Mode::Mode5
        } else if seen.pin(7) {
            Mode::Mode6
        } else if seen.pin(8) {
            Mode::Mode7
        } else {
            Mode::Mode0
        }
    }
}

// How many modes are TRUE.
fn mode_count(seen: Seen) -> usize
    ensures { result ≡ modes_on (pin_of seen.bits) }
{
    (0..8).filter(|mode| seen.pin(*mode + 1)).count()
}

impl Phase {
    // The DiagCode.
    fn code(self) -> u16
        ensures { result ≡ code_of self }
    {
        match self {
            Phase::Idle => 0,
            Phase::ModeChanged => 0x8005,
            Phase::Selected(_) => 0x8000,
            Phase::Locked(_) => 0x8004,
            Phase::ShortCircuit => 0xC001,
            Phase::OpenCircuit => 0xC002,
            Phase::ResetError1 => 0xC003,
            Phase::ResetError2 => 0xC004,
        }
    }

    // The latched mode, and 0 where none is latched.
    fn mode(self) -> u8
        ensures mode { result ≡ mode_of self }
        ensures few { result < 8 }
    {
        match self {
            Phase::Selected(mode) | Phase::Locked(mode) => mode.number(),
            _ => 0,
        }
    }

    // The safe outputs as bits.
    fn safe(self) -> u16
        ensures { result ≡ bits_of self }
    {
        match self {
            Phase::Selected(mode) | Phase::Locked(mode) => {
                let selected: u16 = match mode {
                    Mode::Mode0 => 1,
                    Mode::Mode1 => 2,
                    Mode::Mode2 => 4,
                    Mode::Mode3 => 8,
                    Mode::Mode4 => 16,
                    Mode::Mode5 => 32,
                    Mode::Mode6 => 64,
                    Mode::Mode7 => 128,
                };
                selected + 256
            }
            _ => 0,
        }
    }

    // The state with a DiagCode and a latched mode, and None where the table has none.
    #[tactic(auto, unfolding(ps_model::specs::Blocks::block))]
    fn with_code(code: u16, mode: u8) -> Option<Phase>
        requires { is_mode ModeSelectorKind code mode ≡ true }
        ensures code { IfSome result (λ p. code_of p ≡ code) }
        ensures mode { IfSome result (λ p. mode_of p ≡ mode) }
        ensures state { IfSome result (λ p. is_state ModeSelectorKind code ≡ true) }
        ensures none { IfNone result (is_state ModeSelectorKind code ≡ false) }
    {
        Some(match code {
            0 => Phase::Idle,
            0x8005 => Phase::ModeChanged,
            0x8000 => Phase::Selected(Mode::at(mode)),
            0x8004 => Phase::Locked(Mode::at(mode)),
            0xC001 => Phase::ShortCircuit,
            0xC002 => Phase::OpenCircuit,
            0xC003 => Phase::ResetError1,
            0xC004 => Phase::ResetError2,
            _ => return None,
        })
    }

    // The next state, by the table.
    #[tactic(auto, unfolding(ps_model::specs::Blocks::next, ps_model::specs::Blocks::block, ps_model::specs::Blocks::latched))]
    fn next(self, seen: Seen) -> Phase
        ensures code { code_of result ≡ next ModeSelectorKind (code_of self) (conditions_of seen (mode_of self)) }
        ensures mode { mode_of result ≡ latched ModeSelectorKind (pin_of seen.bits) (code_of self) (code_of result) (mode_of self) }
    {
        let activate = seen.pin(0);
        let unlock = seen.pin(9);
        let auto = seen.pin(11);
        let reset = seen.pin(12);
        let count = mode_count(seen);
        let exact = count == 1 && seen.pin(u32::from(self.mode()) + 1);
        match self {
            _ if !activate => Phase::Idle,
            Phase::Idle => Phase::ModeChanged,
            Phase::ModeChanged if count >= 2 => Phase::ShortCircuit,
            Phase::ModeChanged if count == 0 && seen.elapsed => Phase::OpenCircuit,
            Phase::ModeChanged if count == 1 && (auto || seen.rise) => {
                Phase::Selected(Mode::lowest(seen))
            }
            Phase::Selected(_) if !exact => Phase::ModeChanged,
            Phase::Selected(mode) if !unlock => Phase::Locked(mode),
            Phase::Locked(_) if unlock && !exact => Phase::ModeChanged,
            Phase::Locked(mode) if unlock => Phase::Selected(mode),
            Phase::ShortCircuit if seen.edge => Phase::ModeChanged,
            Phase::ShortCircuit if seen.static_reset => Phase::ResetError1,
            Phase::OpenCircuit if seen.edge => Phase::ModeChanged,
            Phase::OpenCircuit if seen.static_reset => Phase::ResetError2,
            Phase::ResetError1 if !reset => Phase::ShortCircuit,
            Phase::ResetError2 if !reset => Phase::OpenCircuit,
            _ => self,
        }
    }
}

/// SF_ModeSelector (PLCopen TC5, in the profile of this project).
pub struct ModeSelector;

impl SafetyBlock for ModeSelector {
    ghost use Rattle.ps_operator.specs.ModeSelectorStates.{kept_of};

    const KIND: Kind = Kind::ModeSelector;

    ghost KIND = { ModeSelectorKind };

    type State = ModeSelectorState;

    ghost kept = { kept_of };

    fn fresh() -> ModeSelectorState {
        ModeSelectorState {
            phase: Phase::Idle,
            since: 0,
            last_reset: false,
            last_set_mode: false,
        }
    }

    #[inline(always)]
    #[tactic(auto, using(crate::proofs::Modes::mode_shows), unfolding(ps_model::specs::Blocks::block))]
    fn step(state: &mut ModeSelectorState, pins: Pins) -> Outs {
        let seen = Seen::at(pins, state.since)
            .with_reset(12, state.last_reset)
            .with_auxiliary(10, state.last_set_mode);
        let phase = state.phase.next(seen);
        let restarts = phase == Phase::ModeChanged && mode_count(seen) != 0;
        if phase.code() != state.phase.code() || restarts {
            state.since = pins.now;
        }
        state.phase = phase;
        state.last_reset = seen.pin(12);
        state.last_set_mode = seen.pin(10);
        Outs::of(phase.code(), phase.safe())
    }

    fn store(state: &ModeSelectorState, into: &mut [u8; 16]) {
        let image = Image {
            code: state.phase.code(),
            last_reset: state.last_reset,
            last_auxiliary: state.last_set_mode,
            mode: state.phase.mode(),
            time: state.since,
        };
        image.write(into);
    }

    fn load(from: &[u8; 16]) -> Option<ModeSelectorState> {
        let image = Image::read(Kind::ModeSelector, from)?;
        let phase = Phase::with_code(image.code, image.mode)?;
        Some(ModeSelectorState {
            phase,
            since: image.time,
            last_reset: image.last_reset,
            last_set_mode: image.last_auxiliary,
        })
    }
}
