// What is told of one scan.

use ps_ways::Ask;

/// A fact of one scan. Signals, instances, steps and pins are numbered from 0; "before" and "after" are before and
/// after the scan.
#[derive(Clone, Copy)]
pub enum Fact {
    /// A signal has this value after the scan.
    SignalIs {
        /// The number of the signal.
        signal: u16,
        /// Its value.
        value: bool,
    },
    /// A signal had this value before it: FALSE before a first scan.
    SignalWas {
        /// The number of the signal.
        signal: u16,
        /// Its value.
        value: bool,
    },
    /// A call reads this value at a Boolean pin.
    PinIs {
        /// The number of the step that calls.
        step: u16,
        /// The number of the pin among the input pins of the kind.
        pin: u8,
        /// Its value.
        value: bool,
    },
    /// What a guard can ask holds in a call, or does not.
    AskIs {
        /// The number of the step that calls.
        step: u16,
        /// What is asked.
        ask: Ask,
        /// Whether it holds.
        value: bool,
    },
    /// An instance is in this state after the scan.
    StateIs {
        /// The number of the instance.
        instance: u16,
        /// The DiagCode of the state.
        code: u16,
    },
    /// An instance was in this state before it: Idle before a first scan.
    StateWas {
        /// The number of the instance.
        instance: u16,
        /// The DiagCode of the state.
        code: u16,
    },
    /// The Reset of an instance was this in its last step.
    ResetWas {
        /// The number of the instance.
        instance: u16,
        /// Its value.
        value: bool,
    },
    /// The auxiliary input of an instance was this in its last step: S_SetMode or ProcessControl.
    AuxiliaryWas {
        /// The number of the instance.
        instance: u16,
        /// Its value.
        value: bool,
    },
    /// An SF_ModeSelector has latched this mode after the scan.
    ModeIs {
        /// The number of the instance.
        instance: u16,
        /// The mode, from 0 to 7.
        mode: u8,
    },
    /// An SF_ModeSelector had latched this mode before it.
    ModeWas {
        /// The number of the instance.
        instance: u16,
        /// The mode, from 0 to 7.
        mode: u8,
    },
}
