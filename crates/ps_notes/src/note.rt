// What a note says.

use ps_base::Place;

/// Something in an accepted application that is most likely not meant so. Instances, signals and steps have their
/// numbers in the application, and pins those of their kind.
#[derive(Clone, Copy)]
pub enum Note {
    /// Nothing stands at the pin Activate of an instance, so the block stays Idle.
    Idle {
        /// The number of the instance.
        instance: u16,
    },
    /// Nothing stands at the TIME pin of an instance, so the time is 0 ms.
    NoTime {
        /// The number of the instance.
        instance: u16,
        /// The number of the pin.
        pin: u8,
    },
    /// A signal is read by a step before the one that drives it, so that the value there is that of the scan before.
    Early {
        /// The number of the signal: an output, a local, or an output of an instance.
        signal: u16,
        /// The number of the first step that reads it.
        step: u16,
    },
    /// No step reads an input.
    Unread {
        /// The number of the input.
        signal: u16,
    },
    /// No step reads an output of an instance, but for the call of the instance itself.
    Unused {
        /// The number of the instance.
        instance: u16,
    },
    /// TRUE stands at the pin S_StartReset or S_AutoReset of an instance, so the block starts or restarts without a
    /// Reset.
    Restarts {
        /// The number of the instance.
        instance: u16,
        /// The number of the pin.
        pin: u8,
    },
    /// FALSE stands at the pin Activate of an instance, so the block stays Idle.
    Off {
        /// The number of the instance.
        instance: u16,
    },
    /// The TIME pin of an instance has the literal of 0 ms.
    Zero {
        /// The number of the instance.
        instance: u16,
        /// The number of the pin.
        pin: u8,
    },
    /// TRUE stands at the pin Reset of an instance, where it never rises.
    Static {
        /// The number of the instance.
        instance: u16,
        /// The number of the pin.
        pin: u8,
    },
    /// Both channels of an instance have the same signal.
    Joined {
        /// The number of the instance.
        instance: u16,
        /// The number of the first channel's pin; the second channel's is the next one.
        pin: u8,
    },
    /// Nothing or FALSE stands at each pin by which an instance comes to be enabled: Reset, S_StartReset, and
    /// S_AutoReset where that helps at the start.
    Never {
        /// The number of the instance.
        instance: u16,
    },
    /// A "not" of a pin of an instance is left out of demands, since what stands at the pin is no input, and no signal
    /// that is read before its step.
    Inverted {
        /// The number of the instance.
        instance: u16,
        /// The number of the pin.
        pin: u8,
    },
    /// No step reads a local.
    Loose {
        /// The number of the local.
        signal: u16,
    },
}

/// A note, and the place in the text at which it is told.
#[derive(Clone, Copy)]
pub struct Placed {
    /// The note.
    pub note: Note,
    /// The place; line 0 where none is known.
    pub place: Place,
}

/// What in a comment an editor shows otherwise than it is read.
#[derive(Clone, Copy)]
pub enum Oddity {
    /// A carriage return that ends no line: other editors show what stands after it as a line of its own.
    Return,
    /// A character that turns the direction of what is shown.
    Turn,
}

/// A comment that an editor shows otherwise than it is read.
#[derive(Clone, Copy)]
pub struct OddComment {
    /// What is odd in it.
    pub what: Oddity,
    /// The place of that byte; column 0 where the line alone is told.
    pub place: Place,
}
