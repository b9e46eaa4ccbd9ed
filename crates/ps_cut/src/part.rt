// A part of an application.

use ps_model::App;

/// Where a signal of a part has its value from.
#[derive(Clone, Copy)]
pub enum Origin {
    /// It has the value of this signal of the application in each scan.
    Now(u16),
    /// It is an input with the value that this signal had after the scan before, and FALSE in a first scan.
    Before(u16),
}

/// A part of an application: an application of its own, with where each of its signals has its value from, and which
/// instance each of its instances is, in the order of their numbers.
#[derive(Drop)]
pub struct Part {
    /// The part as an application.
    pub app: App,
    /// For each signal of the part, where it has its value from.
    pub origins: Vec<Origin>,
    /// For each instance of the part, the number of the instance that it is.
    pub instances: Vec<u16>,
}

/// An application that is said to be a part of another one.
#[derive(Clone, Copy)]
pub struct Claim<'a> {
    /// The whole.
    pub whole: &'a App,
    /// The part.
    pub part: &'a App,
    /// For each signal of the part, where it has its value from.
    pub origins: &'a [Origin],
    /// For each instance of the part, the number of the instance that it is.
    pub instances: &'a [u16],
}
