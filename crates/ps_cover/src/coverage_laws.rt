//! What is told is so of the traces.

ghost use Rattle.ps_cover.specs.OfTraces.{TextIsOfTraces};

/// After the scans of some traces, each begun anew, the text is that of what these traces show.
pub fn text_is_of_traces()
    ensures { TextIsOfTraces }
{}
