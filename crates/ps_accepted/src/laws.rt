// The laws of sources.

ghost use Rattle.ps_accepted.specs.Source.{HasOneReading, IsResolvedAs, IsAcceptedAs};
ghost use Rattle.ps_accepted.specs.Demanding.{IsDemandableAs};

/// Every text has one reading at most: by the rules L, P, B and N, by these and the rules S, and by these and the rule
/// M1. It stands for one application or has one first refusal, and not both.
pub fn one_reading()
    ensures resolved { HasOneReading IsResolvedAs }
    ensures accepted { HasOneReading IsAcceptedAs }
    ensures demanded { HasOneReading IsDemandableAs }
{}
