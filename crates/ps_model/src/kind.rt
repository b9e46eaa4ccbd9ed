// Types of pins and signals, and the kinds of function blocks.

ghost use Rattle.std.specs.Prelude.{◌≡◌, ◌≢◌, IfSome, IfNone, IsTrue, ◌↔◌, ◌≤◌, length};
ghost use Rattle.ps_model.specs.Blocks.{block, output_count};
ghost use Rattle.ps_base.specs.LetterCase.{SameName};
ghost use Rattle.ps_model.specs.declared.kind.Kind.{Kind};

/// The type of a pin or a signal: SAFEBOOL, BOOL or TIME (PLCopen TC5, IEC 61131-3).
#[derive(Clone, Copy, PartialEq)]
pub enum Ty {
    /// SAFEBOOL.
    Safe,
    /// BOOL.
    Bool,
    /// TIME, in ms.
    Time,
}

/// A kind of function block, of the thirteen that PLCopen TC5 names.
#[derive(Clone, Copy, PartialEq)]
pub enum Kind {
    /// SF_Equivalent.
    Equivalent,
    /// SF_Antivalent.
    Antivalent,
    /// SF_EmergencyStop.
    EmergencyStop,
    /// SF_ESPE.
    Espe,
    /// SF_ModeSelector.
    ModeSelector,
    /// SF_TwoHandControlTypeII.
    TwoHandTwo,
    /// SF_TwoHandControlTypeIII.
    TwoHandThree,
    /// SF_GuardMonitoring.
    GuardMonitoring,
    /// SF_GuardLocking.
    GuardLocking,
    /// SF_EnableSwitch.
    EnableSwitch,
    /// SF_SafetyRequest.
    SafetyRequest,
    /// SF_OutControl.
    OutControl,
    /// SF_EDM.
    Edm,
}

/// The number of a kind, from 1 to 13, which stands for it in code of the machines (profile).
#[tactic(auto, unfolding(crate::specs::Blocks::block))]
pub fn kind_number(kind: Kind) -> u8
    ensures { result ≡ (block kind).number }
{
    match kind {
        Kind::Equivalent => 1,
        Kind::Antivalent => 2,
        Kind::EmergencyStop => 3,
        Kind::Espe => 4,
        Kind::ModeSelector => 5,
        Kind::TwoHandTwo => 6,
        Kind::TwoHandThree => 7,
        Kind::GuardMonitoring => 8,
        Kind::GuardLocking => 9,
        Kind::EnableSwitch => 10,
        Kind::SafetyRequest => 11,
        Kind::OutControl => 12,
        Kind::Edm => 13,
    }
}

// The kind with a number.
#[tactic(auto, unfolding(crate::specs::Blocks::block))]
fn kind_at(number: u8) -> Kind
    requires low { 1 ≤ number }
    requires high { number ≤ 13 }
    ensures { (block result).number ≡ number }
{
    match number {
        1 => Kind::Equivalent,
        2 => Kind::Antivalent,
        3 => Kind::EmergencyStop,
        4 => Kind::Espe,
        5 => Kind::ModeSelector,
        6 => Kind::TwoHandTwo,
        7 => Kind::TwoHandThree,
        8 => Kind::GuardMonitoring,
        9 => Kind::GuardLocking,
        10 => Kind::EnableSwitch,
        11 => Kind::SafetyRequest,
        12 => Kind::OutControl,
        _ => Kind::Edm,
    }
}

/// The kind with a number, and None exactly where no kind has it.
#[tactic(auto, using(crate::proofs::KindNumbers::number_at_least, crate::proofs::KindNumbers::number_at_most))]
pub fn kind_numbered(number: u8) -> Option<Kind>
    ensures some { IfSome result (λ kind. (block kind).number ≡ number) }
    ensures none { IfNone result ((kind : Kind) → (block kind).number ≢ number) }
{
    if number < 1 || number > 13 {
        return None;
    }
    Some(kind_at(number))
}

/// The name of a kind, as PLCopen TC5 spells it.
#[tactic(auto, unfolding(crate::specs::Blocks::block))]
pub fn kind_name(kind: Kind) -> &'static str
    ensures { result.now ≡ (block kind).name }
{
    match kind {
        Kind::Equivalent => "SF_Equivalent",
        Kind::Antivalent => "SF_Antivalent",
        Kind::EmergencyStop => "SF_EmergencyStop",
        Kind::Espe => "SF_ESPE",
        Kind::ModeSelector => "SF_ModeSelector",
        Kind::TwoHandTwo => "SF_TwoHandControlTypeII",
        Kind::TwoHandThree => "SF_TwoHandControlTypeIII",
        Kind::GuardMonitoring => "SF_GuardMonitoring",
        Kind::GuardLocking => "SF_GuardLocking",
        Kind::EnableSwitch => "SF_EnableSwitch",
        Kind::SafetyRequest => "SF_SafetyRequest",
        Kind::OutControl => "SF_OutControl",
        Kind::Edm => "SF_EDM",
    }
}

// Whether this is the kind's name, without letter case.
fn is_named(kind: Kind, name: &[u8]) -> bool
    ensures { IsTrue result ↔ SameName (block kind).name name.now }
{
    kind_name(kind).as_bytes().eq_ignore_ascii_case(name)
}

/// The kind with this name, without letter case (IEC 61131-3), and None exactly where no kind has
/// it.
pub fn kind_named(name: &[u8]) -> Option<Kind>
    ensures some { IfSome result (λ kind. SameName (block kind).name name.now) }
    ensures none { IfNone result ((kind : Kind) → ¬ (SameName (block kind).name name.now)) }
{
    for number in 1..14 {
        let kind = kind_at(number);
        if is_named(kind, name) {
            return Some(kind);
        }
    }
    None
}

/// How many safe outputs a kind has, from 1 to 9.
#[tactic(auto, unfolding(crate::specs::Blocks::block))]
pub fn safe_count(kind: Kind) -> u8
    ensures count { result ≡ length (block kind).outputs }
    ensures few { result ≤ 9 }
{
    match kind {
        Kind::ModeSelector => 9,
        Kind::GuardLocking | Kind::SafetyRequest => 2,
        _ => 1,
    }
}

/// How many outputs a kind has, Ready and Error among them, from 3 to 11.
#[tactic(auto, unfolding(crate::specs::Blocks::output_count, crate::specs::Blocks::block))]
pub fn output_count(kind: Kind) -> u8
    ensures { result ≡ output_count kind }
{
    safe_count(kind) + 2
}

/// The part of a kind's limit in ms that no TIME pin gives: 500 for SF_TwoHandControlTypeIII, and
/// 0 for the others.
#[tactic(auto, unfolding(crate::specs::Blocks::block))]
pub fn fixed_limit(kind: Kind) -> u32
    ensures { result ≡ (block kind).fixed_limit }
{
    match kind {
        Kind::TwoHandThree => 500,
        _ => 0,
    }
}

/// The number of a kind's input pin Reset, where it has one.
#[tactic(auto, unfolding(crate::specs::Blocks::block))]
pub fn reset_pin(kind: Kind) -> Option<u8>
    ensures { result ≡ (block kind).reset }
{
    match kind {
        Kind::SafetyRequest => Some(3),
        Kind::EmergencyStop | Kind::Espe => Some(4),
        Kind::GuardMonitoring | Kind::EnableSwitch | Kind::Edm => Some(5),
        Kind::OutControl => Some(6),
        Kind::GuardLocking => Some(7),
        Kind::ModeSelector => Some(12),
        Kind::Equivalent | Kind::Antivalent | Kind::TwoHandTwo | Kind::TwoHandThree => None,
    }
}

/// The number of a kind's auxiliary input pin, whose rise the kind sees: S_SetMode of
/// SF_ModeSelector, ProcessControl of SF_OutControl, and no other.
#[tactic(auto, unfolding(crate::specs::Blocks::block))]
pub fn auxiliary_pin(kind: Kind) -> Option<u8>
    ensures { result ≡ (block kind).auxiliary }
{
    match kind {
        Kind::ModeSelector => Some(10),
        Kind::OutControl => Some(2),
        _ => None,
    }
}
