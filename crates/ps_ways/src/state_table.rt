// The words of the states of each kind.

ghost use Rattle.std.specs.Prelude.{◌≡◌, option_map};
ghost use Rattle.ps_ways.specs.States.{words_in};
ghost use Rattle.ps_ways.specs.Words as words;

// SF_Equivalent, and SF_Antivalent, whose channel B is on where S_ChannelNO is FALSE.
pub(crate) fn equivalent_words(code: u16) -> Option<&'static str>
    ensures { option_map (λ w. w.now) result ≡ words_in words.equivalent code }
{
    let words = match code {
        0x0000 => "idle",
        0x8001 => "both channels off",
        0x8004 => "waiting for channel B",
        0x8014 => "waiting for channel A",
        0x8000 => "both channels on",
        0x8005 => "one channel went off",
        0xC001 => "channel B did not come on in time",
        0xC002 => "channel A did not come on in time",
        0xC003 => "one channel stayed on for too long",
        _ => return None,
    };
    Some(words)
}

// SF_EmergencyStop and SF_ESPE.
pub(crate) fn stop_words(code: u16) -> Option<&'static str>
    ensures { option_map (λ w. w.now) result ≡ words_in words.stop code }
{
    let words = match code {
        0x0000 => "idle",
        0x8001 => "first state",
        0x8002 => "waiting for the sensor after the start",
        0x8003 => "waiting for Reset after the start",
        0x8000 => "enabled",
        0x8004 => "stopped and waiting for the sensor",
        0x8005 => "stopped and waiting for Reset",
        0xC001 => "Reset came before the sensor at the start",
        0xC002 => "Reset came before the sensor after a stop",
        _ => return None,
    };
    Some(words)
}

// SF_ModeSelector.
pub(crate) fn modes_words(code: u16) -> Option<&'static str>
    ensures { option_map (λ w. w.now) result ≡ words_in words.modes code }
{
    let words = match code {
        0x0000 => "idle",
        0x8005 => "waiting for one mode",
        0x8000 => "a mode is selected",
        0x8004 => "the mode is locked",
        0xC001 => "two or more modes at once",
        0xC002 => "no mode for too long",
        0xC003 => "static Reset in C001",
        0xC004 => "static Reset in C002",
        _ => return None,
    };
    Some(words)
}

// SF_TwoHandControlTypeII.
pub(crate) fn two_hand_two_words(code: u16) -> Option<&'static str>
    ensures { option_map (λ w. w.now) result ≡ words_in words.two_hand_two code }
{
    let words = match code {
        0x0000 => "idle",
        0x8001 => "first state",
        0xC001 => "button 1 was pressed at the start",
        0xC002 => "button 2 was pressed at the start",
        0xC003 => "both buttons were pressed at the start",
        0x8004 => "both buttons released",
        0x8005 => "button 1 pressed first",
        0x8006 => "button 2 pressed first",
        0x8000 => "both buttons pressed",
        0x8007 => "button 2 released",
        0x8008 => "button 1 released",
        0x8009 => "pressed again and locked until both are released",
        0x8019 => "let go too soon and locked until both are released",
        _ => return None,
    };
    Some(words)
}

// What SF_TwoHandControlTypeIII has besides, since it has a limit.
pub(crate) fn late_words(code: u16) -> Option<&'static str>
    ensures { option_map (λ w. w.now) result ≡ words_in words.late code }
{
    let words = match code {
        0xC004 => "button 1 alone for too long",
        0xC005 => "button 2 alone for too long",
        0xC006 => "both buttons pressed too late",
        _ => return None,
    };
    Some(words)
}

// SF_TwoHandControlTypeIII.
pub(crate) fn two_hand_three_words(code: u16) -> Option<&'static str>
    ensures { option_map (λ w. w.now) result ≡ words_in words.two_hand_three code }
{
    match two_hand_two_words(code) {
        Some(words) => Some(words),
        None => late_words(code),
    }
}

// SF_GuardMonitoring.
pub(crate) fn guard_monitoring_words(code: u16) -> Option<&'static str>
    ensures { option_map (λ w. w.now) result ≡ words_in words.guard_monitoring code }
{
    let words = match code {
        0x0000 => "idle",
        0x8001 => "first state",
        0x8002 => "the guard has to be opened",
        0x8012 => "the guard is open",
        0x8004 => "waiting for switch 2",
        0x8014 => "waiting for switch 1",
        0x8005 => "the guard has closed",
        0x8003 => "waiting for Reset",
        0x8000 => "enabled",
        0xC001 => "static Reset in 8003",
        0xC011 => "switch 2 did not close in time",
        0xC012 => "switch 1 did not close in time",
        _ => return None,
    };
    Some(words)
}

// SF_GuardLocking.
pub(crate) fn guard_locking_words(code: u16) -> Option<&'static str>
    ensures { option_map (λ w. w.now) result ≡ words_in words.guard_locking code }
{
    let words = match code {
        0x0000 => "idle",
        0x8001 => "first state",
        0x8000 => "closed and locked",
        0x8003 => "locked and waiting for Reset",
        0x8013 => "unlocked and closed",
        0x8012 => "unlocked and open",
        0x8011 => "to be locked again",
        0x8014 => "safety lost",
        0xC001 => "static Reset in 8014",
        0xC002 => "static Reset in 8003",
        0xC003 => "static Reset in 8011",
        0xC004 => "opened while locked",
        _ => return None,
    };
    Some(words)
}

// SF_EnableSwitch.
pub(crate) fn enable_switch_words(code: u16) -> Option<&'static str>
    ensures { option_map (λ w. w.now) result ≡ words_in words.enable_switch code }
{
    let words = match code {
        0x0000 => "idle",
        0x8004 => "the safe mode is not active",
        0x8005 => "the safe mode is active",
        0x8006 => "released",
        0x8000 => "enabled",
        0x8007 => "pressed through",
        0xC010 => "not released when the safe mode came",
        0xC020 => "released after C010",
        0xC030 => "from position 3 back to 2",
        0xC040 => "out of position 2 after C030",
        0xC001 => "static Reset in C020",
        0xC002 => "static Reset in C040",
        _ => return None,
    };
    Some(words)
}

// SF_SafetyRequest.
pub(crate) fn safety_request_words(code: u16) -> Option<&'static str>
    ensures { option_map (λ w. w.now) result ≡ words_in words.safety_request code }
{
    let words = match code {
        0x0000 => "idle",
        0x8001 => "first state",
        0x8012 => "ordinary operation before a reset",
        0x8002 => "ordinary operation",
        0x8003 => "asked and waiting for S_Acknowledge",
        0x8000 => "the actuator is safe",
        0xC002 => "S_Acknowledge was lost",
        0xC003 => "S_Acknowledge did not come in time",
        0xC004 => "static Reset in C002",
        0xC005 => "static Reset in C003",
        0x8005 => "after an error and waiting for S_OpMode",
        _ => return None,
    };
    Some(words)
}

// SF_OutControl.
pub(crate) fn out_control_words(code: u16) -> Option<&'static str>
    ensures { option_map (λ w. w.now) result ≡ words_in words.out_control code }
{
    let words = match code {
        0x0000 => "idle",
        0x8001 => "first state",
        0x8002 => "waiting for S_SafeControl",
        0x8003 => "waiting for Reset",
        0x8010 => "waiting for ProcessControl",
        0x8000 => "enabled",
        0xC010 => "ProcessControl was TRUE without a rise",
        0xC001 => "static Reset in 8001",
        0xC002 => "static Reset in 8003",
        _ => return None,
    };
    Some(words)
}

// SF_EDM.
pub(crate) fn edm_words(code: u16) -> Option<&'static str>
    ensures { option_map (λ w. w.now) result ≡ words_in words.edm code }
{
    let words = match code {
        0x0000 => "idle",
        0x8001 => "first state",
        0x8010 => "off",
        0x8000 => "on",
        0xC001 => "static Reset in 8001",
        0xC010 => "off but S_EDM1 did not come back in time",
        0xC020 => "off but S_EDM2 did not come back in time",
        0xC030 => "off but neither S_EDM1 nor S_EDM2 came back in time",
        0xC040 => "asked to switch on while S_EDM1 was missing",
        0xC050 => "asked to switch on while S_EDM2 was missing",
        0xC060 => "asked to switch on while S_EDM1 and S_EDM2 were missing",
        0xC070 => "on but S_EDM1 did not go in time",
        0xC080 => "on but S_EDM2 did not go in time",
        0xC090 => "on but neither S_EDM1 nor S_EDM2 went in time",
        0xC011 => "static Reset in C010",
        0xC021 => "static Reset in C020",
        0xC031 => "static Reset in C030",
        0xC041 => "static Reset in C040",
        0xC051 => "static Reset in C050",
        0xC061 => "static Reset in C060",
        0xC071 => "static Reset in C070",
        0xC081 => "static Reset in C080",
        0xC091 => "static Reset in C090",
        _ => return None,
    };
    Some(words)
}
