// The world that a call of the program leaves: that of M after six scans.

use crate::application::MOTOR;
use ps_base::Label;
use ps_model::Channel;
use ps_outside::{MemFiles, MemSink};
use ps_top::{Left, Status, Words, top};
use ps_world::World;
use std::alloc::Global;

// M in its ordinary use. The last scan finds the stop pressed.
const USE: &str = "\
time S_In Ack Run
0 1 0 1
10 1 0 1
20 1 0 1
30 1 1 1
40 1 0 0
50 0 0 1
";

// Words with single spaces between. None: out of memory.
fn words_of(alloc: Global, text: &str) -> Option<Words> {
    let mut words = Words::new(alloc);
    let mut are_all = true;
    for word in text.split(' ') {
        are_all = match String::from_str(alloc, word) {
            Ok(word) => words.push(Label::of(word)).is_ok() && are_all,
            Err(_) => false,
        };
    }
    if are_all { Some(words) } else { None }
}

// The fields of both channels' reports with their values at the end of the trace: S_Motor, Ready, Error and DiagCode.
const FIELDS: [(u16, u16); 4] = [(0, 0), (1, 1), (2, 0), (3, 0x8004)];

// Whether a world rests after the last scan, with these values in both channels.
fn is_after(world: &mut World) -> bool {
    let mut is_so = !world.is_tripped() && !world.scan_begun();
    for (field, value) in FIELDS {
        let a = world.field_value(Channel::A, field).unwrap_or(0xFFFF);
        let b = world.field_value(Channel::B, field).unwrap_or(0xFFFF);
        is_so = is_so && a == value && b == value;
    }
    is_so
}

// Files with M and that trace, under A and T. None: out of memory.
fn files_of(alloc: Global) -> Option<MemFiles> {
    let mut files = MemFiles::new(alloc);
    if files.put("A", MOTOR.as_bytes()).is_ok() && files.put("T", USE.as_bytes()).is_ok() {
        Some(files)
    } else {
        None
    }
}

// Whether the words end well over such files, and leave that world.
fn leaves_world(alloc: Global, words: &Words, files: &mut MemFiles) -> bool {
    let Ok(mut out) = MemSink::new(alloc, 1000) else {
        return false;
    };
    let mut left = Left::new();
    let status = top(alloc, words, files, &mut out, &mut left);
    match &mut left.world {
        Some(world) => matches!(status, Status::Done) && is_after(world),
        None => false,
    }
}

// Whether a run of M ends well, and leaves that world.
fn is_left(alloc: Global) -> bool {
    let Some(words) = words_of(alloc, "run A T") else {
        return false;
    };
    match files_of(alloc) {
        Some(mut files) => leaves_world(alloc, &words, &mut files),
        None => false,
    }
}

#[test]
fn world_that_is_left(rt: HostRuntime) {
    assert!(rt; is_left(rt.alloc()));
}
