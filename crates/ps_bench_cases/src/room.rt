// The room that the expanded trace of a file has left.

ghost use Rattle.std.specs.Prelude.{◌≡◌, ◌+◌, ◌∷◌, ◌<◌, ◌^◌, ℕ, List, Bool, IfOk, IfSome, length, fold, flat_map};
ghost use Rattle.ps_base.specs.declared.limits.TheConstants.{LARGEST_TRACE};
ghost use Rattle.ps_bench_cases.specs.declared.point.Point.{Point};
ghost use Rattle.ps_bench_cases.specs.Meant.{times_of};
ghost use Rattle.ps_bench_cases.specs.Expanded.{header_line, scan_line};
ghost use Rattle.ps_bench_cases.specs.Expanded.{act_text, point_after, statements_text, next_point, end_point, case_text};
ghost use Rattle.ps_bench_cases.specs.Rooms.{Counts, IsLeft, IsRoom};

use crate::case::{Act, Pace, Statement};
use crate::held::Held;
use crate::point::{hold, room_of};
use itoa::Buffer;
use ps_base::Memory;
use ps_base::limits::LARGEST_TRACE;
use ps_model::{App, Fault};
use std::alloc::Global;

// How many bytes are left of the largest trace, and how many the lines of the faults have that wait for their scan.
#[derive(Clone, Copy)]
pub(crate) struct Room {
    pub(crate) left: u32,
    // it stays at its largest value
    pub(crate) held: u64,
}

// The case that is read: how many inputs a scan has, and when the case begins in the trace, in ms.
#[derive(Clone, Copy)]
pub(crate) struct Base {
    pub(crate) inputs: u16,
    pub(crate) time: u64,
}

// What is left after the header of a trace of an application. None, here as below: it has no room.
pub(crate) fn behind_header(app: &App) -> Option<Room>
    ensures { IsLeft LARGEST_TRACE (length (header_line app.now)) result }
{
    let whole = Room {
        left: LARGEST_TRACE,
        held: 0,
    };
    behind_inputs(whole.behind(5)?, app)
}

// After the names of the inputs.
fn behind_inputs(room: Room, app: &App) -> Option<Room>
    ensures { IsLeft room.left (length (flat_map (λ s. 32 ∷ s.name) app.now.inputs)) result }
{
    app.sound();
    let mut room = room;
    for i in 0..app.input_count() {
        room = room.behind_words(1, app.signal_name(i))?;
    }
    Some(room)
}

impl Room {
    // After so many bytes.
    fn behind(self, bytes: u64) -> Option<Room>
        ensures left { IsLeft self.left bytes result }
        ensures held { IfSome result (λ room. room.held ≡ self.held) }
    {
        if bytes > u64::from(self.left) {
            return None;
        }
        Some(Room {
            left: self.left - bytes as u32,
            held: self.held,
        })
    }

    // After so many bytes and a text.
    fn behind_words(self, bytes: u16, text: &str) -> Option<Room>
        ensures left { IsLeft self.left (bytes + length text.now) result }
        ensures held { IfSome result (λ room. room.held ≡ self.held) }
    {
        self.behind(u64::from(bytes))?.behind(text.len() as u64)
    }

    // After a scan at this time with so many inputs.
    fn behind_scan(self, now: u64, inputs: u16) -> Option<Room>
        ensures left { (ins : List Bool) → length ins ≡ inputs → IsLeft self.left (length (scan_line now ins)) result }
        ensures held { IfSome result (λ room. room.held ≡ self.held) }
    {
        let mut digits = Buffer::new();
        let digits = digits.format(now).len() as u64;
        self.behind(digits + 2 * u64::from(inputs) + 1)
    }

    // After the scans of a pace.
    fn behind_pace(self, base: Base, pace: &Pace) -> Option<Room>
        requires { base.time < 2 ^ 63 }
        ensures left { (ins : List Bool) → length ins ≡ base.inputs →
            IsLeft self.left (length (flat_map (λ now. scan_line (base.time + now) ins) (times_of pace.now))) result }
        ensures held { IfSome result (λ room. room.held ≡ self.held) }
    {
        let mut room = self;
        let mut now = pace.from.min(pace.upto);
        for k in 0..pace.count {
            now = now.saturating_add(pace.step).min(pace.upto);
            room = room.behind_scan(base.time + u64::from(now), base.inputs)?;
        }
        Some(room)
    }

    // After scans, and the lines of the faults of the first one.
    fn behind_scans(self, base: Base, pace: &Pace) -> Option<Room>
        requires { base.time < 2 ^ 63 }
        ensures { (p : Point) → p.base ≡ base.time → Counts base.inputs p self →
            IsRoom base.inputs self.left (length (act_text p (Act.Scans pace.now)))
            (point_after p (Act.Scans pace.now)) result }
    {
        if pace.count == 0 {
            return Some(self);
        }
        let room = self.behind(self.held)?.behind_pace(base, pace)?;
        Some(Room {
            left: room.left,
            held: 0,
        })
    }

    // The line of a fault waits.
    fn with_fault(self, alloc: Global, fault: &Fault) -> Result<Room, Memory>
        ensures { IfOk result (λ room. (inputs : ℕ) → (p : Point) → Counts inputs p self →
            (room.left ≡ self.left) × Counts inputs (point_after p (Act.Fault fault.now)) room) }
    {
        let mut line = Held::with_room(alloc, room_of(fault))?;
        hold(&mut line, fault)?;
        Ok(Room {
            left: self.left,
            held: self.held.saturating_add(line.len() as u64),
        })
    }

    // After what a line of a case does.
    pub(crate) fn behind_act(
        self,
        alloc: Global,
        base: Base,
        act: &Act,
    ) -> Result<Option<Room>, Memory>
        requires { base.time < 2 ^ 63 }
        ensures { IfOk result (λ room. (p : Point) → p.base ≡ base.time → Counts base.inputs p self →
            IsRoom base.inputs self.left (length (act_text p act.now)) (point_after p act.now) room) }
    {
        match act {
            Act::Scans(pace) => Ok(self.behind_scans(base, pace)),
            Act::Restart => Ok(self.behind(8)),
            Act::Fault(fault) => Ok(Some(self.with_fault(alloc, fault)?)),
            Act::Set | Act::Expect(_) => Ok(Some(self)),
        }
    }

    // After statements.
    fn behind_statements(
        self,
        alloc: Global,
        base: Base,
        statements: &[Statement],
    ) -> Result<Option<Room>, Memory>
        requires { base.time < 2 ^ 63 }
        ensures { IfOk result (λ room. (p : Point) → p.base ≡ base.time → Counts base.inputs p self →
            IsRoom base.inputs self.left (length (statements_text p statements.now))
            (fold next_point p statements.now) room) }
    {
        let mut room = self;
        for statement in statements {
            match room.behind_act(alloc, base, &statement.act)? {
                Some(behind) => room = behind,
                None => return Ok(None),
            }
        }
        Ok(Some(room))
    }

    // After a case of this name that begins with these statements, and so many bytes before it.
    pub(crate) fn behind_case(
        self,
        alloc: Global,
        base: Base,
        bytes: u16,
        name: &str,
        statements: &[Statement],
    ) -> Result<Option<Room>, Memory>
        requires { base.time < 2 ^ 63 }
        ensures { IfOk result (IsRoom base.inputs self.left
            (bytes + length (case_text base.inputs base.time name.now statements.now))
            (end_point base.inputs base.time statements.now)) }
    {
        let Some(room) = self.behind_words(bytes, name) else {
            return Ok(None);
        };
        let Some(room) = room.behind(8) else {
            return Ok(None);
        };
        let room = Room {
            left: room.left,
            held: 0,
        };
        room.behind_statements(alloc, base, statements)
    }
}
