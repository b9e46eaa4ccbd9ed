// A case file as far as it was read, and the room that its expanded trace has left.

ghost use Rattle.std.specs.Prelude.{◌≡◌, ◌+◌, ◌<◌, ◌^◌, ℕ, List, Some, IfOk, IfNone, OnOk, length};
ghost use Rattle.ps_model.specs.Network.{input_count};
ghost use Rattle.ps_bench_names.specs.declared.name.Setting.{Setting};
ghost use Rattle.ps_bench_cases.specs.declared.draft.Head.{Head};
ghost use Rattle.ps_bench_cases.specs.LineSays.{said_by};
ghost use Rattle.ps_bench_cases.specs.Stands.{deed_settled, unless_over};
ghost use Rattle.ps_bench_cases.specs.Expanded.{end_point};
ghost use Rattle.ps_bench_cases.specs.File.{no_lines, stated, act_after, case_after, said_after, unless_large, file_ended};
ghost use Rattle.ps_bench_cases.specs.DraftSays.{after_by, KeepsLimits};
ghost use Rattle.ps_bench_cases.specs.Rooms.{head_text, IsLeft, IsRoom, IsPlaced, HasRoom};

use crate::case::{Act, CaseFile};
use crate::deed::Deed;
use crate::draft::{Draft, at};
use crate::line::{LineSays, case_name};
use crate::room::{Base, Room, behind_header};
use crate::rule::{CaseRefusal, CaseRule};
use crate::settling::settle;
use ps_base::Memory;
use ps_bench_names::Settings;
use ps_model::{App, ImageSizes};
use std::alloc::Global;

// A case file as far as it was read, and the room that its expanded trace has left. None: the trace is too large.
pub(crate) struct Measured {
    pub(crate) draft: Draft,
    pub(crate) room: Option<Room>,
}

impl Drop for Measured {
    // One call for whoever owns one, in place of a walk through all that it holds.
    fn drop(self) {
        let Measured { draft: _, room: _ } = self;
    }
}

impl Measured {
    // Before the first line. It takes no memory.
    pub(crate) fn new(alloc: Global, app: &App) -> Measured
        ensures none { result.draft ≡ no_lines }
        ensures small { KeepsLimits result.draft }
        ensures room { HasRoom app.now result.draft result.room }
    {
        Measured {
            draft: Draft::new(alloc),
            room: behind_header(app),
        }
    }

    // What a line with this number does that says this. None: it is not refused.
    pub(crate) fn take(
        &mut self,
        alloc: Global,
        app: &App,
        sizes: &ImageSizes,
        number: u32,
        line: &[u8],
        says: LineSays,
    ) -> Result<Option<CaseRefusal>, Memory>
        requires small { KeepsLimits self.old.draft }
        requires placed { IsPlaced app.now self.old.draft }
        requires room { HasRoom app.now self.old.draft self.old.room }
        ensures after { IfOk result (λ refusal.
            unless_large app.now number (said_after sizes.now self.old.draft number (said_by says line.now))
            ≡ after_by refusal self.new.draft) }
        ensures small { OnOk result (KeepsLimits self.new.draft) }
        ensures room { IfOk result (λ refusal. IfNone refusal (HasRoom app.now self.new.draft self.new.room)) }
    {
        match self.put(alloc, app, sizes, number, line, says)? {
            Some(refusal) => Ok(Some(refusal)),
            None if self.room.is_none() => Ok(Some(at(CaseRule::K7, number))),
            None => Ok(None),
        }
    }

    // The same, whatever the size of the trace.
    fn put(
        &mut self,
        alloc: Global,
        app: &App,
        sizes: &ImageSizes,
        number: u32,
        line: &[u8],
        says: LineSays,
    ) -> Result<Option<CaseRefusal>, Memory>
        requires small { KeepsLimits self.old.draft }
        requires placed { IsPlaced app.now self.old.draft }
        requires room { HasRoom app.now self.old.draft self.old.room }
        ensures after { IfOk result (λ refusal.
            said_after sizes.now self.old.draft number (said_by says line.now) ≡ after_by refusal self.new.draft) }
        ensures small { OnOk result (KeepsLimits self.new.draft) }
        ensures room { IfOk result (λ refusal. IfNone refusal (HasRoom app.now self.new.draft self.new.room)) }
    {
        match says {
            LineSays::Nothing => Ok(None),
            LineSays::Case => self.begin_case(alloc, app, number, case_name(line)),
            LineSays::Asks(deed, settings) => self.ask(alloc, app, sizes, number, deed, settings),
            LineSays::Broken(rule) => Ok(Some(at(rule, number))),
        }
    }

    // A line asks for something.
    fn ask(
        &mut self,
        alloc: Global,
        app: &App,
        sizes: &ImageSizes,
        number: u32,
        deed: Deed,
        settings: Settings,
    ) -> Result<Option<CaseRefusal>, Memory>
        requires small { KeepsLimits self.old.draft }
        requires placed { IsPlaced app.now self.old.draft }
        requires room { HasRoom app.now self.old.draft self.old.room }
        ensures after { IfOk result (λ refusal.
            act_after self.old.draft number settings
            (unless_over self.old.draft.stand (deed_settled sizes.now self.old.draft.stand deed))
            ≡ after_by refusal self.new.draft) }
        ensures small { OnOk result (KeepsLimits self.new.draft) }
        ensures room { IfOk result (λ refusal. IfNone refusal (HasRoom app.now self.new.draft self.new.room)) }
    {
        let act = match settle(sizes, &self.draft.stand, deed) {
            Ok(act) => act,
            Err(rule) => return Ok(Some(at(rule, number))),
        };
        self.room = self.behind_act(alloc, app, &act)?;
        self.draft.state(number, settings, act)?;
        Ok(None)
    }

    // The case that is read.
    fn base(&self, app: &App) -> Base
        ensures inputs { result.inputs ≡ input_count app.now }
        ensures time { result.time ≡ self.now.draft.stand.base }
        ensures early { result.time < 2 ^ 63 }
    {
        Base {
            inputs: app.input_count(),
            time: u64::from(self.draft.stand.base),
        }
    }

    // The room after what a line does. What stands before the first case makes nothing until a case begins.
    fn behind_act(&self, alloc: Global, app: &App, act: &Act) -> Result<Option<Room>, Memory>
        requires placed { IsPlaced app.now self.now.draft }
        requires room { HasRoom app.now self.now.draft self.now.room }
        ensures { IfOk result (λ room. (number : ℕ) (settings : List Setting) →
            HasRoom app.now (stated self.now.draft number settings act.now) room) }
    {
        let Some(room) = self.room else {
            return Ok(None);
        };
        match &self.draft.head {
            Some(_) => room.behind_act(alloc, self.base(app), act),
            None => Ok(Some(room)),
        }
    }

    // The room after the first lines of the case that begins.
    fn behind_head(&self, alloc: Global, app: &App) -> Result<Option<Room>, Memory>
        ensures { IfOk result (λ room. (before bytes : ℕ) (head : Head) →
            self.now.draft.head ≡ Some head → IsLeft before bytes self.now.room →
            IsRoom (input_count app.now) before (bytes + length (head_text app.now self.now.draft head))
            (end_point (input_count app.now) self.now.draft.stand.base self.now.draft.file.begin) room) }
    {
        match (self.room, &self.draft.head) {
            (Some(room), Some(head)) => {
                let file = &self.draft.file;
                let lead = if file.cases.as_slice().is_empty() {
                    0
                } else {
                    8
                };
                let name = head.name.as_str();
                room.behind_case(alloc, self.base(app), lead, name, file.begin.as_slice())
            }
            (room, _) => Ok(room),
        }
    }

    // A case begins by this name.
    fn begin_case(
        &mut self,
        alloc: Global,
        app: &App,
        number: u32,
        name: &[u8],
    ) -> Result<Option<CaseRefusal>, Memory>
        requires small { KeepsLimits self.old.draft }
        requires placed { IsPlaced app.now self.old.draft }
        requires room { HasRoom app.now self.old.draft self.old.room }
        ensures after { IfOk result (λ refusal.
            case_after self.old.draft number name.now ≡ after_by refusal self.new.draft) }
        ensures small { OnOk result (KeepsLimits self.new.draft) }
        ensures room { IfOk result (λ refusal. IfNone refusal (HasRoom app.now self.new.draft self.new.room)) }
    {
        if let Some(refusal) = self.draft.begin_case(alloc, number, name)? {
            return Ok(Some(refusal));
        }
        self.room = self.behind_head(alloc, app)?;
        Ok(None)
    }

    // The file ends, at the line with this number.
    pub(crate) fn end(
        self,
        alloc: Global,
        number: u32,
    ) -> Result<Result<CaseFile, CaseRefusal>, Memory>
        ensures { IfOk result (λ file. file ≡ file_ended self.draft number) }
    {
        let Measured { draft, room: _ } = self;
        draft.end(alloc, number)
    }
}
