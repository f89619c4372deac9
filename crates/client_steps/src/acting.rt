//! The desk with the plans of the queues: how works go out, and how a setup goes down or begins.

ghost use Rattle.std.specs.Prelude.{◌≡◌, ◌<◌, ◌≤◌, false, None, Some, IfOk, IfSome, option_copied};
ghost use Rattle.std.specs.List.{AllByRecursion};
ghost use Rattle.client_copies.specs.declared.table.TheConstants.{MOST_COPIES};
ghost use Rattle.session_calls.specs.Calls.{SlotCallFits};
ghost use Rattle.client_steps.specs.Acting as spec;
ghost use Rattle.client_steps.specs.Setting.{IsFit};
ghost use Rattle.outcome.specs.Causes.{Rose};
ghost use Rattle.write_queue.specs.Plan.{planned};

use crate::copy_steps::Openings;
use crate::desk::Desk;
use crate::setting::Setting;
use client_copies::Event;
use client_site::{OpenFile, may_begin};
use gss_mech::Mechanism;
use mount::Under;
use nfs_base::{DATA_LIMIT, Side, Status};
use outbox::Note;
use outcome::Mem;
use session_calls::{FileCall, SlotCall};
use std::alloc::Global;
use streams::{Drawn, Draws};
use wire_xdr::Octets;
use write_queue::{Head, Line, QueueEvent, QueuePlan, Work, WriteQueue};

/// The writes and commits of a client at both servers.
#[derive(Drop)]
pub struct Queues {
    pub source: WriteQueue,
    pub dest: WriteQueue,
}

/// The desk, and what is to become of the queues.
#[derive(Drop)]
pub struct Course {
    pub desk: Desk,
    pub source_plan: QueuePlan,
    pub dest_plan: QueuePlan,
}

impl Course {
    /// The first work of a queue, where it is due.
    fn due<'a>(&self, queues: &'a Queues, side: Side) -> Option<&'a Work>
        ensures { option_copied result ≡ spec.due_at side (spec.acting queues.now self.now) }
    {
        match side {
            Side::Source => self.source_plan.due(&queues.source),
            Side::Dest => self.dest_plan.due(&queues.dest),
        }
    }

    /// Something happens to a queue's first work, and what is told of it is noted.
    pub fn tell_queue(&mut self, queues: &Queues, side: Side, event: QueueEvent) -> Mem<()>
        ensures { IfOk result (λ _. spec.acting queues.now self.new ≡ spec.queue_told side event (spec.acting queues.now self.old)) }
    {
        match side {
            Side::Source => {
                let line = self.source_plan.on(&queues.source, event)?;
                self.desk.note_line(side, line)
            }
            Side::Dest => {
                let line = self.dest_plan.on(&queues.dest, event)?;
                self.desk.note_line(side, line)
            }
        }
    }

    /// What is due of a queue goes out, where the server is set up.
    fn go_on_queue<M: Mechanism>(
        &mut self,
        alloc: Global,
        setting: &Setting<M>,
        queues: &Queues,
        side: Side,
    ) -> Mem<()>
        requires { IsFit setting.now }
        ensures { IfOk result (λ _. spec.acting queues.now self.new ≡ spec.queue_goes_on setting.now M.mic_of side (spec.acting queues.now self.old)) }
    {
        if !self.desk.is_up(side) {
            return Ok(());
        }
        let Some(work) = self.due(queues, side) else {
            return Ok(());
        };
        match self.desk.file(side, work.file()) {
            None => self.open_for(alloc, setting, queues, side, work.file()),
            Some(opened_file) => {
                let call = work_call(alloc, &opened_file, work)?;
                self.send_for(alloc, setting, queues, side, call, QueueEvent::Sent)
            }
        }
    }

    /// A call of a queue's first work goes out, which is told so.
    fn send_for<M: Mechanism>(
        &mut self,
        alloc: Global,
        setting: &Setting<M>,
        queues: &Queues,
        side: Side,
        call: Option<SlotCall>,
        event: QueueEvent,
    ) -> Mem<()>
        requires { IfSome call (λ c. SlotCallFits c) }
        ensures { IfOk result (λ _. spec.acting queues.now self.new ≡ spec.called_for M.mic_of side call event (spec.acting queues.now self.old)) }
    {
        if self
            .desk
            .send_call(alloc, side, 0, Under::Root, call, &setting.mech)?
        {
            self.tell_queue(queues, side, event)
        } else {
            Ok(())
        }
    }

    /// OPEN of a file for a queue's first work, unless a copy awaits one.
    fn open_for<M: Mechanism>(
        &mut self,
        alloc: Global,
        setting: &Setting<M>,
        queues: &Queues,
        side: Side,
        file: u32,
    ) -> Mem<()>
        requires { IsFit setting.now }
        ensures { IfOk result (λ _. spec.acting queues.now self.new ≡ spec.opens_for setting.now M.mic_of side file (spec.acting queues.now self.old)) }
    {
        if self.desk.some_opens(
            side,
            file,
            &[1, 2, 3, 4, 5, 6, 7, 8, 9, 10, 11, 12, 13, 14, 15],
        ) {
            return Ok(());
        }
        let call = setting.open_call(alloc, self.desk.site(side), file)?;
        self.send_for(alloc, setting, queues, side, call, QueueEvent::OpenSent)
    }

    /// All that waits goes on: the queues, then the copies by number.
    fn go_on_up<M: Mechanism>(
        &mut self,
        alloc: Global,
        setting: &Setting<M>,
        queues: &Queues,
    ) -> Mem<()>
        requires { IsFit setting.now }
        ensures { IfOk result (λ _. spec.acting queues.now self.new ≡ spec.all_go_on setting.now M.mic_of (spec.acting queues.now self.old)) }
    {
        self.go_on_queue(alloc, setting, queues, Side::Source)?;
        self.go_on_queue(alloc, setting, queues, Side::Dest)?;
        self.go_on_copies(alloc, setting, queues)
    }

    fn go_on_copies<M: Mechanism>(
        &mut self,
        alloc: Global,
        setting: &Setting<M>,
        queues: &Queues,
    ) -> Mem<()>
        requires { IsFit setting.now }
        ensures { IfOk result (λ _. spec.acting queues.now self.new ≡ spec.copies_on setting.now M.mic_of (spec.acting queues.now self.old)) }
    {
        let openings = self.openings(queues);
        self.desk.go_on_copies(
            alloc,
            setting,
            openings,
            &[1, 2, 3, 4, 5, 6, 7, 8, 9, 10, 11, 12, 13, 14, 15],
        )
    }

    fn openings(&self, queues: &Queues) -> Openings
        ensures { result ≡ spec.openings (spec.acting queues.now self.now) }
    {
        Openings {
            source: opening_in(&self.source_plan, &queues.source),
            dest: opening_in(&self.dest_plan, &queues.dest),
        }
    }

    /// A setup goes down with this status: its copies are told by number, then its queue is refused in its order.
    pub fn go_down(&mut self, alloc: Global, queues: &Queues, side: Side, status: Status) -> Mem<()>
        ensures { IfOk result (λ _. spec.acting queues.now self.new ≡ spec.goes_down side status (spec.acting queues.now self.old)) }
    {
        self.desk.tell_down(
            side,
            status,
            &[1, 2, 3, 4, 5, 6, 7, 8, 9, 10, 11, 12, 13, 14, 15],
        )?;
        self.refuse_all(alloc, queues, side, status)?;
        self.desk.site_down(alloc, side)
    }

    fn refuse_all(&mut self, alloc: Global, queues: &Queues, side: Side, status: Status) -> Mem<()>
        ensures { IfOk result (λ _. spec.acting queues.now self.new ≡ spec.all_refused side status (spec.acting queues.now self.old)) }
    {
        match side {
            Side::Source => {
                let lines = self.source_plan.refusals(alloc, &queues.source, status)?;
                self.source_plan.clear(&queues.source);
                self.desk.note_lines(side, lines.as_slice())
            }
            Side::Dest => {
                let lines = self.dest_plan.refusals(alloc, &queues.dest, status)?;
                self.dest_plan.clear(&queues.dest);
                self.desk.note_lines(side, lines.as_slice())
            }
        }
    }

    /// What waits goes on. A setup that is down and that something waits for begins first, with a drawn nonce. False: the
    /// draw failed.
    pub fn go_on<M: Mechanism, W: Draws>(
        &mut self,
        alloc: Global,
        setting: &Setting<M>,
        queues: &Queues,
        draws: &mut W,
    ) -> Mem<bool>
        requires { IsFit setting.now }
        ensures is { IfOk result (λ drawn. spec.GoesOn setting.now M.mic_of (M.started setting.now.mech setting.now.me) W.gives (spec.acting queues.now self.old) draws.old draws.new (spec.if_drawn drawn (spec.acting queues.now self.new))) }
        ensures undrawn { IfOk result (λ drawn. drawn ≡ false → Rose (W.faults draws.old) (W.faults draws.new)) }
        ensures later { W.faults draws.old ≤ W.faults draws.new }
        ensures failing { W.failing draws.new ≡ W.failing draws.old }
    {
        match self.to_begin(queues) {
            None => {
                self.go_on_up(alloc, setting, queues)?;
                Ok(true)
            }
            Some(side) => self.go_on_drawn(alloc, setting, queues, side, draws),
        }
    }

    fn go_on_drawn<M: Mechanism, W: Draws>(
        &mut self,
        alloc: Global,
        setting: &Setting<M>,
        queues: &Queues,
        side: Side,
        draws: &mut W,
    ) -> Mem<bool>
        requires { IsFit setting.now }
        ensures is { IfOk result (λ drawn. spec.IsDrawn setting.now M.mic_of (M.started setting.now.mech setting.now.me) W.gives side (spec.acting queues.now self.old) draws.old draws.new (spec.if_drawn drawn (spec.acting queues.now self.new))) }
        ensures undrawn { IfOk result (λ drawn. drawn ≡ false → Rose (W.faults draws.old) (W.faults draws.new)) }
        ensures later { W.faults draws.old ≤ W.faults draws.new }
        ensures failing { W.failing draws.new ≡ W.failing draws.old }
    {
        match draws.draw() {
            Drawn::Failed => Ok(false),
            Drawn::Got(nonce) => {
                self.begin(alloc, setting, queues, side, &nonce)?;
                self.go_on_up(alloc, setting, queues)?;
                Ok(true)
            }
        }
    }

    /// The setup that is to begin.
    fn to_begin(&self, queues: &Queues) -> Option<Side>
        ensures { result ≡ spec.to_begin (spec.acting queues.now self.now) }
    {
        if self.is_to_begin(queues, Side::Source) {
            return Some(Side::Source);
        }
        if self.is_to_begin(queues, Side::Dest) {
            return Some(Side::Dest);
        }
        None
    }

    fn is_to_begin(&self, queues: &Queues, side: Side) -> bool
        ensures { result ≡ spec.is_to_begin side (spec.acting queues.now self.now) }
    {
        if !may_begin(&self.desk.site(side).mount, self.desk.send_at(0)) {
            return false;
        }
        if self.due(queues, side).is_some() {
            return true;
        }
        self.desk
            .some_needs(side, &[1, 2, 3, 4, 5, 6, 7, 8, 9, 10, 11, 12, 13, 14, 15])
    }

    /// A setup begins. A principal that isn't of the realm counts as a refused INIT.
    fn begin<M: Mechanism>(
        &mut self,
        alloc: Global,
        setting: &Setting<M>,
        queues: &Queues,
        side: Side,
        nonce: &[u8; 32],
    ) -> Mem<()>
        ensures { IfOk result (λ _. spec.acting queues.now self.new ≡ spec.begins nonce.now (M.started setting.now.mech setting.now.me nonce.now) side (spec.acting queues.now self.old)) }
    {
        let at = self.desk.send_at(0);
        if !may_begin(&self.desk.site(side).mount, at) {
            return Ok(());
        }
        if self.desk.send_begin(alloc, setting.me.as_slice(), nonce, side, at, &setting.mech)? {
            return Ok(());
        }
        self.go_down(alloc, queues, side, Status::ACCESS)
    }
}

impl Desk {
    fn note_line(&mut self, side: Side, line: Option<Line>) -> Mem<()>
        ensures { IfOk result (λ _. self.new ≡ spec.line_noted side line self.old) }
    {
        match line {
            None => Ok(()),
            Some(line) => self.note(line_note(side, line)),
        }
    }

    fn note_lines(&mut self, side: Side, lines: &[Line]) -> Mem<()>
        ensures { IfOk result (λ _. self.new ≡ spec.lines_noted side lines.now self.old) }
    {
        match lines {
            [] => Ok(()),
            [line, more @ ..] => {
                self.note(line_note(side, *line))?;
                self.note_lines(side, more)
            }
        }
    }

    #[tactic(auto, unfolding(crate::specs::Acting::downs_told))]
    fn tell_down(&mut self, side: Side, status: Status, copies: &[u32]) -> Mem<()>
        requires { AllByRecursion (λ j. j < MOST_COPIES) copies.now }
        ensures { IfOk result (λ _. self.new ≡ spec.downs_told side status copies.now self.old) }
    {
        match copies {
            [] => Ok(()),
            [j, more @ ..] => {
                self.tell(*j, Event::Down { side, status })?;
                self.tell_down(side, status, more)
            }
        }
    }

    fn site_down(&mut self, alloc: Global, side: Side) -> Mem<()>
        ensures { IfOk result (λ _. self.new ≡ spec.site_goes_down side self.old) }
    {
        let back = self.site(side).back;
        self.site_fall(alloc, side);
        self.end_back(back)
    }

    fn site_fall(&mut self, alloc: Global, side: Side)
        ensures { self.new ≡ spec.site_falls side self.old }
    {
        match side {
            Side::Source => self.source.go_down(alloc),
            Side::Dest => self.dest.go_down(alloc),
        }
    }

    /// The context for callbacks with this number is to end.
    fn end_back(&mut self, back: Option<u32>) -> Mem<()>
        ensures { IfOk result (λ _. self.new ≡ spec.back_ended back self.old) }
    {
        match back {
            None => Ok(()),
            Some(number) => self.ended.push(number),
        }
    }
}

fn line_note(side: Side, line: Line) -> Note
    ensures { result ≡ spec.line_note side line }
{
    match line {
        Line::Written { file, count } => Note::Written { side, file, count },
        Line::Committed { file, same } => Note::Commit { side, file, same },
        Line::Refused { file, status } => Note::Refused { side, file, status },
    }
}

/// The call of a work whose file is open.
fn work_call(alloc: Global, opened_file: &OpenFile, work: &Work) -> Mem<Option<SlotCall>>
    ensures is { IfOk result (λ call. call ≡ spec.work_call opened_file.now work.now) }
    ensures fits { IfOk result (λ call. IfSome call (λ c. SlotCallFits c)) }
{
    match work {
        Work::Write { offset, bytes, .. } => {
            if bytes.len() > DATA_LIMIT as usize {
                return Ok(None);
            }
            let bytes = Octets::from_slice(alloc, bytes.as_slice())?;
            Ok(Some(SlotCall::OnFile {
                file: opened_file.handle,
                call: FileCall::Write {
                    id: opened_file.id,
                    offset: *offset,
                    bytes,
                },
            }))
        }
        Work::Commit { .. } => Ok(Some(SlotCall::OnFile {
            file: opened_file.handle,
            call: FileCall::Commit,
        })),
    }
}

/// For which file a queue's first work has an OPEN out.
fn opening_in(plan: &QueuePlan, queue: &WriteQueue) -> Option<u32>
    ensures { result ≡ spec.opening_in (planned plan.now queue.now) }
{
    match plan.head() {
        Head::Opening => match plan.first(queue) {
            None => None,
            Some(work) => Some(work.file()),
        },
        Head::Due | Head::Asked => None,
    }
}
