//! Commands on copies, and what is sent again.

ghost use Rattle.std.specs.Prelude.{◌≡◌, ◌<◌, IfOk, IfSome, option_copied};
ghost use Rattle.std.specs.List.{AllByRecursion};
ghost use Rattle.client_copies.specs.declared.table.TheConstants.{MOST_COPIES};
ghost use Rattle.client_steps.specs.Acting.{acting};
ghost use Rattle.client_steps.specs.Commands as spec;
ghost use Rattle.client_steps.specs.CopySteps.{copy_in};
ghost use Rattle.session_calls.specs.Calls.{SlotCallFits};
ghost use Rattle.write_queue.specs.Plan.{planned};

use crate::acting::{Course, Queues};
use crate::calling::{query_label, setup_label, step_label};
use crate::deeds::query_of;
use crate::desk::{Desk, in_note};
use client_copies::{Asking, ClientCopy, Event, MOST_COPIES, Query, Stage};
use file_ops::{OP_COMMIT, OP_GETFH, OP_WRITE};
use gss_mech::Mechanism;
use mount::Under;
use nfs_base::{Side, StateId};
use outbox::{CallLabel, Note};
use outcome::Mem;
use session_calls::{FileCall, SlotCall};
use std::alloc::Global;
use write_queue::{Head, QueuePlan, Work, WriteQueue};

impl Desk {
    /// The destination is asked how far a copy is, or to cancel it, or a note says why not.
    pub fn query<M: Mechanism>(&mut self, alloc: Global, j: u32, query: Query, mech: &M) -> Mem<()>
        requires { j < MOST_COPIES }
        ensures { IfOk result (λ _. self.new ≡ spec.asked M.mic_of j query self.old) }
    {
        let Some(copy) = self.copy(j) else {
            return self.note(Note::Idle { copy: in_note(j) });
        };
        match copy.asking() {
            Asking::Busy => self.note(Note::Busy { copy: in_note(j) }),
            Asking::Idle => self.note(Note::Idle { copy: in_note(j) }),
            Asking::Ready => self.send_query(alloc, j, query, &copy, mech),
        }
    }

    fn send_query<M: Mechanism>(
        &mut self,
        alloc: Global,
        j: u32,
        query: Query,
        copy: &ClientCopy,
        mech: &M,
    ) -> Mem<()>
        requires { j < MOST_COPIES }
        ensures { IfOk result (λ _. self.new ≡ spec.queried M.mic_of j query copy.now self.old) }
    {
        let call = self.query_call(query, copy);
        if self.send_call(alloc, Side::Dest, j, Under::Root, call, mech)? {
            self.tell(j, Event::Queried(query))
        } else {
            Ok(())
        }
    }

    fn query_call(&self, query: Query, copy: &ClientCopy) -> Option<SlotCall>
        ensures is { result ≡ spec.query_call query copy.now self.now }
        ensures fits { IfSome result (λ c. SlotCallFits c) }
    {
        let Some(id) = copy.id else {
            return None;
        };
        let Some(opened_file) = self.file(Side::Dest, copy.spec.dst_file) else {
            return None;
        };
        Some(SlotCall::OnFile {
            file: opened_file.handle,
            call: query_ask(query, id),
        })
    }

    /// Copies that were asked nothing for 30 seconds are asked how far they are.
    #[tactic(auto, unfolding(crate::specs::Commands::ticked))]
    pub fn tick<M: Mechanism>(&mut self, alloc: Global, copies: &[u32], mech: &M) -> Mem<()>
        requires { AllByRecursion (λ j. j < MOST_COPIES) copies.now }
        ensures { IfOk result (λ _. self.new ≡ spec.ticked M.mic_of copies.now self.old) }
    {
        match copies {
            [] => Ok(()),
            [j, more @ ..] => {
                self.tick_copy(alloc, *j, mech)?;
                self.tick(alloc, more, mech)
            }
        }
    }

    fn tick_copy<M: Mechanism>(&mut self, alloc: Global, j: u32, mech: &M) -> Mem<()>
        requires { j < MOST_COPIES }
        ensures { IfOk result (λ _. self.new ≡ spec.ticked_of (copy_in j self.old) M.mic_of j self.old) }
    {
        let Some(copy) = self.copy(j) else {
            return Ok(());
        };
        if copy.is_overdue(self.second) {
            self.send_query(alloc, j, Query::Status, &copy, mech)
        } else {
            Ok(())
        }
    }

    #[tactic(auto, unfolding(crate::specs::Commands::copies_again))]
    fn retry_copies<M: Mechanism>(&mut self, alloc: Global, copies: &[u32], mech: &M) -> Mem<()>
        requires { AllByRecursion (λ j. j < MOST_COPIES) copies.now }
        ensures { IfOk result (λ _. self.new ≡ spec.copies_again M.mic_of copies.now self.old) }
    {
        match copies {
            [] => Ok(()),
            [j, more @ ..] => {
                self.retry_copy(alloc, Side::Dest, *j, mech)?;
                self.retry_copy(alloc, Side::Source, *j, mech)?;
                self.retry_copies(alloc, more, mech)
            }
        }
    }

    fn retry_copy<M: Mechanism>(&mut self, alloc: Global, side: Side, j: u32, mech: &M) -> Mem<()>
        requires { j < MOST_COPIES }
        ensures { IfOk result (λ _. self.new ≡ spec.copy_again M.mic_of side j self.old) }
    {
        let label = copy_label(side, self.copy(j));
        self.send_again(alloc, side, j, label, mech)
    }

    /// The setups' calls go out again, then the works' calls, then those of the copies by number.
    fn retry_all<M: Mechanism>(
        &mut self,
        alloc: Global,
        setups: SetupsUnderWay,
        labels: WorkLabels,
        mech: &M,
    ) -> Mem<()>
        ensures { IfOk result (λ _. self.new ≡ spec.all_again M.mic_of setups.source setups.dest labels.source labels.dest self.old) }
    {
        self.retry_setup(alloc, setups.source, Side::Source, mech)?;
        self.retry_setup(alloc, setups.dest, Side::Dest, mech)?;
        self.retry_work(alloc, !setups.source, Side::Source, labels.source, mech)?;
        self.retry_work(alloc, !setups.dest, Side::Dest, labels.dest, mech)?;
        self.retry_copies(
            alloc,
            &[1, 2, 3, 4, 5, 6, 7, 8, 9, 10, 11, 12, 13, 14, 15],
            mech,
        )
    }

    fn retry_setup<M: Mechanism>(
        &mut self,
        alloc: Global,
        setting_up: bool,
        side: Side,
        mech: &M,
    ) -> Mem<()>
        ensures { IfOk result (λ _. self.new ≡ spec.setup_again M.mic_of setting_up side self.old) }
    {
        if !setting_up {
            return Ok(());
        }
        let label = setup_label(&self.site(side).mount.setup());
        self.send_again(alloc, side, 0, label, mech)
    }

    fn retry_work<M: Mechanism>(
        &mut self,
        alloc: Global,
        works: bool,
        side: Side,
        label: CallLabel,
        mech: &M,
    ) -> Mem<()>
        ensures { IfOk result (λ _. self.new ≡ spec.work_again M.mic_of works side label self.old) }
    {
        if !works {
            return Ok(());
        }
        self.send_again(alloc, side, 0, label, mech)
    }
}

/// At which servers a setup is under way.
#[derive(Clone, Copy)]
struct SetupsUnderWay {
    source: bool,
    dest: bool,
}

/// What the call of each queue's first work is called.
#[derive(Clone, Copy)]
struct WorkLabels {
    source: CallLabel,
    dest: CallLabel,
}

impl Course {
    /// All that is awaited goes out again.
    pub fn retry<M: Mechanism>(&mut self, alloc: Global, queues: &Queues, mech: &M) -> Mem<()>
        ensures { IfOk result (λ _. acting queues.now self.new ≡ spec.retried M.mic_of (acting queues.now self.old)) }
    {
        let setups = SetupsUnderWay {
            source: self.desk.source.mount.is_setting_up(),
            dest: self.desk.dest.mount.is_setting_up(),
        };
        let labels = WorkLabels {
            source: queue_label(&self.source_plan, &queues.source),
            dest: queue_label(&self.dest_plan, &queues.dest),
        };
        self.desk.retry_all(alloc, setups, labels, mech)
    }
}

fn query_ask(query: Query, id: StateId) -> FileCall
    ensures { result ≡ spec.query_ask query id }
{
    match query {
        Query::Status => FileCall::Status { id },
        Query::Cancel => FileCall::Cancel { id },
    }
}

/// What the call is called that a queue's first work awaits.
fn queue_label(plan: &QueuePlan, queue: &WriteQueue) -> CallLabel
    ensures { result ≡ spec.queue_label (planned plan.now queue.now) }
{
    match plan.head() {
        Head::Opening => CallLabel::Operation(OP_GETFH),
        Head::Due | Head::Asked => works_label(plan.first(queue)),
    }
}

fn works_label(work: Option<&Work>) -> CallLabel
    ensures { result ≡ spec.works_label (option_copied work.entry) }
{
    match work {
        None => CallLabel::Compound,
        Some(Work::Write { .. }) => CallLabel::Operation(OP_WRITE),
        Some(Work::Commit { .. }) => CallLabel::Operation(OP_COMMIT),
    }
}

/// What the call is called that a copy awaits of a server.
fn copy_label(side: Side, copy: Option<ClientCopy>) -> CallLabel
    ensures { result ≡ spec.copy_label side copy }
{
    let Some(copy) = copy else {
        return CallLabel::Compound;
    };
    match query_of(side, &copy) {
        Some(query) => query_label(query),
        None => stage_label(copy.stage),
    }
}

fn stage_label(stage: Stage) -> CallLabel
    ensures { result ≡ spec.stage_label stage }
{
    match stage {
        Stage::Asked(step) => step_label(step),
        Stage::Due(_) | Stage::Accepted | Stage::Over(_) => CallLabel::Compound,
    }
}
