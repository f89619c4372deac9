//! What happens to a copy, an event at a time.

ghost use Rattle.std.specs.Prelude.{◌≡◌, ◌==◌, bytes_eq};
ghost use Rattle.nfs_base.specs.declared.side.Side.{Side};
ghost use Rattle.client_copies.specs.Copies.{side_of, is_stable};
ghost use Rattle.client_copies.specs.Steps as table;

use crate::{ClientCopy, Event, First, Query, Said, Session, Stage, Step, Verdict, Word};
use copy_ops::OffloadEnd;
use nfs_base::{Side, Stability, StateId, Status};

impl ClientCopy {
    /// What happens to the copy: what is told of it, and how far it is then. `specs/Steps.antt` is the table of stages and
    /// events. Where an event doesn't fit the stage, nothing is told and the copy stays as it was.
    #[tactic(auto, unfolding(crate::specs::Steps::after))]
    pub fn on(&mut self, event: Event) -> Said
        ensures said { result ≡ (table.after event self.old).0 }
        ensures after { self.new ≡ (table.after event self.old).1 }
    {
        match event {
            Event::Opened(side) => self.on_opened(side),
            Event::Sent => self.on_sent(),
            Event::Allowed => self.on_allowed(),
            Event::Granted(first) => self.on_granted(first),
            Event::Accepted { id, sent_at } => self.on_accepted(id, sent_at),
            Event::Told { change, session } => self.on_told(change, &session),
            Event::Refused(why) => self.on_refused(why.status()),
            Event::Queried(query) => self.on_queried(query),
            Event::Progressed {
                count,
                complete,
                sent_at,
            } => {
                self.query = None;
                self.asked_at = sent_at;
                self.on_progressed(count, complete)
            }
            Event::Cancelled => {
                self.query = None;
                self.on_ended(Verdict::Cancelled)
            }
            Event::QueryRefused(why) => {
                self.query = None;
                self.on_ended(Verdict::Failed(why.status()))
            }
            Event::Offloaded(end) => self.on_offloaded(&end),
            Event::Down { side, status } => self.on_down(side, status),
        }
    }

    fn on_opened(&mut self, side: Side) -> Said
        ensures said { result ≡ (table.on_opened side self.old.stage self.old).0 }
        ensures after { self.new ≡ (table.on_opened side self.old.stage self.old).1 }
    {
        match self.stage {
            Stage::Due(step) | Stage::Asked(step) => self.move_to(opened_to(side, step)),
            Stage::Accepted | Stage::Over(_) => Said::Nothing,
        }
    }

    fn on_sent(&mut self) -> Said
        ensures said { result ≡ (table.on_sent self.old.stage self.old).0 }
        ensures after { self.new ≡ (table.on_sent self.old.stage self.old).1 }
    {
        if let Stage::Due(step) = self.stage {
            self.stage = Stage::Asked(step);
        }
        Said::Nothing
    }

    fn on_allowed(&mut self) -> Said
        ensures said { result ≡ (table.on_allowed (table.asked_step self.old.stage) self.old).0 }
        ensures after { self.new ≡ (table.on_allowed (table.asked_step self.old.stage) self.old).1 }
    {
        match asked_step(self.stage) {
            Some(Step::AllowSource) => self.move_to(Some(Step::Notify)),
            Some(Step::AllowDest) => self.move_to(Some(Step::Copy)),
            _ => Said::Nothing,
        }
    }

    fn on_granted(&mut self, first: First) -> Said
        ensures said { result ≡ (table.on_granted first (table.asked_step self.old.stage) self.old).0 }
        ensures after { self.new ≡ (table.on_granted first (table.asked_step self.old.stage) self.old).1 }
    {
        if let Some(Step::Notify) = asked_step(self.stage) {
            self.stage = Stage::Due(Step::OpenDest);
            self.first = Some(first);
        }
        Said::Nothing
    }

    fn on_accepted(&mut self, id: StateId, sent_at: u64) -> Said
        ensures said { result ≡ (table.on_accepted id sent_at (table.asked_step self.old.stage) self.old).0 }
        ensures after { self.new ≡ (table.on_accepted id sent_at (table.asked_step self.old.stage) self.old).1 }
    {
        match asked_step(self.stage) {
            Some(Step::Copy) => {
                self.stage = Stage::Accepted;
                self.id = Some(id);
                self.asked_at = sent_at;
                Said::One(Word::Started)
            }
            _ => Said::Nothing,
        }
    }

    fn on_told(&mut self, change: u64, session: &Session) -> Said
        ensures said { result ≡ (table.on_told change session.now (table.asked_step self.old.stage) self.old).0 }
        ensures after { self.new ≡ (table.on_told change session.now (table.asked_step self.old.stage) self.old).1 }
    {
        match asked_step(self.stage) {
            Some(Step::Last) => {
                let verdict = told_by(stood_still(change, session, &self.first));
                self.end(verdict)
            }
            _ => Said::Nothing,
        }
    }

    fn on_refused(&mut self, status: Status) -> Said
        ensures said { result ≡ (table.on_refused status (table.asked_step self.old.stage) self.old).0 }
        ensures after { self.new ≡ (table.on_refused status (table.asked_step self.old.stage) self.old).1 }
    {
        match asked_step(self.stage) {
            None => Said::Nothing,
            Some(step) => self.end(lost_by(step, status)),
        }
    }

    fn on_queried(&mut self, query: Query) -> Said
        ensures said { result ≡ (table.on_queried query (table.is_going self.old.stage) self.old).0 }
        ensures after { self.new ≡ (table.on_queried query (table.is_going self.old.stage) self.old).1 }
    {
        if is_going(self.stage) {
            self.query = Some(query);
        }
        Said::Nothing
    }

    fn on_progressed(&mut self, count: u64, complete: Option<Status>) -> Said
        ensures said { result ≡ (table.on_progressed count complete (table.is_going self.old.stage) self.old).0 }
        ensures after { self.new ≡ (table.on_progressed count complete (table.is_going self.old.stage) self.old).1 }
    {
        if !is_going(self.stage) {
            return Said::Nothing;
        }
        match complete {
            None => Said::One(Word::Copied(count)),
            Some(status) => self.complete(count, status),
        }
    }

    fn complete(&mut self, count: u64, status: Status) -> Said
        ensures said { result ≡ (table.completed count (status.number == 0) status self.old).0 }
        ensures after { self.new ≡ (table.completed count (status.number == 0) status self.old).1 }
    {
        if status.number == 0 {
            self.stage = Stage::Due(Step::OpenAgain);
            Said::Two(Word::Copied(count), Word::Stable)
        } else {
            self.stage = Stage::Over(Verdict::Failed(status));
            Said::Two(Word::Copied(count), Word::Failed(status))
        }
    }

    fn on_ended(&mut self, verdict: Verdict) -> Said
        ensures said { result ≡ (table.on_ended verdict (table.is_going self.old.stage) self.old).0 }
        ensures after { self.new ≡ (table.on_ended verdict (table.is_going self.old.stage) self.old).1 }
    {
        if is_going(self.stage) {
            self.end(verdict)
        } else {
            Said::Nothing
        }
    }

    fn on_offloaded(&mut self, end: &OffloadEnd) -> Said
        ensures said { result ≡ (table.on_offloaded end.now (table.is_going self.old.stage) self.old).0 }
        ensures after { self.new ≡ (table.on_offloaded end.now (table.is_going self.old.stage) self.old).1 }
    {
        if !is_going(self.stage) {
            return Said::Nothing;
        }
        match end {
            OffloadEnd::Done(response) => self.on_synced(response.committed),
            OffloadEnd::Failed { status, .. } => self.end(Verdict::Failed(*status)),
        }
    }

    fn on_synced(&mut self, committed: Stability) -> Said
        ensures said { result ≡ (table.synced committed self.old).0 }
        ensures after { self.new ≡ (table.synced committed self.old).1 }
    {
        match committed {
            Stability::FileSync => {
                self.stage = Stage::Due(Step::OpenAgain);
                Said::One(Word::Stable)
            }
            Stability::DataSync | Stability::Unstable => Said::Nothing,
        }
    }

    fn on_down(&mut self, side: Side, status: Status) -> Said
        ensures said { result ≡ (table.on_down side status self.old).0 }
        ensures after { self.new ≡ (table.on_down side status self.old).1 }
    {
        self.query = query_down(side, self.query);
        match self.stage {
            Stage::Due(step) | Stage::Asked(step) => {
                self.fail_if(is_side(side, step.side()), lost_by(step, status))
            }
            Stage::Accepted => self.fail_if(is_side(side, Side::Dest), Verdict::Failed(status)),
            Stage::Over(_) => Said::Nothing,
        }
    }

    fn fail_if(&mut self, fails: bool, verdict: Verdict) -> Said
        ensures said { result ≡ (table.fails_if fails verdict self.old).0 }
        ensures after { self.new ≡ (table.fails_if fails verdict self.old).1 }
    {
        if fails {
            self.end(verdict)
        } else {
            Said::Nothing
        }
    }

    fn move_to(&mut self, step: Option<Step>) -> Said
        ensures said { result ≡ (table.moves step self.old).0 }
        ensures after { self.new ≡ (table.moves step self.old).1 }
    {
        if let Some(step) = step {
            self.stage = Stage::Due(step);
        }
        Said::Nothing
    }

    fn end(&mut self, verdict: Verdict) -> Said
        ensures said { result ≡ (table.ends_with verdict self.old).0 }
        ensures after { self.new ≡ (table.ends_with verdict self.old).1 }
    {
        self.stage = Stage::Over(verdict);
        Said::One(verdict.word())
    }
}

/// The step that is due once the file is open.
fn opened_to(side: Side, step: Step) -> Option<Step>
    ensures { result ≡ table.opened_to side step }
{
    match (side, step) {
        (Side::Source, Step::OpenSource) => Some(Step::AllowSource),
        (Side::Source, Step::OpenAgain) => Some(Step::Last),
        (Side::Dest, Step::OpenDest) => Some(Step::AllowDest),
        _ => None,
    }
}

/// The step that awaits its answer.
fn asked_step(stage: Stage) -> Option<Step>
    ensures { result ≡ table.asked_step stage }
{
    match stage {
        Stage::Asked(step) => Some(step),
        Stage::Due(_) | Stage::Accepted | Stage::Over(_) => None,
    }
}

/// Whether the copy goes on at the destination.
fn is_going(stage: Stage) -> bool
    ensures { result ≡ table.is_going stage }
{
    matches!(stage, Stage::Accepted)
}

/// What is said of a stable copy.
fn told_by(still: bool) -> Verdict
    ensures { result ≡ table.told_by still }
{
    if still {
        Verdict::Exact
    } else {
        Verdict::Unsure
    }
}

/// Whether the change attribute is the first one, and in the session of that.
fn stood_still(change: u64, session: &Session, first: &Option<First>) -> bool
    ensures { result ≡ table.stood_still change session.now first.now }
{
    match first {
        None => false,
        Some(first) => is_same_session(&first.session, session) && first.change == change,
    }
}

fn is_same_session(a: &Session, b: &Session) -> bool
    ensures { result ≡ table.is_same_session a.now b.now }
{
    a.id == b.id && a.root == b.root
}

/// How a copy ends of which a step came to nothing.
fn lost_by(step: Step, status: Status) -> Verdict
    ensures { result ≡ table.lost_by (is_stable step) status }
{
    if step.is_stable() {
        Verdict::Unsure
    } else {
        Verdict::Failed(status)
    }
}

fn is_side(a: Side, b: Side) -> bool
    ensures { result ≡ table.is_side a b }
{
    match a {
        Side::Source => matches!(b, Side::Source),
        Side::Dest => matches!(b, Side::Dest),
    }
}

/// What is asked of the destination is awaited no more once its setup is down.
fn query_down(side: Side, query: Option<Query>) -> Option<Query>
    ensures { result ≡ table.query_down side query }
{
    match side {
        Side::Source => query,
        Side::Dest => None,
    }
}
