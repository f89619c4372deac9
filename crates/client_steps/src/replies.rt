//! What a reply does, and how a setup goes on.

ghost use Rattle.std.specs.Prelude.{◌≡◌, ◌<◌, ◌≤◌, length, IfOk, IfSome};
ghost use Rattle.client_copies.specs.declared.table.TheConstants.{MOST_COPIES};
ghost use Rattle.client_steps.specs.Acting.{acting};
ghost use Rattle.client_steps.specs.Desks.{site_at, with_site};
ghost use Rattle.client_steps.specs.Replies as spec;
ghost use Rattle.client_steps.specs.Setting.{IsFit};
ghost use Rattle.mount.specs.declared.state.TheConstants.{PLACES};
ghost use Rattle.nfs_base.specs.declared.limits.TheConstants.{NAME_LIMIT};

use crate::acting::{Course, Queues};
use crate::deeds::{Deed, setup_deed, work_deed};
use crate::desk::Desk;
use crate::setting::Setting;
use client_copies::Event;
use client_site::{Found, OpenFile};
use file_ops::{OP_CREATE_SESSION, OP_EXCHANGE_ID};
use gss_mech::Mechanism;
use mount::Told;
use nfs_base::{Seal, Side, StateId};
use outbox::{CallLabel, Dropped, Note};
use outcome::Mem;
use session_client::Setup;
use std::alloc::Global;
use write_queue::QueueEvent;

impl Course {
    /// A reply comes from a server. `free` is the number of the next context for callbacks, where there is room for one.
    pub fn on_reply<M: Mechanism>(
        &mut self,
        alloc: Global,
        setting: &Setting<M>,
        queues: &Queues,
        side: Side,
        record_: &[u8],
        free: Option<u32>,
    ) -> Mem<()>
        requires { IsFit setting.now }
        ensures { IfOk result (λ _. acting queues.now self.new ≡ spec.replied (record { mic = M.mic_of; derived = M.derived; finished = M.finished setting.now.mech setting.now.me }) setting.now.me free side record_.now (acting queues.now self.old)) }
    {
        let setting_up = self.desk.site(side).mount.is_setting_up();
        let found = self.desk.take(alloc, setting, side, record_)?;
        self.on_found(alloc, setting, queues, side, setting_up, found, free)
    }

    fn on_found<M: Mechanism>(
        &mut self,
        alloc: Global,
        setting: &Setting<M>,
        queues: &Queues,
        side: Side,
        setting_up: bool,
        found: Option<Found>,
        free: Option<u32>,
    ) -> Mem<()>
        requires fit { IsFit setting.now }
        requires place { IfSome found (λ f. f.place < PLACES) }
        ensures { IfOk result (λ _. acting queues.now self.new ≡ spec.answered setting_up M.mic_of setting.now.me free side found (acting queues.now self.old)) }
    {
        let Some(found) = found else {
            return self.desk.note(Note::Dropped {
                why: Dropped::Unmatched,
            });
        };
        let Found {
            place,
            sent_at,
            told,
            accepted,
        } = found;
        self.desk.accept(accepted);
        let deed = self.deed_of(queues, setting_up, &told, side, place, sent_at);
        self.do_deed(alloc, setting, queues, deed, free, side, place, sent_at)
    }

    fn deed_of(
        &self,
        queues: &Queues,
        setting_up: bool,
        told: &Told,
        side: Side,
        place: u32,
        sent_at: u64,
    ) -> Deed
        requires { place < MOST_COPIES }
        ensures { result ≡ spec.deed_of setting_up told.now side place sent_at (acting queues.now self.now) }
    {
        if place != 0 {
            return self.desk.copy_deed(told, side, place, sent_at);
        }
        if setting_up {
            return setup_deed(told);
        }
        match side {
            Side::Source => work_deed(told, &self.source_plan, &queues.source),
            Side::Dest => work_deed(told, &self.dest_plan, &queues.dest),
        }
    }

    fn do_deed<M: Mechanism>(
        &mut self,
        alloc: Global,
        setting: &Setting<M>,
        queues: &Queues,
        deed: Deed,
        free: Option<u32>,
        side: Side,
        place: u32,
        sent_at: u64,
    ) -> Mem<()>
        requires fit { IsFit setting.now }
        requires place { place < MOST_COPIES }
        ensures { IfOk result (λ _. acting queues.now self.new ≡ spec.done deed M.mic_of setting.now.me free side place sent_at (acting queues.now self.old)) }
    {
        match deed {
            Deed::Rests => Ok(()),
            Deed::Goes => self.desk.set_up_further(alloc, setting, free, side),
            Deed::Falls(status) => self.go_down(alloc, queues, side, status),
            Deed::Opens(opened_file) => self.open(queues, side, place, opened_file),
            Deed::Queue(event) => self.tell_queue(queues, side, event),
            Deed::Copy(event) => self.desk.tell(place, event),
            Deed::Starts(id) => self.desk.start(place, id, sent_at),
        }
    }

    fn open(&mut self, queues: &Queues, side: Side, place: u32, opened_file: OpenFile) -> Mem<()>
        requires { place < MOST_COPIES }
        ensures { IfOk result (λ _. acting queues.now self.new ≡ spec.opened side place opened_file (acting queues.now self.old)) }
    {
        self.desk.add_file(side, opened_file)?;
        if place == 0 {
            self.tell_queue(queues, side, QueueEvent::Opened)
        } else {
            self.desk.tell(place, Event::Opened(side))
        }
    }
}

impl Desk {
    pub(crate) fn take<M: Mechanism>(
        &mut self,
        alloc: Global,
        setting: &Setting<M>,
        side: Side,
        record_: &[u8],
    ) -> Mem<Option<Found>>
        ensures found { IfOk result (λ found. found ≡ (spec.taken (record { mic = M.mic_of; derived = M.derived; finished = M.finished setting.now.mech setting.now.me }) record_.now side self.old).0) }
        ensures place { IfOk result (λ found. IfSome found (λ f. f.place < PLACES)) }
        ensures after { IfOk result (λ found. self.new ≡ (spec.taken (record { mic = M.mic_of; derived = M.derived; finished = M.finished setting.now.mech setting.now.me }) record_.now side self.old).1) }
    {
        match side {
            Side::Source => self
                .source
                .take(alloc, setting.me.as_slice(), record_, &setting.mech),
            Side::Dest => self
                .dest
                .take(alloc, setting.me.as_slice(), record_, &setting.mech),
        }
    }

    /// Under which seal the record was accepted.
    pub fn accept(&mut self, accepted: Option<Seal>)
        ensures { self.new ≡ spec.under_seal accepted self.old }
    {
        self.out.accepted = accepted;
    }

    fn add_file(&mut self, side: Side, opened_file: OpenFile) -> Mem<()>
        ensures { IfOk result (λ _. self.new ≡ spec.file_added side opened_file self.old) }
    {
        match side {
            Side::Source => self.source.add_file(opened_file),
            Side::Dest => self.dest.add_file(opened_file),
        }
    }

    fn start(&mut self, j: u32, id: StateId, sent_at: u64) -> Mem<()>
        requires { j < MOST_COPIES }
        ensures { IfOk result (λ _. self.new ≡ spec.started j id sent_at self.old) }
    {
        let said = self.copies.accept(j, id, sent_at);
        self.note_said(j, said)
    }

    /// The next call of a setup goes out.
    fn set_up_further<M: Mechanism>(
        &mut self,
        alloc: Global,
        setting: &Setting<M>,
        free: Option<u32>,
        side: Side,
    ) -> Mem<()>
        requires { IsFit setting.now }
        ensures { IfOk result (λ _. self.new ≡ spec.setup_goes_on M.mic_of setting.now.me free side self.old) }
    {
        match self.site(side).mount.setup() {
            Setup::Rooted { .. } => {
                let label = CallLabel::Operation(OP_EXCHANGE_ID);
                self.send_step(
                    alloc,
                    setting.me.as_slice(),
                    side,
                    None,
                    label,
                    &setting.mech,
                )?;
                Ok(())
            }
            Setup::Registered { .. } => self.ask_session(alloc, setting, free, side),
            Setup::Joined { .. } => {
                self.send_reclaim(alloc, side, &setting.mech)?;
                Ok(())
            }
            Setup::Down | Setup::Up { .. } => Ok(()),
        }
    }

    /// CREATE_SESSION goes out, with a context for callbacks where there is room for one.
    fn ask_session<M: Mechanism>(
        &mut self,
        alloc: Global,
        setting: &Setting<M>,
        free: Option<u32>,
        side: Side,
    ) -> Mem<()>
        requires { IsFit setting.now }
        ensures { IfOk result (λ _. self.new ≡ spec.session_asked M.mic_of setting.now.me free side self.old) }
    {
        let back = self.site(side).back_channel(free);
        let root = self.site(side).mount.root();
        let label = CallLabel::Operation(OP_CREATE_SESSION);
        if !self.send_step(
            alloc,
            setting.me.as_slice(),
            side,
            back,
            label,
            &setting.mech,
        )? {
            return Ok(());
        }
        self.make_back(free, root, side);
        Ok(())
    }

    fn make_back(&mut self, free: Option<u32>, root: Option<([u8; 8], [u8; 32])>, side: Side)
        ensures { self.new ≡ spec.back_made free root side self.old }
    {
        let Some(number) = free else {
            return;
        };
        let Some(root) = root else {
            return;
        };
        let key = root.1;
        self.made = Some(key);
        match side {
            Side::Source => self.source.back = Some(number),
            Side::Dest => self.dest.back = Some(number),
        }
    }
}
