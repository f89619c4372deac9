//! How copies go on.

ghost use Rattle.std.specs.Prelude.{◌≡◌, ◌<◌, IfOk};
ghost use Rattle.std.specs.List.{AllByRecursion};
ghost use Rattle.client_copies.specs.declared.copy.Step.TheVariants as steps;
ghost use Rattle.client_copies.specs.declared.table.TheConstants.{MOST_COPIES};
ghost use Rattle.client_steps.specs.CopySteps as spec;
ghost use Rattle.client_steps.specs.Setting.{IsFit};
ghost use Rattle.client_copies.specs.Steps as sides;
ghost use Rattle.client_site.specs.Sites as numbers;

use crate::desk::Desk;
use crate::setting::{Setting, last_call};
use client_copies::{ClientCopy, Event, MOST_COPIES, Stage, Step};
use client_site::OpenFile;
use gss_mech::Mechanism;
use mount::Under;
use nfs_base::{CopySpec, Side};
use outcome::Mem;
use std::alloc::Global;

/// For which file the first work of each queue has an OPEN out.
#[derive(Clone, Copy)]
pub struct Openings {
    pub source: Option<u32>,
    pub dest: Option<u32>,
}

impl Desk {
    /// What is due of these copies goes out, where it can, in their order.
    pub fn go_on_copies<M: Mechanism>(
        &mut self,
        alloc: Global,
        setting: &Setting<M>,
        openings: Openings,
        copies: &[u32],
    ) -> Mem<()>
        requires fit { IsFit setting.now }
        requires copies { AllByRecursion (λ j. j < MOST_COPIES) copies.now }
        ensures { IfOk result (λ _. self.new ≡ spec.copies_go_on setting.now M.mic_of openings copies.now self.old) }
    {
        match copies {
            [] => Ok(()),
            [j, more @ ..] => {
                self.find_open(*j)?;
                self.ask(alloc, setting, openings, *j)?;
                self.go_on_copies(alloc, setting, openings, more)
            }
        }
    }

    /// A copy whose file is open already needn't open it.
    fn find_open(&mut self, j: u32) -> Mem<()>
        requires { j < MOST_COPIES }
        ensures { IfOk result (λ _. self.new ≡ spec.copy_finds_open j (spec.copy_in j self.old) self.old) }
    {
        let Some(copy) = self.copy(j) else {
            return Ok(());
        };
        let Some(step) = copy.due() else {
            return Ok(());
        };
        if self.is_open(step, &copy) {
            self.tell(j, Event::Opened(step.side()))
        } else {
            Ok(())
        }
    }

    /// A copy, by its number.
    pub fn copy(&self, j: u32) -> Option<ClientCopy>
        requires { j < MOST_COPIES }
        ensures { result ≡ spec.copy_in j self.now }
    {
        match self.copies.copy(j) {
            None => None,
            Some(copy) => Some(*copy),
        }
    }

    fn is_open(&self, step: Step, copy: &ClientCopy) -> bool
        ensures { result ≡ spec.is_open step copy.now self.now }
    {
        opens(step)
            && self
                .file(step.side(), file_of(step.side(), &copy.spec))
                .is_some()
    }

    /// A file that is open at a server.
    pub fn file(&self, side: Side, file: u32) -> Option<OpenFile>
        ensures { result ≡ spec.file_on side file self.now }
    {
        match side {
            Side::Source => self.source.file(file),
            Side::Dest => self.dest.file(file),
        }
    }

    /// What is due of a copy goes out, where it can.
    fn ask<M: Mechanism>(
        &mut self,
        alloc: Global,
        setting: &Setting<M>,
        openings: Openings,
        j: u32,
    ) -> Mem<()>
        requires fit { IsFit setting.now }
        requires copy { j < MOST_COPIES }
        ensures { IfOk result (λ _. self.new ≡ spec.goes_asking setting.now M.mic_of openings j self.old) }
    {
        let Some(copy) = self.copy(j) else {
            return Ok(());
        };
        let Some(step) = copy.due() else {
            return Ok(());
        };
        if !self.may_ask(openings, step, &copy) {
            return Ok(());
        }
        if self.send_step_call(alloc, setting, step, j, &copy)? {
            self.tell(j, Event::Sent)
        } else {
            Ok(())
        }
    }

    fn may_ask(&self, openings: Openings, step: Step, copy: &ClientCopy) -> bool
        ensures { result ≡ spec.may_ask openings step copy.now self.now }
    {
        let side = step.side();
        if self.is_up(side) {
            !(opens(step) && self.is_opening(openings, side, file_of(side, &copy.spec)))
        } else {
            false
        }
    }

    /// Whether all is set up at a server.
    pub fn is_up(&self, side: Side) -> bool
        ensures { result ≡ spec.is_up side self.now }
    {
        match side {
            Side::Source => self.source.up().is_some(),
            Side::Dest => self.dest.up().is_some(),
        }
    }

    fn is_opening(&self, openings: Openings, side: Side, file: u32) -> bool
        ensures { result ≡ spec.is_opening openings side file self.now }
    {
        if is_number(opening_at(side, openings), file) {
            return true;
        }
        self.some_opens(
            side,
            file,
            &[1, 2, 3, 4, 5, 6, 7, 8, 9, 10, 11, 12, 13, 14, 15],
        )
    }

    /// Whether a copy among these awaits an OPEN of a file.
    pub fn some_opens(&self, side: Side, file: u32, copies: &[u32]) -> bool
        requires { AllByRecursion (λ j. j < MOST_COPIES) copies.now }
        ensures { result ≡ spec.some_opens side file copies.now self.now }
    {
        match copies {
            [] => false,
            [j, more @ ..] => {
                if copy_opens(side, file, self.copy(*j)) {
                    return true;
                }
                self.some_opens(side, file, more)
            }
        }
    }

    fn send_step_call<M: Mechanism>(
        &mut self,
        alloc: Global,
        setting: &Setting<M>,
        step: Step,
        j: u32,
        copy: &ClientCopy,
    ) -> Mem<bool>
        requires fit { IsFit setting.now }
        requires copy { j < MOST_COPIES }
        ensures told { IfOk result (λ told. told ≡ (spec.step_call setting.now M.mic_of step j copy.now self.old).0) }
        ensures after { IfOk result (λ told. self.new ≡ (spec.step_call setting.now M.mic_of step j copy.now self.old).1) }
    {
        match step {
            Step::OpenSource => self.open_source(alloc, setting, j, copy),
            Step::OpenAgain => self.open_source(alloc, setting, j, copy),
            Step::OpenDest => {
                let call = setting.open_call(alloc, &self.dest, copy.spec.dst_file)?;
                self.send_call(alloc, Side::Dest, j, Under::Root, call, &setting.mech)
            }
            Step::AllowSource => self.allow(alloc, setting, Side::Source, j, copy),
            Step::AllowDest => self.allow(alloc, setting, Side::Dest, j, copy),
            Step::Notify => {
                let call = setting.notify_call(copy, &self.source)?;
                self.send_call(alloc, Side::Source, j, Under::Child(j), call, &setting.mech)
            }
            Step::Copy => {
                let call = setting.copy_call(copy, &self.dest)?;
                self.send_call(alloc, Side::Dest, j, Under::Child(j), call, &setting.mech)
            }
            Step::Last => {
                let call = last_call(copy);
                self.send_call(alloc, Side::Source, j, Under::Root, call, &setting.mech)
            }
        }
    }

    fn open_source<M: Mechanism>(
        &mut self,
        alloc: Global,
        setting: &Setting<M>,
        j: u32,
        copy: &ClientCopy,
    ) -> Mem<bool>
        requires fit { IsFit setting.now }
        requires copy { j < MOST_COPIES }
        ensures told { IfOk result (λ told. told ≡ (spec.step_call setting.now M.mic_of steps.OpenSource j copy.now self.old).0) }
        ensures after { IfOk result (λ told. self.new ≡ (spec.step_call setting.now M.mic_of steps.OpenSource j copy.now self.old).1) }
    {
        let call = setting.open_call(alloc, &self.source, copy.spec.src_file)?;
        self.send_call(alloc, Side::Source, j, Under::Root, call, &setting.mech)
    }

    fn allow<M: Mechanism>(
        &mut self,
        alloc: Global,
        setting: &Setting<M>,
        side: Side,
        j: u32,
        copy: &ClientCopy,
    ) -> Mem<bool>
        requires fit { IsFit setting.now }
        requires copy { j < MOST_COPIES }
        ensures told { IfOk result (λ told. told ≡ (spec.allows setting.now M.mic_of side j copy.now.secret self.old).0) }
        ensures after { IfOk result (λ told. self.new ≡ (spec.allows setting.now M.mic_of side j copy.now.secret self.old).1) }
    {
        let privilege = setting.privilege(alloc, side, copy)?;
        self.send_create(alloc, side, j, &privilege, &setting.mech)
    }

    /// Whether what is due of a copy among these is for a server.
    pub fn some_needs(&self, side: Side, copies: &[u32]) -> bool
        requires { AllByRecursion (λ j. j < MOST_COPIES) copies.now }
        ensures { result ≡ spec.some_needs side copies.now self.now }
    {
        match copies {
            [] => false,
            [j, more @ ..] => {
                if copy_needs(side, self.copy(*j)) {
                    return true;
                }
                self.some_needs(side, more)
            }
        }
    }
}

/// The file of a copy at a server.
pub fn file_of(side: Side, asked: &CopySpec) -> u32
    ensures { result ≡ spec.file_of side asked.now }
{
    match side {
        Side::Source => asked.src_file,
        Side::Dest => asked.dst_file,
    }
}

/// Whether a step wants a file to be open.
pub fn opens(step: Step) -> bool
    ensures { result ≡ spec.opens step }
{
    matches!(step, Step::OpenSource | Step::OpenDest | Step::OpenAgain)
}

fn opening_at(side: Side, openings: Openings) -> Option<u32>
    ensures { result ≡ spec.opening_at side openings }
{
    match side {
        Side::Source => openings.source,
        Side::Dest => openings.dest,
    }
}

fn is_number(opening: Option<u32>, file: u32) -> bool
    ensures { result ≡ numbers.is_number opening file }
{
    match opening {
        None => false,
        Some(number) => number == file,
    }
}

fn copy_opens(side: Side, file: u32, copy: Option<ClientCopy>) -> bool
    ensures { result ≡ spec.copy_opens side file copy }
{
    let Some(copy) = copy else {
        return false;
    };
    let Stage::Asked(step) = copy.stage else {
        return false;
    };
    opens(step) && is_side(side, step.side()) && file_of(side, &copy.spec) == file
}

fn copy_needs(side: Side, copy: Option<ClientCopy>) -> bool
    ensures { result ≡ spec.copy_needs side copy }
{
    let Some(copy) = copy else {
        return false;
    };
    match copy.due() {
        None => false,
        Some(step) => is_side(side, step.side()),
    }
}

/// Whether two servers are the same.
pub fn is_side(a: Side, b: Side) -> bool
    ensures { result ≡ sides.is_side a b }
{
    match (a, b) {
        (Side::Source, Side::Source) => true,
        (Side::Source, Side::Dest) => false,
        (Side::Dest, Side::Source) => false,
        (Side::Dest, Side::Dest) => true,
    }
}
