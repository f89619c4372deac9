ghost use Rattle.wire_schedule.specs.Admission.{after, admits, at_start, files_of, has_begun, has_file, has_writes_left, is_between, is_in_order, is_ready, is_within};
ghost use Rattle.wire_schedule.specs.Expansion.{after_all, after_directive, after_plain, are_admitted, fits, has_room, one_round, repeated};
ghost use Rattle.wire_schedule.specs.declared.event.Event.TheVariants.{Flow};
ghost use Rattle.std.specs.Prelude.{◌≡◌, ◌+◌, ◌<◌, ◌^◌, ◌∷◌, [], ◌&&◌, IsTrue, set, true};

use crate::event::{MOST_COPIES, is_between};
use crate::{Directive, Event};
use nfs_base::Side;

/// How many events a schedule may have, once its lines are written out event by event.
const MOST_EVENTS: u32 = 1_000_000;

/// How many writes and commits a schedule may have, taken together.
const MOST_WRITES: u32 = 4096;

/// How many times over a line gives its events at most.
const MOST_TIMES: u64 = 4096;

/// What the events of a schedule so far leave open: how many files each server's volume has, once its `volume` line was
/// there, which copies were begun, by number, and how many writes and commits and how many events there were.
#[derive(Clone, Copy)]
pub struct Context {
    pub source: Option<u32>,
    pub dest: Option<u32>,
    pub begun: [bool; MOST_COPIES as usize + 1],
    pub writes: u32,
    pub events: u32,
}

impl Context {
    /// Before the first event.
    pub fn start() -> Context
        ensures { result ≡ at_start }
    {
        Context {
            source: None,
            dest: None,
            begun: [false; MOST_COPIES as usize + 1],
            writes: 0,
            events: 0,
        }
    }

    /// Whether the event may come next: it keeps the limits, and stands in order.
    pub fn admits(&self, event: &Event) -> bool
        ensures { result ≡ admits self.now event.now }
    {
        self.events < MOST_EVENTS && event.is_within() && self.is_in_order(event)
    }

    /// The events so far, with this one as the last.
    pub fn after(self, event: &Event) -> Context
        requires { IsTrue (admits self event.now) }
        ensures { result ≡ after self event.now }
    {
        let events = self.events + 1;
        match event {
            Event::Volume {
                side: Side::Source,
                files,
                ..
            } => Context {
                source: Some(*files),
                events,
                ..self
            },
            Event::Volume {
                side: Side::Dest,
                files,
                ..
            } => Context {
                dest: Some(*files),
                events,
                ..self
            },
            Event::Write { .. } | Event::Commit { .. } => Context {
                writes: self.writes + 1,
                events,
                ..self
            },
            Event::Copy { copy, .. } => Context {
                begun: self.begun_with(*copy),
                events,
                ..self
            },
            Event::Status { .. }
            | Event::Cancel { .. }
            | Event::Retry
            | Event::Deliver { .. }
            | Event::Flow
            | Event::Work { .. }
            | Event::Tick { .. }
            | Event::Peek { .. }
            | Event::Crash { .. }
            | Event::CrashAfter { .. } => Context { events, ..self },
        }
    }

    /// Whether the line may come next: it is within its own limit, and its events may come one after the other.
    pub fn fits(&self, directive: &Directive) -> bool
        ensures { result ≡ fits self.now directive.now }
    {
        match directive {
            Directive::Once(event) => self.fits_once(event),
            Directive::Flows { times } => self.fits_flows(*times),
            Directive::Rounds { times } => self.fits_rounds(*times),
        }
    }

    fn fits_once(&self, event: &Event) -> bool
        ensures { result ≡ (is_within event.now && are_admitted self.now (event.now ∷ [])) }
    {
        self.admits(event)
    }

    #[tactic(auto, using(crate::proofs::ExpansionLemmas::flows_fit))]
    fn fits_flows(&self, times: u32) -> bool
        ensures { result ≡ (is_between 1 4096 times && are_admitted self.now (repeated times (Flow ∷ []))) }
    {
        is_between(1, MOST_TIMES, u64::from(times)) && self.has_room(times)
    }

    #[tactic(auto, using(crate::proofs::ExpansionLemmas::rounds_fit))]
    fn fits_rounds(&self, times: u32) -> bool
        ensures { result ≡ (is_between 1 4096 times && are_admitted self.now (repeated times one_round)) }
    {
        is_between(1, MOST_TIMES, u64::from(times)) && self.has_room(2 * times)
    }

    /// The events so far, with those of this line after them.
    pub fn after_directive(self, directive: &Directive) -> Context
        requires { IsTrue (fits self directive.now) }
        ensures { result ≡ after_directive self directive.now }
    {
        match directive {
            Directive::Once(event) => self.after(event),
            Directive::Flows { times } => self.after_flows(*times),
            Directive::Rounds { times } => self.after_rounds(*times),
        }
    }

    fn after_flows(self, times: u32) -> Context
        requires { IsTrue (is_between 1 4096 times && are_admitted self (repeated times (Flow ∷ []))) }
        ensures { result ≡ after_all self (repeated times (Flow ∷ [])) }
    {
        self.after_plain(times)
    }

    fn after_rounds(self, times: u32) -> Context
        requires { IsTrue (is_between 1 4096 times && are_admitted self (repeated times one_round)) }
        ensures { result ≡ after_all self (repeated times one_round) }
    {
        self.after_plain(2 * times)
    }

    fn is_in_order(&self, event: &Event) -> bool
        ensures { result ≡ is_in_order self.now event.now }
    {
        match event {
            Event::Volume { side, .. } => self.files(*side).is_none(),
            Event::Write { side, file, .. } | Event::Commit { side, file } => {
                self.is_ready() && self.has_file(*side, *file) && self.has_writes_left()
            }
            Event::Copy { copy, spec } => {
                self.is_ready()
                    && !self.has_begun(*copy)
                    && self.has_file(Side::Source, spec.src_file)
                    && self.has_file(Side::Dest, spec.dst_file)
            }
            Event::Status { copy } | Event::Cancel { copy } => {
                self.is_ready() && self.has_begun(*copy)
            }
            Event::Peek { side, file, .. } => self.is_ready() && self.has_file(*side, *file),
            Event::Retry
            | Event::Deliver { .. }
            | Event::Flow
            | Event::Work { .. }
            | Event::Tick { .. }
            | Event::Crash { .. }
            | Event::CrashAfter { .. } => self.is_ready(),
        }
    }

    fn files(&self, side: Side) -> Option<u32>
        ensures { result ≡ files_of self.now side }
    {
        match side {
            Side::Source => self.source,
            Side::Dest => self.dest,
        }
    }

    fn has_file(&self, side: Side, file: u32) -> bool
        ensures { result ≡ has_file self.now side file }
    {
        match self.files(side) {
            None => false,
            Some(files) => 1 <= file && file <= files,
        }
    }

    fn is_ready(&self) -> bool
        ensures { result ≡ is_ready self.now }
    {
        self.source.is_some() && self.dest.is_some()
    }

    fn has_writes_left(&self) -> bool
        ensures { result ≡ has_writes_left self.now }
    {
        self.writes < MOST_WRITES
    }

    fn has_begun(&self, copy: u8) -> bool
        ensures { result ≡ has_begun self.now copy }
    {
        copy <= MOST_COPIES && self.begun[usize::from(copy)]
    }

    fn begun_with(&self, copy: u8) -> [bool; MOST_COPIES as usize + 1]
        requires { copy < 16 }
        ensures { result ≡ set self.now.begun copy true }
    {
        let mut begun = self.begun;
        begun[usize::from(copy)] = true;
        begun
    }

    /// Whether so many events may come that need nothing but both volumes.
    fn has_room(&self, events: u32) -> bool
        requires { events < 2 ^ 14 }
        ensures { result ≡ has_room self.now events }
    {
        self.is_ready() && self.events <= MOST_EVENTS && self.events + events <= MOST_EVENTS
    }

    /// The events so far, with so many after them that leave nothing open.
    fn after_plain(self, events: u32) -> Context
        requires { self.events + events < 2 ^ 32 }
        ensures { result ≡ after_plain self events }
    {
        Context {
            events: self.events + events,
            ..self
        }
    }
}
