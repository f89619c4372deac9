ghost use Rattle.std.specs.Prelude.{◌≡◌, ◌↔◌, [], true};
ghost use Rattle.copy_workers.specs.InFlight.{answered_by, joined_by, xid_of, xids_of};

// The calls that a worker sent on its link and that await an answer, by their xids, the older one first. A worker asks for work only
// where it awaits nothing, and is given two calls at most then; an answer brings one more at most.
#[derive(Clone, Copy)]
pub(crate) enum InFlight {
    Nothing,
    One(u32),
    Two(u32, u32),
}

impl InFlight {
    // Whether there are none.
    pub(crate) fn is_empty(self) -> bool
        ensures { result ≡ true ↔ xids_of self ≡ [] }
    {
        match self {
            InFlight::Nothing => true,
            InFlight::One(_) | InFlight::Two(_, _) => false,
        }
    }

    // With a call that goes out. So that nothing here takes memory, the oldest of three isn't awaited any more.
    pub(crate) fn with(self, call: &[u8]) -> InFlight
        ensures { xids_of result ≡ joined_by (xid_of call.now) (xids_of self) }
    {
        let Some(xid) = xid_of(call) else {
            return self;
        };
        match self {
            InFlight::Nothing => InFlight::One(xid),
            InFlight::One(first) => InFlight::Two(first, xid),
            InFlight::Two(_, second) => InFlight::Two(second, xid),
        }
    }

    // Without the call that a record answers which came. A record that came twice, or unasked, answers none.
    pub(crate) fn without(self, record_: &[u8]) -> InFlight
        ensures { xids_of result ≡ answered_by (xid_of record_.now) (xids_of self) }
    {
        let Some(xid) = xid_of(record_) else {
            return self;
        };
        match self {
            InFlight::One(first) if first == xid => InFlight::Nothing,
            InFlight::Two(first, second) if first == xid => InFlight::One(second),
            InFlight::Two(first, second) if second == xid => InFlight::One(first),
            _ => self,
        }
    }
}

// The first word of a record.
fn xid_of(record_: &[u8]) -> Option<u32>
    ensures { result ≡ xid_of record_.now }
{
    match record_ {
        [w, x, y, z, ..] => Some(u32::from_be_bytes([*w, *x, *y, *z])),
        _ => None,
    }
}
