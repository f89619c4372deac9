ghost use Rattle.std.specs.Prelude.{◌≡◌, ℕ, List};
ghost use Rattle.net_links.specs.Links.{Standing};
ghost use Rattle.link_server.specs.Hanging.{AllForCause, Sums};
ghost use Rattle.callback_server.specs.Hanging.{AllHung};

use crate::host::Host;
use std::sync::ledger::Ledger;

/// Where no connection wanted memory, each was hung up for a cause: it had ended, or a count of its faults had risen, or it had
/// brought a record too large, as many records as a connection is given, or more bytes than are counted, or the server's records
/// were all taken.
pub fn links_are_hung_up_for_a_cause<Q: Ledger, H: Host<Q>>()
    ensures { (earlier now : Sums) (links : List Standing) → AllHung H.answers earlier links now
        → now.starved ≡ earlier.starved → AllForCause earlier.taken links }
{}
