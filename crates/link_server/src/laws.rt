ghost use Rattle.std.specs.Prelude.{◌≡◌, ℕ, List, Option};
ghost use Rattle.net_links.specs.Links.{Standing};
ghost use Rattle.link_server.specs.Answering.{Answers};
ghost use Rattle.link_server.specs.Hanging.{AllForCause, AllHung, Sums};

use crate::machine::Machine;

/// Where no connection wanted memory, each was hung up for a cause: it had ended, or a count of its faults had risen, or it had
/// brought a record too large, as many records as a connection is given, or more bytes than are counted, or the server's records
/// were all taken.
pub fn links_are_hung_up_for_a_cause<K: Machine>()
    ensures { (origin : Option K) (earlier now : Sums) (links : List Standing) → AllHung (Answers K.calls_of K.step K.kept origin) earlier links now
        → now.starved ≡ earlier.starved → AllForCause earlier.taken links }
{}
