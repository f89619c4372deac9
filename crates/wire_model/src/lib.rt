//! Three machines as they look from outside, the laws that each owes for a step, and what follows for every
//! run: it keeps its copies and stops them, and the client keeps its word.
//!
//! There is no code here. `specs/Wire.antt` has what is seen of an end, `specs/ServerLaws.antt` and
//! `specs/CallerLaws.antt` the laws of a server and of its callers, `specs/Check.antt` the runner's check,
//! `specs/CopyLaws.antt` those of volumes, of what results tell, and of the destination's copies,
//! `specs/NameLaws.antt` and `specs/WordLaws.antt` those of names, reports and the client's word,
//! `specs/Lawful.antt` all of them of a system. The contract to read first is [`lawful_systems`]; it stands on
//! [`lawful_wires`]: whatever a caller takes as an answer was told so by the server that it asked.
//!
//! The words are those of RFC 8881 (sessions and slots), RFC 2203 and RFC 7861 (contexts), RFC 5531 (xid) and
//! RFC 7862 (copies).
#![tactic(auto)]

mod checks;
mod sanity;
mod systems;
mod wires;

pub use checks::checked_runs;
pub use sanity::{idle_example, kept_answer_example, refused_steps};
pub use systems::lawful_systems;
pub use wires::lawful_wires;
