ghost use Rattle.std.specs.Prelude.{◌≡◌, IfOk};
ghost use Rattle.std.specs.String.{string_bytes};
ghost use Rattle.nfscopy.specs.Summary.{answer_text, summary_text};

use large_copy::LargeCopy;
use outcome::Mem;
use std::alloc::Global;
use wire_tally::Tally;

/// What the run of a large copy comes to.
#[derive(Clone, Copy, PartialEq, Eq)]
pub struct Summary {
    /// How many mebibytes the copy has.
    pub plan: LargeCopy,

    /// How many records were sent.
    pub records: u64,

    /// What the transcript says of the copies in it.
    pub tally: Tally,

    /// Whether both files were read and had the same bytes at the end.
    pub alike: bool,
}

impl Summary {
    /// Its lines.
    pub fn text(self, alloc: Global) -> Mem<String>
        ensures { IfOk result (λ text. string_bytes text ≡ summary_text self) }
    {
        let Tally {
            stable,
            exact,
            landed,
        } = self.tally;
        let (mebibytes, records) = (self.plan.mebibytes(), self.records);
        let alike = answer(self.alike);
        Ok(format!(in alloc;
            "gen {mebibytes}\nrecords {records}\nlanded {landed}\nstable {stable}\nexact {exact}\nequal {alike}\n"
        )?)
    }
}

fn answer(yes: bool) -> &'static str
    ensures { result.now ≡ answer_text yes }
{
    if yes { "yes" } else { "no" }
}
