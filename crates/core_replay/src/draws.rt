//! What is drawn in a case.

use std::alloc::Global;
use streams::{CountDraws, Drawn, Draws};

/// Draws by a counter, which fail once so many were made.
#[derive(Drop)]
pub struct CaseDraws {
    drawn: CountDraws,
    left: u64,
    faults: u64,
}

impl CaseDraws {
    /// The draws of a case with this name. They are few where it ends with `-draws-N`.
    pub fn of_case(name: &str) -> CaseDraws {
        CaseDraws {
            drawn: CountDraws::new(),
            left: few_draws(name).unwrap_or(u64::MAX),
            faults: 0,
        }
    }
}

fn few_draws(name: &str) -> Option<u64> {
    let (_, few) = name.split_once("-draws-")?;
    few.parse::<u64>().ok()
}

impl Draws for CaseDraws {
    ghost use Rattle.std.specs.Prelude.{⊤};

    ghost gives = { λ _ _ _. ⊤ };

    ghost faults = { λ d. d.faults };

    fn draw(&mut self) -> Drawn {
        if self.left == 0 {
            self.faults = self.faults.saturating_add(1);
            return Drawn::Failed;
        }
        self.left = self.left.saturating_sub(1);
        self.drawn.draw()
    }
}
