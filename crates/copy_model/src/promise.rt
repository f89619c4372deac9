ghost use Rattle.std.specs.Prelude.{ℕ};
ghost use Rattle.copy_model.specs.Moment.{History};
ghost use Rattle.copy_model.specs.Promise.{IsKept, IsStopped};
ghost use Rattle.copy_model.specs.Laws.{Progress, IsLawfulRun};

/// A run whose every step obeys the laws keeps its copies and stops them, whatever else it does.
pub fn lawful_runs()
    ensures kept { (h : History) (progress : ℕ → ℕ → Progress) → IsLawfulRun h progress → IsKept h }
    ensures stopped { (h : History) (progress : ℕ → ℕ → Progress) → IsLawfulRun h progress → IsStopped h }
{}
