//! What holds of every queue.

ghost use Rattle.std.specs.Prelude.{◌≡◌, ◌++◌, List, map};
ghost use Rattle.write_queue.specs.Laws.{Turn, come, line_file, ran, told};
ghost use Rattle.write_queue.specs.Queue.{Queued, file_of};

/// Each work is answered by one line, in the order in which they came: the lines that are told, and behind them the works
/// that aren't answered yet, are of the files of the works that were there and then of those that came, in that order.
pub fn works_are_answered_in_order()
    ensures { (turns : List Turn) (q : Queued) → map line_file (told turns q) ++ map file_of (ran turns q).works ≡ map file_of q.works ++ map file_of (come turns) }
{}
