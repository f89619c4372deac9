//! Laws of deeds.

ghost use Rattle.std.specs.Prelude.{◌≡◌, ◌<◌, ℕ, [], List, None, Some};
ghost use Rattle.dest_laws.specs.Histories.Kinds.{TakesAndEnds};
ghost use Rattle.dest_laws.specs.Histories.Linked.{AreLinked, CopyKeeps, GoOn, Planned, name_at};
ghost use Rattle.dest_laws.specs.Histories.Seen.{GrowsBy, IsGiven, Later, Seen, entries_in, seen_in};
ghost use Rattle.dest_tasks.specs.Completing.{Comes, Deed};
ghost use Rattle.job_book.specs.Book.{BookView, IsSound};
ghost use Rattle.nfs_base.specs.declared.job.JobName.{JobName};
ghost use Rattle.wire_model.specs.Copies.{Job as Copy};

/// From one book to another by deeds, a job that is there before and then keeps its plan, and its entries are those before and
/// behind them what the deeds give it. A job that isn't there, though its name was given out, never comes back. Where copies are
/// taken and jobs end, and nothing else is done, no job gets an entry, and one whose name is new has none.
pub fn entries_grow_by_deeds()
    ensures later { (deeds : List Deed) (b c : BookView) → Comes deeds b c → Later b.table c.table }
    ensures grows { (deeds : List Deed) (b c : BookView) (name : JobName) (old new : Seen) → Comes deeds b c → IsGiven b.table name
        → seen_in b.table name ≡ Some old → seen_in c.table name ≡ Some new → GrowsBy (entries_in name deeds) old new }
    ensures gone { (deeds : List Deed) (b c : BookView) (name : JobName) → Comes deeds b c → IsGiven b.table name
        → seen_in b.table name ≡ None → seen_in c.table name ≡ None }
    ensures kept { (b c : BookView) (name : JobName) (old new : Seen) → TakesAndEnds b c → IsGiven b.table name
        → seen_in b.table name ≡ Some old → seen_in c.table name ≡ Some new → GrowsBy [] old new }
    ensures blank { (b c : BookView) (name : JobName) (new : Seen) → IsSound b.table → TakesAndEnds b c → b.table.made < name.number
        → seen_in c.table name ≡ Some new → new.entries ≡ [] }
{}

/// A history whose copies are linked to the jobs of a destination, the copy at a place to the job of the number behind it, and that
/// goes on as the table shows it, stays linked to it. Each copy that was there keeps its plan and stays retired once it is; it gets
/// the entries that the deeds give its job, or is retired.
pub fn histories_stay_linked()
    ensures linked { (plan_of : Planned) (deeds : List Deed) (b c : BookView) → Comes deeds b c → (old new : ℕ → Copy) → AreLinked plan_of b.table old
        → GoOn plan_of b.table c.table old new → AreLinked plan_of c.table new }
    ensures keeps { (plan_of : Planned) (deeds : List Deed) (b c : BookView) → Comes deeds b c → (old new : ℕ → Copy) → AreLinked plan_of b.table old
        → GoOn plan_of b.table c.table old new → (place : ℕ) → place < b.table.made
        → CopyKeeps (entries_in (name_at c.table.boot place) deeds) (old place) (new place) }
{}
