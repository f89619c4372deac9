ghost use Rattle.std.specs.List.{list_any};
ghost use Rattle.std.specs.Prelude.{ℕ, ◌≡◌, true, false, ◌≤◌, ◌∷◌, All, IsTrue, List, Ok};
ghost use Rattle.nfs_base.specs.declared.side.Side.{Side};
ghost use Rattle.nfs_base.specs.declared.side.Side.TheVariants.{Source, Dest};
ghost use Rattle.wire_schedule.specs.Admission.{at_start, has_file};
ghost use Rattle.wire_schedule.specs.Expansion.{after_all, are_admitted};
ghost use Rattle.wire_schedule.specs.ScheduleText.{entry, schedule_of};
ghost use Rattle.wire_schedule.specs.Spelling.{FitsFields, text_of};
ghost use Rattle.wire_schedule.specs.declared.directive.Directive.TheVariants.{Once};
ghost use Rattle.wire_schedule.specs.declared.directive.Entry.{Entry};
ghost use Rattle.wire_schedule.specs.declared.event.Event.TheVariants.{Volume};
ghost use Rattle.large_copy.specs.Large.{blocks_of, is_crash, large_events, large_lines, large_schedule};

use wire_schedule::schedule_texts;

/// Each event of a large copy's schedule may come after those before it.
pub fn large_schedules_are_admitted()
    ensures { (mebibytes : ℕ) → 1 ≤ mebibytes → mebibytes ≤ 64
        → IsTrue (are_admitted at_start (large_events mebibytes)) }
{}

/// Behind them both servers have their one file.
pub fn large_copies_have_files()
    ensures { (mebibytes : ℕ) (side : Side) → has_file (after_all at_start (large_events mebibytes)) side 1 ≡ true }
{}

/// None of them stops a server.
pub fn large_schedules_stop_nobody()
    ensures { (mebibytes : ℕ) → list_any is_crash (large_events mebibytes) ≡ false }
{}

/// The numbers of each of its events fit their types, and its bytes are bytes.
pub fn large_events_fit()
    ensures { (mebibytes : ℕ) → 1 ≤ mebibytes → mebibytes ≤ 64
        → All (λ entry. FitsFields entry.directive) (large_schedule mebibytes) }
{}

/// It begins with one volume at each side, of one file each.
pub fn large_schedules_name_disks()
    ensures { (mebibytes : ℕ) → (more : List Entry)
        × (large_schedule mebibytes ≡ entry 1 (Once (Volume Source 1 (blocks_of mebibytes)))
        ∷ entry 2 (Once (Volume Dest 1 (blocks_of mebibytes))) ∷ more) }
{}

/// It is the schedule of a text, which has a line for each of its own.
pub fn large_schedules_have_texts()
    ensures { (mebibytes : ℕ) → 1 ≤ mebibytes → mebibytes ≤ 64
        → schedule_of (text_of (large_lines mebibytes)) ≡ Ok (large_schedule mebibytes) }
{
    schedule_texts();
}
