ghost use Rattle.std.specs.Prelude.{◌≡◌, true, None, Some, Option, IfSome, is_some};
ghost use Rattle.command_line.specs.Command.{is_copy, is_format, service_in};
ghost use Rattle.command_line.specs.Disks.{HasDisks, MayOpen};
ghost use Rattle.command_line.specs.declared.command.Command.{Command};
ghost use Rattle.nfs_base.specs.declared.side.Side.TheVariants.{Source, Dest};
ghost use Rattle.command_line.specs.declared.command.Asked.{Asked};
ghost use Rattle.volume_format.specs.DiskWords.{disk_words};

use disk_model::Disk;

/// Disks that are there are enough for every command but a server's, and one in the source's place is for `format`; two are for every
/// command where both may be opened, and one that may be opened is for a server, in its place. A copy by a client needs none.
pub fn disks_suffice<D: Disk>()
    ensures both { (command : Option Command) (source dest : Option D) → service_in command ≡ None → is_some source ≡ true → is_some dest ≡ true
        → HasDisks (disk_words D.Told D.faults D.size D.timeline) command source dest }
    ensures one { (command : Option Command) (source dest : Option D) → is_format command ≡ true → is_some source ≡ true
        → HasDisks (disk_words D.Told D.faults D.size D.timeline) command source dest }
    ensures any { (command : Option Command) (source dest : Option D) → is_some source ≡ true → is_some dest ≡ true
        → IfSome source (MayOpen (disk_words D.Told D.faults D.size D.timeline)) → IfSome dest (MayOpen (disk_words D.Told D.faults D.size D.timeline))
        → HasDisks (disk_words D.Told D.faults D.size D.timeline) command source dest }
    ensures dest { (asked : Asked) (command : Option Command) (source dest : Option D) → service_in command ≡ Some asked → asked.side ≡ Dest → is_some dest ≡ true
        → IfSome dest (MayOpen (disk_words D.Told D.faults D.size D.timeline)) → HasDisks (disk_words D.Told D.faults D.size D.timeline) command source dest }
    ensures source { (asked : Asked) (command : Option Command) (source dest : Option D) → service_in command ≡ Some asked → asked.side ≡ Source → is_some source ≡ true
        → IfSome source (MayOpen (disk_words D.Told D.faults D.size D.timeline)) → HasDisks (disk_words D.Told D.faults D.size D.timeline) command source dest }
    ensures none { (command : Option Command) (source dest : Option D) → is_copy command ≡ true
        → HasDisks (disk_words D.Told D.faults D.size D.timeline) command source dest }
{}
