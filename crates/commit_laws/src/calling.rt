use session_server::Extending;

/// A server's extension whose own operations change the volume by calls alone, each of them noted.
pub trait Calling<C>: Extending<C> {
    ghost use Rattle.std.specs.Prelude.{Option};
    ghost use Rattle.copy_ops.specs.declared.arg.CopyArg.{CopyArg};
    ghost use Rattle.file_server.specs.declared.extension.Caller.{Caller};
    ghost use Rattle.file_server.specs.Machine.{Going};
    ghost use Rattle.server_volume.specs.Choices.{Choice};
    ghost use Rattle.commit_laws.specs.Calling.{CameByCalls};

    ghost by_calls: { (choice : Choice) (caller : Caller) (carry : Option C) (op : CopyArg) (g : Going Self)
        → CameByCalls g.machine.store (Self.serves choice caller carry op g).going.machine.store g.used (Self.serves choice caller carry op g).going.used };
}
