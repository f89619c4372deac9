//! The back channels of a server's sessions.

ghost use Rattle.std.specs.Prelude.{ℕ, List, Option};
ghost use Rattle.compound_server.specs.Compounds.{on_compound};
ghost use Rattle.compound_server.specs.Course.{Service};
ghost use Rattle.compound_server.specs.Serves.{Served};
ghost use Rattle.compound_server.specs.State.{Parting, State};
ghost use Rattle.compound_server.specs.declared.who.Who.{Who};
ghost use Rattle.copy_ops.specs.declared.arg.CopyArg.{CopyArg};
ghost use Rattle.dest_laws.specs.Names.Posts.{BacksFit, SessionsFit};
ghost use Rattle.file_server.specs.Machine.{Going};
ghost use Rattle.file_server.specs.declared.extension.Ask.{Ask};
ghost use Rattle.file_server.specs.declared.extension.Caller.{Caller};
ghost use Rattle.file_server.specs.declared.extension.Gate.{Gate};
ghost use Rattle.nfs_compound.specs.declared.compound.Compound.{Compound};
ghost use Rattle.server_volume.specs.Choices.{Choice};
ghost use Rattle.sess_slots.specs.Table.{SessionTable};

/// Whatever a COMPOUND does, the back channels of sessions go by contexts whose handles have eight bytes.
pub fn back_channels_fit<X, C>()
    ensures compound { (gate : X → Caller → Option C → Ask → X × Gate) (serve : Choice → Caller → Option C → CopyArg → Going X → Served X) (parting : Parting X)
        (choice : Choice) (who : Who) (principal : List ℕ) (carry : Option C) (c : Compound) (s : State X) → SessionsFit s.sessions
        → SessionsFit (on_compound (record { gate = gate; serve = serve }) parting choice who principal carry c s).state.sessions }
    ensures backs { (sessions : SessionTable) → SessionsFit sessions → BacksFit sessions }
{}
