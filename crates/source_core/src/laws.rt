//! What a source's rules come to.

ghost use Rattle.std.specs.Prelude.{◌≡◌, ℕ, true, Ok, Option, List};
ghost use Rattle.copy_grants.specs.Permits.{is_shown, permit_refusal};
ghost use Rattle.file_ops.specs.declared.files.ReadArgs.{ReadArgs};
ghost use Rattle.file_server.specs.Attributes.{first_word, get_attributes};
ghost use Rattle.file_server.specs.Handles.{current_file};
ghost use Rattle.file_server.specs.Machine.{Going};
ghost use Rattle.file_server.specs.Reading.{read};
ghost use Rattle.file_server.specs.declared.extension.Caller.{Caller};
ghost use Rattle.gss_ctx.specs.Seals.{Mic};
ghost use Rattle.server_volume.specs.Choices.{Choice};
ghost use Rattle.source_core.specs.Asking.{asked_by, is_confirming, no_id};
ghost use Rattle.source_core.specs.ReadLaws.{attributes_shown, read_permitted, reading_rules, IsReadOf};
ghost use Rattle.source_core.specs.declared.carried.Carried.{Carried};
ghost use Rattle.source_core.specs.declared.source.Source.{Source};

/// A READ of a file with a stateid of COPY_NOTIFY goes by the table of crate `copy_grants` alone: the first row that holds
/// gives its status, and is kept to be told; where none does it is answered by what the volume reads, and the grant was
/// used. Under a context that confirms a copy the attributes of a file are told exactly where some live grant covers it.
#[tactic(auto, using(crate::specs::ReadLaws::read_is, crate::specs::ReadLaws::attributes_are))]
pub fn grants_decide<M>()
    ensures read { (mic : Mic) (choice : Choice) (caller : Caller) (carry : Option Carried) (args : ReadArgs) (file : ℕ) (g : Going (Source M)) → IsReadOf args file g
        → read (reading_rules mic) choice caller carry args g ≡ read_permitted (permit_refusal mic g.machine.extra.grants caller.second (asked_by carry args.state_id file)) choice caller args file g }
    ensures attributes { (mic : Mic) (caller : Caller) (carry : Option Carried) (mask : List ℕ) (file : ℕ) (g : Going (Source M)) → is_confirming carry ≡ true → current_file g.machine.store g.held.current ≡ Ok file
        → get_attributes (reading_rules mic) caller carry mask g ≡ attributes_shown (is_shown mic g.machine.extra.grants caller.second (asked_by carry no_id file)) (first_word mask) file g }
{}
