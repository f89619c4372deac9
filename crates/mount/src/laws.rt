//! What holds of every mount.

ghost use Rattle.std.specs.Prelude.{◌≡◌, ◌<◌, ℕ, List, Option, Some, None, length, true, false};
ghost use Rattle.gss_ctx.specs.Seals.{Mic};
ghost use Rattle.session_calls.specs.declared.slot_call.SlotCall.{SlotCall};
ghost use Rattle.session_calls.specs.declared.sole_call.BackChannel.{BackChannel};
ghost use Rattle.session_client.specs.declared.setup.Setup.TheVariants as setups;
ghost use Rattle.mount.specs.Falling.{fallen};
ghost use Rattle.mount.specs.Laws.{Went, is_heard};
ghost use Rattle.mount.specs.Sending.{begun, begun_anew, child_asked, ended_in, sent_again, slotted, stepped_in};
ghost use Rattle.mount.specs.State.{Mounted, awaited_at, child_name, is_setting_up, setup_in};
ghost use Rattle.mount.specs.Taking.{Means, taken_at};
ghost use Rattle.mount.specs.declared.calling.Ending.{Ending};
ghost use Rattle.mount.specs.declared.machine.SendAt.{SendAt};
ghost use Rattle.mount.specs.declared.state.Aim.{Aim};
ghost use Rattle.mount.specs.declared.state.TheConstants.{PLACES};

use session_client::calls_go_out_as_calls;

/// Whatever a mount sends is a call by the xid that it was given, which is the count of its calls from then on. Where
/// nothing goes out, nothing changes.
pub fn what_goes_out_is_counted()
    ensures begin { (at : SendAt) (nonce : List ℕ) (token : Option (List ℕ)) (m : Mounted) → Went at m (begun at nonce token m) }
    ensures anew { (at : SendAt) (m : Mounted) → Went at m (begun_anew at m) }
    ensures step { (mic : Mic) (at : SendAt) (principal : List ℕ) (back : Option BackChannel) (m : Mounted) → Went at m (stepped_in mic at principal back m.standing m) }
    ensures slot { (mic : Mic) (at : SendAt) (context : Option ℕ) (aim : Aim) (call : SlotCall) (m : Mounted) → Went at m (slotted mic at context aim call m) }
    ensures create { (mic : Mic) (at : SendAt) (child : ℕ) (name privilege : List ℕ) (m : Mounted) → Went at m (child_asked mic at child name privilege m) }
    ensures end { (mic : Mic) (at : SendAt) (ending : Ending) (m : Mounted) → Went at m (ended_in mic at ending m.standing m) }
    ensures again { (mic : Mic) (at : SendAt) (m : Mounted) → Went at m (sent_again mic at m) }
{
    calls_go_out_as_calls();
}

/// An answer is taken once: behind it nothing is awaited at its place. A record that isn't the reply changes nothing.
pub fn answers_are_taken_once()
    ensures once { (means : Means) (place : ℕ) (message : List ℕ) (m : Mounted) → is_heard (taken_at means place message m).0.told ≡ true → awaited_at (taken_at means place message m).1 place ≡ None }
    ensures unmatched { (means : Means) (place : ℕ) (message : List ℕ) (m : Mounted) → is_heard (taken_at means place message m).0.told ≡ false → (taken_at means place message m).1 ≡ m }
{}

/// A mount that begins again has no root and no child, and awaits no answer to a call of its setup.
pub fn mounts_begin_again()
    ensures down { (m : Mounted) → setup_in (fallen m).standing ≡ setups.Down }
    ensures children { (m : Mounted) (child : ℕ) → child_name (fallen m) child ≡ None }
    ensures setup { (m : Mounted) → is_setting_up (fallen m) ≡ false }
{}
