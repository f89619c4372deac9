ghost use Rattle.std.specs.Prelude.{ℕ, List};
ghost use Rattle.caller_laws.specs.Fitting.Bounds.{FixedFits};
ghost use Rattle.client_core.specs.Endings.{ways_of};
ghost use Rattle.client_core.specs.State.{new_client};
ghost use Rattle.client_laws.specs.Bounds.Known.{ClientIsFit, SettingIsFit};
ghost use Rattle.client_laws.specs.Bounds.Ways.{WaysAreFit};
ghost use Rattle.client_steps.specs.declared.setting.Setting.{Setting};
ghost use Rattle.streams.specs.declared.draws.Drawn.TheVariants.{Got};

use gss_mech::{Mechanism, tokens_agree};
use streams::Draws;

/// A client that was just opened is fit, where its principal's name and the servers' locations are.
pub fn clients_begin_fit<M>()
    ensures { (s : Setting M) → SettingIsFit s → ClientIsFit (new_client s) }
{}

/// What a mechanism gives a client is bytes, where what is drawn are nonces of bytes.
pub fn clients_have_fit_ways<M: Mechanism, W: Draws>()
    ensures { (s : Setting M) → SettingIsFit s → ((v w : W) (nonce : List ℕ) → W.gives v (Got nonce) w → FixedFits 32 nonce)
        → WaysAreFit (ways_of M.mic_of M.derived M.finished M.started M.accepted s) W.gives }
{
    tokens_agree::<M>();
}
