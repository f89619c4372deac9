use gss_ctx::{admitted_once, ends_meet, sealed_once};
use gss_mech::{Realm, tokens_agree};

/// The laws of mechanisms, of contexts and of what is sealed, at the mechanism of the rows.
pub fn hold() {
    tokens_agree::<Realm>();
    admitted_once::<u8, Realm>();
    sealed_once::<Realm>();
    ends_meet::<u8, Realm>();
}
