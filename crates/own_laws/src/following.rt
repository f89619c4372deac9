use session_server::Extending;

/// A relation along which a server's extension goes in each of its own rules. It is a type of its own, so that a crate above the
/// server's can name one, and a server can go along several.
pub trait Following<X: Extending<C>, C> {
    ghost use Rattle.own_laws.specs.Following.{FollowsIn};
    ghost use Rattle.session_server.specs.Host.{rules_of};

    // How an extension is related to what it was.
    ghost goes: { X → X → Type 0 };

    ghost follows: { FollowsIn goes (rules_of X.gated X.serves X.leaves X.lapses X.judges X.tells X.silent) };
}
