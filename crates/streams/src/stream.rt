ghost use Rattle.streams.specs.Stream.{Giving, Taking, gives_nothing, takes_nothing};

/// What bytes come from, go to, or both. It has no calls: it tells contracts how an object stands as a
/// source and as a sink, so that the calls of one side can say that the other stays as it is.
pub trait Stream {
    // How it stands as a source.
    ghost gives: { Self → Giving } = { λ _. gives_nothing };

    // How it stands as a sink.
    ghost takes: { Self → Taking } = { λ _. takes_nothing };
}
