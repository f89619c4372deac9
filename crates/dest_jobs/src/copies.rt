use copy_privs::Peer;
use job_book::Book;
use outbox::NoteList;

/// The copies that a destination took.
#[derive(Drop)]
pub struct Copies {
    pub book: Book,

    /// What is to be told of this step.
    pub told: NoteList,

    /// The source from which they are copied.
    pub source: Peer,
}
