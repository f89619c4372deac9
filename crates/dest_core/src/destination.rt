use dest_steps::Copier;
use nfs_base::NetLoc;

/// What a destination has besides its files.
#[derive(Drop)]
pub struct Destination<M> {
    /// The copies that it took, and what works on them.
    pub copier: Copier,

    /// Where it is found itself.
    pub own: NetLoc,

    /// The mechanism of its contexts.
    pub mech: M,
}
