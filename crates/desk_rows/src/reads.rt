//! How many READs are under way.

/// The READs of all links, as far as their answers are large.
#[derive(Clone, Copy)]
pub(crate) struct Reads {
    /// How many were put.
    pub(crate) put: u64,

    /// Of how many the answer isn't given yet.
    under_way: u64,

    /// Of how many it wasn't at once.
    pub(crate) most: u64,

    /// How often an end did something that no end does.
    pub(crate) faults: u64,
}

impl Reads {
    pub(crate) fn none() -> Reads {
        Reads {
            put: 0,
            under_way: 0,
            most: 0,
            faults: 0,
        }
    }

    /// A READ was put.
    pub(crate) fn begin(&mut self) {
        self.put = self.put.saturating_add(1);
        self.under_way = self.under_way.saturating_add(1);
        self.most = self.most.max(self.under_way);
    }

    /// The answer to one is given.
    pub(crate) fn end(&mut self) {
        self.under_way = self.under_way.saturating_sub(1);
    }

    /// An end did what no end does.
    pub(crate) fn fault(&mut self) {
        self.faults = self.faults.saturating_add(1);
    }
}
