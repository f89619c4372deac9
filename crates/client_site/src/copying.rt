//! A site once more.

ghost use Rattle.std.specs.Prelude.{◌≡◌, IfOk};

use crate::site::{OpenFile, Site};
use outcome::Mem;
use std::alloc::Global;
use wire_xdr::Items;

impl Site {
    /// The same once more.
    pub fn copy(&self, alloc: Global) -> Mem<Site>
        ensures { IfOk result (λ site. site ≡ self.now) }
    {
        Ok(Site {
            mount: self.mount.copy(alloc)?,
            files: copy_files(alloc, &self.files)?,
            back: self.back,
        })
    }
}

fn copy_files(alloc: Global, files: &Items<OpenFile>) -> Mem<Items<OpenFile>>
    ensures { IfOk result (λ copy. copy ≡ files.now) }
{
    Ok(Items::from_vec(Vec::from_slice(alloc, files.as_slice())?))
}
