//! The contexts under which the servers call back.

ghost use Rattle.std.specs.Prelude.{◌≡◌, ◌<◌, ◌≤◌, ◌+◌, count_by, OnOk, OnErr};
ghost use Rattle.gss_ctx.specs.Table as tables;
ghost use Rattle.client_core.specs.Backs as spec;

use client_steps::Setting;
use gss_ctx::{Contexts, Entry, is_live};
use gss_mech::Mechanism;
use nfs_base::MOST_CONTEXTS;
use outcome::Mem;
use std::alloc::Global;

/// The number of the next context, where there is room for one.
pub(crate) fn free_number(back: &Contexts<u32>, now: u64) -> Option<u32>
    requires { back.now.made < 4294967295 }
    ensures { result ≡ spec.free_number now back.now }
{
    if live_count(back.entries(), now) >= MOST_CONTEXTS {
        return None;
    }
    Some(back.made() + 1)
}

/// A context for callbacks is made from a key, where there is one, and room for it.
pub(crate) fn add_back<M: Mechanism>(
    back: &mut Contexts<u32>,
    alloc: Global,
    setting: &Setting<M>,
    made: Option<[u8; 32]>,
    now: u64,
) -> Mem<()>
    requires { back.old.made < 4294967295 }
    ensures ok { OnOk result (back.new ≡ spec.back_added M.derived setting.now.me now made back.old) }
    ensures most { back.new.made ≤ back.old.made + 1 }
    ensures err { OnErr result (back.new ≡ back.old) }
{
    let Some(key) = made else {
        return Ok(());
    };
    back.add(alloc, setting.me.as_slice(), &key, now, &setting.mech)?;
    Ok(())
}

/// How many contexts are live.
fn live_count(entries: &[Entry<u32>], now: u64) -> usize
    ensures { result ≡ count_by (tables.is_live now) entries.now }
{
    entries.iter().filter(|e| is_live(e, now)).count()
}
