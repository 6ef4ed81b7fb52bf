//! Entries that stand by the number of their declaration.
ghost use Rattle.std.specs.Prelude.{◌≡◌, OnOk};
ghost use Rattle.cir_meaning.specs.Frame.{put_at};

use std::alloc::AllocError;

/// Puts an entry at its number. Those before it may not be declared yet.
pub fn put_entry<T: Drop>(
    entries: &mut Vec<Option<T>>,
    n: usize,
    entry: T,
) -> Result<(), AllocError>
    ensures { OnOk result (entries.new.items ≡ put_at n entry entries.old.items) }
{
    while entries.len() <= n {
        entries.push(None)?;
    }
    entries[n] = Some(entry);
    Ok(())
}
