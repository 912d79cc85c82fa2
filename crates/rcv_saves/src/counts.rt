// Lists of ascending counts, each once.

ghost use Rattle.std.specs.Prelude.{◌≡◌, ◌≤◌, ◌<◌, ◌↔◌, ◌-◌, drop, length, slice_index, IsTrue, OnOk, OnErr};
ghost use Rattle.rcv_saves.specs.Counts.{IsAscending, IsSplit, with_count, up_to, above};

use std::alloc::AllocError;

/// How many of ascending counts are at most this one. It takes no memory.
pub fn many_up_to(counts: &[u64], count: u64) -> usize
    requires { IsAscending counts.now }
    ensures { IsSplit counts.now count result }
{
    counts.partition_point(|one| *one <= count)
}

/// Adds a count, if it isn't there. Fails if memory runs out; then the counts are as before.
pub fn add(counts: &mut Vec<u64>, count: u64) -> Result<(), AllocError>
    requires { IsAscending counts.old.items }
    ensures ok { OnOk result (counts.new.items ≡ with_count count counts.old.items) }
    ensures err { OnErr result (counts.new.items ≡ counts.old.items) }
    ensures ascending { IsAscending counts.new.items }
{
    let place = many_up_to(counts.as_slice(), count);
    if ends_with(counts.as_slice(), place, count) {
        return Ok(());
    }
    counts.insert(place, count)?;
    Ok(())
}

// Whether the last of the first so many counts is this one.
fn ends_with(counts: &[u64], many: usize, count: u64) -> bool
    requires { many ≤ length counts.now }
    ensures { IsTrue result ↔ ((0 < many) × (slice_index counts.now (many - 1) ≡ count)) }
{
    many > 0 && counts[many - 1] == count
}

/// Drops the counts above this one. It takes no memory.
pub fn drop_above(counts: &mut Vec<u64>, count: u64)
    requires { IsAscending counts.old.items }
    ensures items { counts.new.items ≡ up_to count counts.old.items }
    ensures ascending { IsAscending counts.new.items }
{
    let many = many_up_to(counts.as_slice(), count);
    counts.truncate(many);
}

/// Drops the counts up to this one, and this one too. It takes no memory.
pub fn drop_up_to(counts: &mut Vec<u64>, count: u64)
    requires { IsAscending counts.old.items }
    ensures items { counts.new.items ≡ above count counts.old.items }
    ensures ascending { IsAscending counts.new.items }
{
    let many = many_up_to(counts.as_slice(), count);
    drop_first(counts, many);
}

// Takes the first so many counts off a list.
fn drop_first(counts: &mut Vec<u64>, many: usize)
    requires { many ≤ length counts.old.items }
    ensures { counts.new.items ≡ drop many counts.old.items }
{
    let rest = counts.len() - many;
    counts.rotate_left(many);
    counts.truncate(rest);
}
