//! Lists that are kept in an order, in which each item has its place before the first that it comes before.
ghost use Rattle.std.specs.Prelude.{◌≡◌, ◌≤◌, Bool, OnErr, OnOk, length};
ghost use Rattle.std.specs.List.{position_or_len};
ghost use Rattle.sx_guard.specs.Ordered.{insert_by};

use sx_memory::NoMemory;

/// Items that have an order.
pub trait Ordered {
    ghost use Rattle.std.specs.Prelude.{◌≡◌, Bool};

    /// Whether an item comes before another.
    ghost before: { Self → Self → Bool };

    /// Whether this item comes before another.
    fn comes_before(&self, other: &Self) -> bool
        ensures { result ≡ before self.now other.now };
}

/// Puts an item into its place, behind those that it doesn't come before. Without memory there is no change.
pub fn insert_ordered<T: Ordered + Drop>(items: &mut Vec<T>, item: T) -> Result<(), NoMemory>
    ensures ok { OnOk result (items.new.items ≡ insert_by T.before item items.old.items) }
    ensures err { OnErr result (items.new.items ≡ items.old.items) }
{
    let at = place_for(items, &item);
    match items.insert(at, item) {
        Ok(()) => Ok(()),
        Err(_) => Err(NoMemory),
    }
}

/// The place of the first item that another comes before, or the end.
fn place_for<T: Ordered>(items: &[T], item: &T) -> usize
    ensures place { result ≡ position_or_len (T.before item.now) items.now }
    ensures within { result ≤ length items.now }
{
    items
        .iter()
        .position(|other| item.comes_before(other))
        .unwrap_or(items.len())
}
