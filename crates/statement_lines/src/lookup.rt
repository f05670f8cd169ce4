// The elements of a list, looked up by a number of each.

ghost use Rattle.std.specs.Prelude.{◌≡◌, ℕ, ◌==◌, IfOk};
ghost use Rattle.std.specs.Fn.{FnReturnsAt};
ghost use Rattle.std.specs.List.{filter};
ghost use Rattle.std.specs.List.Sorted.{IsNonDecreasingBy};
ghost use Rattle.statement_lines.specs.Lookups.{IsKeyed, IsLookup, has_key};

use std::alloc::{AllocError, Global};

/// The elements of a list, looked up by a number of each.
#[derive(Drop)]
pub struct Lookup<'a, T> {
    pub sorted: Vec<(u64, &'a T)>,
    ghost rising: { IsNonDecreasingBy (λ p. p.0) sorted.items },
}

// Pairs each element with its number.
fn keyed<'a, T, F: Fn(&T) -> u64>(
    alloc: Global,
    items: &'a [T],
    key_of: F,
) -> Result<Vec<(u64, &'a T)>, AllocError>
    requires { F.IsAlwaysCallable key_of }
    ensures { (key : T → ℕ) → ((x : T) (r : ℕ) → FnReturnsAt F.Fn key_of x r → r ≡ key x)
        → IfOk result (λ found. IsKeyed key items.now found.items) }
{
    let mut found = Vec::new(alloc);
    for item in items {
        found.push((key_of(item), item))?;
    }
    Ok(found)
}

impl<'a, T> Lookup<'a, T> {
    /// Makes the lookup from a list and a function that numbers its elements. The only error is out of memory.
    pub fn of<F: Fn(&T) -> u64>(
        alloc: Global,
        items: &'a [T],
        key_of: F,
    ) -> Result<Lookup<'a, T>, AllocError>
        requires { F.IsAlwaysCallable key_of }
        ensures { (key : T → ℕ) → ((x : T) (r : ℕ) → FnReturnsAt F.Fn key_of x r → r ≡ key x)
            → IfOk result (λ found. IsLookup key items.now found.sorted.items) }
    {
        let mut sorted = keyed(alloc, items, key_of)?;
        sorted.sort_by_key(|entry| entry.0)?;
        Ok(Lookup { sorted })
    }

    /// Returns the elements with this number, each with the number, in the order of the list.
    pub fn at(&self, key: u64) -> &[(u64, &'a T)]
        ensures { result.now ≡ filter (has_key key) self.now.sorted.items }
    {
        let start = self.sorted.partition_point(|entry| entry.0 < key);
        let rest = &self.sorted[start..];
        let count = rest.partition_point(|entry| entry.0 <= key);
        &rest[..count]
    }
}
