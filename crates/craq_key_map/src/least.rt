//! The least key above another one. `map` calls this.
ghost use Rattle.std.specs.Prelude.{◌≡◌};
ghost use Rattle.std.specs.Option.{option_copied};
ghost use Rattle.craq_key_map.specs.Rising.{is_above, is_less, lent_least, lent_pair, lesser};

use craq_names::Key;

/// A key with its item.
pub(crate) type Lent<'a, T> = (&'a Key, &'a T);

/// Returns true exactly if a key is greater than the last one, or there is no last one.
fn is_beyond(last: Option<&Key>, key: &Key) -> bool
    ensures { result ≡ is_above (option_copied last.entry) key.now }
{
    match last {
        None => true,
        Some(last) => last.cmp(key).is_lt(),
    }
}

/// Returns true exactly if an entry has a lesser key than `least`, or there is no `least`.
fn is_before<T>(found: Lent<'_, T>, least: Option<Lent<'_, T>>) -> bool
    ensures { result ≡ is_less (lent_pair found.entry) (lent_least least.entry) }
{
    match least {
        None => true,
        Some(least) => found.0.cmp(least.0).is_lt(),
    }
}

/// Returns `found` if its key is above `last` and less than that of `least`, else `least`.
pub(crate) fn lesser_of<'a, T>(
    last: Option<&Key>,
    least: Option<Lent<'a, T>>,
    found: Lent<'a, T>,
) -> Option<Lent<'a, T>>
    ensures { lent_least result ≡ lesser (option_copied last.entry) (lent_least least.entry) (lent_pair found.entry) }
{
    if is_beyond(last, found.0) && is_before(found, least) {
        Some(found)
    } else {
        least
    }
}
