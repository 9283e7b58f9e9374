// The bytes that a shelf fetches after two bytes that are there already.
ghost use Rattle.std.specs.Prelude.{◌≡◌, None};

use outside::{OpenFault, Shelf};

// Whether the shelf answers so, and these bytes stand then.
pub(super) fn fetches<S: Shelf>(
    shelf: &mut S,
    name: &str,
    limit: usize,
    into: &mut Vec<u8>,
    answer: Result<(), OpenFault>,
    bytes: &[u8],
) -> bool
    requires { S.asked shelf.old ≡ None }
{
    into.truncate(2);
    let fetched = shelf.fetch(name, limit, into);
    fetched == answer && into.as_slice() == bytes
}
