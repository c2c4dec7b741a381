//! Types as they are seen through the arguments of the classes on the way up, compared with others in no memory.

ghost use Rattle.std.specs.Prelude.{◌≡◌, ◌↔◌, IsTrue, map};
ghost use Rattle.class_world.specs.Seen.{seen_as};

use crate::types::is_same;
use crate::world::JavaType;

/// What the variables of a type stand for: themselves; or arguments, whose variables are seen in turn.
#[derive(Drop)]
pub(crate) enum Seen<'a> {
    Itself,
    Through(&'a [JavaType], &'a Seen<'a>),
}

/// Whether `s`, as it is seen, is `t`.
#[cycle(is_seen)]
pub(crate) fn is_seen(seen: &Seen<'_>, s: &JavaType, t: &JavaType) -> bool
    ensures { IsTrue result ↔ (seen_as seen.now s.now ≡ t.now) }
{
    match s {
        JavaType::Prim(_) => is_same(s, t),
        JavaType::Null => is_same(s, t),
        JavaType::Class(c, xs) => match t {
            JavaType::Class(d, ys) => c == d && are_seen(seen, xs.as_slice(), ys.as_slice()),
            _ => false,
        },
        JavaType::Var(k) => match seen {
            Seen::Itself => is_same(s, t),
            Seen::Through(args, further) => match args.get(*k as usize) {
                Some(a) => is_seen(further, a, t),
                None => is_seen(further, s, t),
            },
        },
        JavaType::Array(x) => match t {
            JavaType::Array(y) => is_seen(seen, x.get(), y.get()),
            _ => false,
        },
    }
}

#[cycle(is_seen)]
pub(crate) fn are_seen(seen: &Seen<'_>, xs: &[JavaType], ys: &[JavaType]) -> bool
    ensures { IsTrue result ↔ (map (seen_as seen.now) xs.now ≡ ys.now) }
{
    match xs.split_first() {
        None => ys.is_empty(),
        Some((x, xs)) => match ys.split_first() {
            None => false,
            Some((y, ys)) => is_seen(seen, x, y) && are_seen(seen, xs, ys),
        },
    }
}
