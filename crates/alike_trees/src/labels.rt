//! Labels of a switch compared (JLS 14.11).

ghost use Rattle.std.specs.Prelude.{◌≡◌, ◌↔◌, IsTrue};

fn is_same_label(old: Option<i32>, new: Option<i32>) -> bool
    ensures { IsTrue result ↔ (new ≡ old) }
{
    match old {
        None => new.is_none(),
        Some(x) => match new {
            None => false,
            Some(y) => y == x,
        },
    }
}

pub(crate) fn are_same_labels(old: &[Option<i32>], new: &[Option<i32>]) -> bool
    ensures { IsTrue result ↔ (new.now ≡ old.now) }
{
    match old.split_first() {
        None => new.is_empty(),
        Some((x, xs)) => match new.split_first() {
            None => false,
            Some((y, ys)) => is_same_label(*x, *y) && are_same_labels(xs, ys),
        },
    }
}
