//! Lists that match a list of declarations.

ghost use Rattle.std.specs.Prelude.{◌≡◌, ◌↔◌, map, IsTrue};

/// A declaration of a `T`.
pub trait Form<T> {
    ghost meaning: { Self → T };

    /// Whether the item is as declared.
    fn declares(&self, item: &T) -> bool
        ensures { IsTrue result ↔ (item.now ≡ meaning self.now) };
}

/// Whether the items are as declared, in the same order.
pub fn are_declared<T, F: Form<T>>(items: &[T], forms: &[F]) -> bool
    ensures { IsTrue result ↔ (items.now ≡ map F.meaning forms.now) }
{
    if items.len() != forms.len() {
        return false;
    }
    for (at, form) in forms.iter().enumerate() {
        if !form.declares(&items[at]) {
            return false;
        }
    }
    true
}
