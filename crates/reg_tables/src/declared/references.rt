//! The foreign keys of a table.

ghost use Rattle.std.specs.Prelude.{◌≡◌, ◌↔◌, [], ◌∷◌, IsTrue};
ghost use Rattle.reg_tables.specs.Layout.{to_texts, to_versions};
ghost use Rattle.reg_tables.specs.Inside.Forms.{reference_of};

use crate::declared::forms::ReferenceForm;
use crate::declared::keys::{are_exactly, are_numbers, is_one_name};
use crate::declared::listed_forms::Form;
use sqlite_schema::schema::{Action, Reference};

impl Form<Reference> for ReferenceForm {
    ghost meaning = { reference_of };

    fn declares(&self, item: &Reference) -> bool {
        match self {
            ReferenceForm::ToText(column) => is_to_text(item, *column),
            ReferenceForm::ToVersion => is_to_version(item),
        }
    }
}

fn is_to_text(reference: &Reference, column: usize) -> bool
    ensures { IsTrue result ↔ (reference.now ≡ record to_texts { columns = column ∷ [] }) }
{
    are_numbers(&reference.columns, &[column])
        && reference.parent.as_slice() == b"texts".as_slice()
        && is_one_name(&reference.parent_columns, b"id")
        && reference.on_delete == Action::NoAction
        && reference.on_update == Action::NoAction
        && !reference.is_deferred
}

fn is_to_version(reference: &Reference) -> bool
    ensures { IsTrue result ↔ (reference.now ≡ to_versions) }
{
    are_numbers(&reference.columns, &[1, 2])
        && reference.parent.as_slice() == b"versions".as_slice()
        && are_exactly(&reference.parent_columns, b"subject", b"version")
        && reference.on_delete == Action::Cascade
        && reference.on_update == Action::NoAction
        && !reference.is_deferred
}
