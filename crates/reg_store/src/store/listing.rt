//! Listings.

ghost use Rattle.std.specs.Prelude.{◌≡◌, map};
ghost use Rattle.std.specs.FinMap.{entries};
ghost use Rattle.reg_store.specs.Stores.{ReadsStore};
ghost use Rattle.reg_store.specs.Listings.{lines_of, listing_lines, version_line};
ghost use Rattle.reg_store.specs.Inside.Reads.{Reads};

use crate::conn::Conn;
use crate::error::StoreError;
use crate::listing::Listing;
use crate::store::Store;
use crate::store::lines::version_lines;
use crate::store::rows::all_rows;
use crate::store::schema_lines::listed_schemas;
use crate::store::subject_lines::listed_subjects;
use sqlite::Alter;
use std::alloc::Global;

impl<S: Alter> Store<S> {
    /// The fields of each line of the listing in their order, without a header.
    ///
    /// # Errors
    ///
    /// `Memory` or `Disk`, or `NotARegistry` if the tables no longer hold a registry. In each
    /// case nothing is changed.
    pub fn rows(&mut self, kind: Listing) -> Result<Vec<Vec<String>>, StoreError>
        ensures { ReadsStore self.old self.new result (λ was rows.
            lines_of rows ≡ listing_lines kind was.registry) }
    {
        if self.failed {
            return Err(StoreError::Disk);
        }
        let rows = listed(self.alloc, &mut self.db, kind);
        self.failed = matches!(rows, Err(StoreError::Disk));
        rows
    }
}

fn listed<S: Alter>(
    alloc: Global,
    db: &mut Conn<S>,
    kind: Listing,
) -> Result<Vec<Vec<String>>, StoreError>
    ensures { Reads db.old db.new result (λ was lines. lines_of lines ≡ listing_lines kind was.registry) }
{
    match kind {
        Listing::Subjects => listed_subjects(alloc, db),
        Listing::Versions => listed_versions(alloc, db),
        Listing::Schemas => listed_schemas(alloc, db),
    }
}

/// The lines of the versions of all subjects.
fn listed_versions<S: Alter>(
    alloc: Global,
    db: &mut Conn<S>,
) -> Result<Vec<Vec<String>>, StoreError>
    ensures { Reads db.old db.new result (λ was lines.
        lines_of lines ≡ map version_line (entries was.registry.rows)) }
{
    let rows = all_rows(alloc, db)?;
    Ok(version_lines(alloc, rows.as_slice())?)
}
