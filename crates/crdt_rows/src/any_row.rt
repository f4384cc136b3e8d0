//! A row of any of the three tables.
use crate::object_row::ObjectRow;
use crate::ref_row::RefRow;
use crate::version_row::VersionRow;
use crdt_core::{Crdt, Memory};
use shared_value::Shared;
use std::alloc::Global;

/// A row of any of the three tables. Of rows of two tables the one of the later table stays. Copies of a row of an object
/// or a version share it.
#[derive(Debug, Drop, PartialEq, Eq)]
pub enum AnyRow {
    Object(Shared<ObjectRow>),
    Version(Shared<VersionRow>),
    Ref(RefRow),
}

impl AnyRow {
    ghost use Rattle.std.specs.Prelude.{◌≡◌, IfOk};
    ghost use Rattle.crdt_core.specs.Outcomes.{OnlyWant};
    ghost use Rattle.crdt_rows.specs.AnyRow.{table_of};
    ghost use Rattle.crdt_rows.specs.declared.any_row.AnyRow.TheVariants as any;

    /// The row of an object.
    pub fn object(alloc: Global, row: ObjectRow) -> Result<AnyRow, Memory>
        ensures same { IfOk result (λ made. made ≡ any.Object row) }
        ensures want { OnlyWant result }
    {
        Ok(AnyRow::Object(Shared::new(alloc, row)?))
    }

    /// The row of a version.
    pub fn version(alloc: Global, row: VersionRow) -> Result<AnyRow, Memory>
        ensures same { IfOk result (λ made. made ≡ any.Version row) }
        ensures want { OnlyWant result }
    {
        Ok(AnyRow::Version(Shared::new(alloc, row)?))
    }

    /// The number of the row's table: 1 has object rows, 2 version rows and 3 reference rows.
    pub fn table(&self) -> u8
        ensures { result ≡ table_of self.now }
    {
        match self {
            AnyRow::Object(_) => 1,
            AnyRow::Version(_) => 2,
            AnyRow::Ref(_) => 3,
        }
    }
}

impl Crdt for AnyRow {
    ghost use Rattle.crdt_rows.specs.AnyRow.{any_join};
    ghost use Rattle.crdt_rows.specs.RowLaws.{any_laws};

    ghost join = { any_join };

    ghost join_laws = { any_laws };

    fn copy(&self) -> Result<AnyRow, Memory> {
        match self {
            AnyRow::Object(row) => Ok(AnyRow::Object(row.copy()?)),
            AnyRow::Version(row) => Ok(AnyRow::Version(row.copy()?)),
            AnyRow::Ref(row) => Ok(AnyRow::Ref(row.copy()?)),
        }
    }

    fn merge(&mut self, other: &AnyRow) -> Result<(), Memory> {
        // Nodes mostly have the same row. A merge would copy one that is shared before it compares the two.
        if *self == *other {
            return Ok(());
        }
        if self.table() < other.table() {
            *self = other.copy()?;
            return Ok(());
        }
        match other {
            AnyRow::Object(theirs) => match self {
                AnyRow::Object(ours) => ours.merge(theirs),
                _ => Ok(()),
            },
            AnyRow::Version(theirs) => match self {
                AnyRow::Version(ours) => ours.merge(theirs),
                _ => Ok(()),
            },
            AnyRow::Ref(theirs) => match self {
                AnyRow::Ref(ours) => ours.merge(theirs),
                _ => Ok(()),
            },
        }
    }
}
