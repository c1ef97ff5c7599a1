// A store that passes each call on to another, and counts the rows that are written.
ghost use Rattle.std.specs.Prelude.{◌≡◌};

use sqlite_trees::error::StoreError;
use sqlite_trees::schema::Object;
use sqlite_trees::store::{Alter, Direction, Shape, Store};
use sqlite_value::row::Row;
use std::alloc::{AllocError, Global};

/// A store, and how many rows were put into its tables, new or in place of others, and taken out.
#[derive(Drop)]
pub struct Counted<S> {
    inner: S,
    put: u32,
    deleted: u32,
}

impl<S> Counted<S> {
    /// A store to which nothing is written yet.
    pub fn new(inner: S) -> Counted<S>
        ensures { result.inner ≡ inner }
    {
        Counted {
            inner,
            put: 0,
            deleted: 0,
        }
    }

    /// How many rows were put in, and how many taken out.
    pub fn written(&self) -> (u32, u32) {
        (self.put, self.deleted)
    }
}

impl<S: Store> Store for Counted<S> {
    ghost view = { λ s. S.Store.view s.inner };

    ghost faults = { λ s. S.Store.faults s.inner };

    ghost recovers = { λ s. S.Store.recovers s.inner };

    ghost is_shielded = { λ s. S.Store.is_shielded s.inner };

    ghost is_step = { λ before after tree. S.Store.is_step before.inner after.inner tree };

    ghost blamed = { λ s. S.Store.blamed s.inner };

    ghost names = { λ before after. S.Store.names before.inner after.inner };

    ghost ordered = { λ s. S.Store.ordered s.inner };

    ghost shut_if_dirty = { λ s. S.Store.shut_if_dirty s.inner };

    ghost empty_if_dirty = { λ s. S.Store.empty_if_dirty s.inner };

    ghost broken_if_shut = { λ s. S.Store.broken_if_shut s.inner };

    ghost settled = { λ s. S.Store.settled s.inner };

    ghost stays = { λ s. S.Store.stays s.inner };

    ghost survives = { λ s. S.Store.survives s.inner };

    ghost unaltered = { λ s. S.Store.unaltered s.inner };

    fn is_broken(&self) -> bool {
        self.inner.is_broken()
    }

    fn shape(&self, tree: u32) -> Shape {
        self.inner.shape(tree)
    }

    fn tree_count(&self) -> u64 {
        self.inner.tree_count()
    }

    fn reals(&self, tree: u32) -> u64 {
        self.inner.reals(tree)
    }

    fn seek(
        &mut self,
        cursor: u16,
        tree: u32,
        key: &Row,
        direction: Direction,
    ) -> Result<(), StoreError> {
        self.inner.seek(cursor, tree, key, direction)
    }

    fn next(&mut self, cursor: u16, row: &mut Row) -> Result<bool, StoreError> {
        self.inner.next(cursor, row)
    }

    fn get(&mut self, table: u32, id: i64, row: &mut Row) -> Result<bool, StoreError> {
        self.inner.get(table, id, row)
    }

    fn put(&mut self, table: u32, row: &Row) -> Result<(), StoreError> {
        self.put = self.put.saturating_add(1);
        self.inner.put(table, row)
    }

    fn delete(&mut self, table: u32, id: i64) -> Result<(), StoreError> {
        self.deleted = self.deleted.saturating_add(1);
        self.inner.delete(table, id)
    }

    fn insert(&mut self, index: u32, entry: &Row) -> Result<(), StoreError> {
        self.inner.insert(index, entry)
    }

    fn remove(&mut self, index: u32, entry: &Row) -> Result<(), StoreError> {
        self.inner.remove(index, entry)
    }

    fn commit(&mut self) -> Result<(), StoreError> {
        self.inner.commit()
    }

    fn rollback(&mut self) {
        self.inner.rollback()
    }

    fn savepoint(&mut self) -> Result<(), StoreError> {
        self.inner.savepoint()
    }

    fn release(&mut self) -> Result<(), StoreError> {
        self.inner.release()
    }

    fn rollback_to(&mut self) -> Result<(), StoreError> {
        self.inner.rollback_to()
    }
}

impl<S: Alter> Alter for Counted<S> {
    ghost listed = { λ s. S.listed s.inner };

    fn objects(&self, alloc: Global) -> Result<Vec<Row>, AllocError> {
        self.inner.objects(alloc)
    }

    fn create(&mut self, tree: u32, object: &Object<'_>) -> Result<(), StoreError> {
        self.inner.create(tree, object)
    }

    fn destroy(&mut self, tree: u32) -> Result<(), StoreError> {
        self.inner.destroy(tree)
    }

    fn relist(&mut self, changes: &[(u32, Object<'_>)]) -> Result<(), StoreError> {
        self.inner.relist(changes)
    }

    fn version(&self) -> u32 {
        self.inner.version()
    }

    fn set_version(&mut self, version: u32) -> Result<(), StoreError> {
        self.inner.set_version(version)
    }
}
