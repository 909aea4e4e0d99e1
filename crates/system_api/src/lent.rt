//! Pools lent to a system.

ghost use Rattle.std.specs.Prelude.{◌≡◌, ℕ, ◌<◌, ◌≤◌, ◌^◌, [], ◌∷◌, ◌++◌, Some, length, slice_set, vec_capacity, IsTrue};
ghost use Rattle.world_model.specs.Frames.{pool_limit};
ghost use Rattle.system_api.specs.Batches.{lanes, place_at, is_marked, AreScattered, AreApart, AreSetAt};
ghost use Rattle.system_api.specs.Registers.{no_pools, pool_at, rows_of, ChangesRowsAt};

use crate::batch::{LANES, store_rows};
use crate::places::store_at;
use arrayvec::ArrayVec;
use std::marker::Model;
use storage::Storage;
use world_model::Row;

/// How many pools may be lent of each sort.
pub const POOL_LIMIT: usize = 16;

/// A pool and its number.
#[derive(Drop)]
pub struct LentPool {
    /// The pool's number.
    pub number: u32,
    /// The pool.
    pub storage: Storage<Row>,
}

// A borrowed pool and its number.
#[derive(Clone, Copy)]
pub struct ReadPool<'a> {
    pub number: u32,
    pub storage: &'a Storage<Row>,
}

/// The pools that a system may read, which are borrowed, and those that it may write, which are moved
/// in and taken back: up to [`POOL_LIMIT`] of each sort. A system finds each at its place, counted
/// from 0 in the order in which they were lent. (This project's own; EnTT's organizer hands a system
/// the whole registry.)
#[derive(Drop)]
pub struct Lent<'a> {
    reads: ArrayVec<Option<ReadPool<'a>>, POOL_LIMIT>,
    writes: Vec<LentPool>,
    prefix: Option<(u32, u32)>,
}

impl<'a> Model for Lent<'a> {
    ghost use Rattle.system_api.specs.Registers.{Register};
    ghost use Rattle.system_api.specs.HeldPools.{register_of, IsHeld};

    ghost Value = { Register };

    ghost view = { λ l. register_of l.reads.items l.writes.items l.prefix };

    ghost invariant = { λ l. IsHeld l.reads.items l.writes };
}

impl<'a> Lent<'a> {
    /// Nothing lent, and no prefix. The list is empty and has room for [`POOL_LIMIT`] written pools, so
    /// that lending them takes no memory. No memory.
    pub fn new(room: Vec<LentPool>) -> Lent<'a>
        requires empty { room.items ≡ [] }
        requires room { pool_limit ≤ vec_capacity room }
        ensures { result ≡ no_pools }
    {
        Lent {
            reads: ArrayVec::new(),
            writes: room,
            prefix: None,
        }
    }

    /// Lends one pool more for reading, where fewer than [`POOL_LIMIT`] are, as [`Lent::reads`] tells.
    /// A pool may be lent twice. No memory.
    pub fn add_read(&mut self, number: u32, storage: &'a Storage<Row>)
        requires { length self.old.reads < POOL_LIMIT }
        ensures reads { self.new.reads
            ≡ self.old.reads ++ record { number = number; storage = storage.entry.now } ∷ [] }
        ensures writes { self.new.writes ≡ self.old.writes }
        ensures prefix { self.new.prefix ≡ self.old.prefix }
    {
        self.reads.push(Some(ReadPool { number, storage }));
    }

    /// Lends one pool more for writing, where fewer than [`POOL_LIMIT`] are, as [`Lent::writes`]
    /// tells. No memory.
    pub fn add_write(&mut self, pool: LentPool)
        requires { length self.old.writes < POOL_LIMIT }
        ensures reads { self.new.reads ≡ self.old.reads }
        ensures writes { self.new.writes ≡ self.old.writes ++ pool ∷ [] }
        ensures prefix { self.new.prefix ≡ self.old.prefix }
    {
        let Ok(()) = self.writes.push(pool) else {
            unreachable!()
        };
    }

    /// Says that the first `count` identifiers of the pool of this number are all that a walk needs:
    /// the members of a group. Whoever runs a system on these pools owes that it is so. No memory.
    pub fn set_prefix(&mut self, number: u32, count: u32)
        ensures reads { self.new.reads ≡ self.old.reads }
        ensures writes { self.new.writes ≡ self.old.writes }
        ensures prefix { self.new.prefix ≡ Some (number, count) }
    {
        self.prefix = Some((number, count));
    }

    /// Takes the written pools back, in the order in which they were lent and in the list that was
    /// handed in. No memory.
    pub fn into_writes(self) -> Vec<LentPool>
        ensures writes { result.items ≡ self.entry.writes }
        ensures room { pool_limit ≤ vec_capacity result }
    {
        let Lent { reads, writes, .. } = self;
        drop(reads);
        writes
    }
}

impl<'a> Lent<'a> {
    /// How many pools are lent for reading. No memory.
    pub fn reads(&self) -> usize
        ensures { result ≡ length self.now.reads }
    {
        self.reads.len()
    }

    /// How many pools are lent for writing. No memory.
    pub fn writes(&self) -> usize
        ensures { result ≡ length self.now.writes }
    {
        self.writes.len()
    }

    /// The number of a pool and how many of its first identifiers a walk needs: `None` exactly where no
    /// prefix was set. No memory.
    pub fn prefix(&self) -> Option<(u32, u32)>
        ensures { result ≡ self.now.prefix }
    {
        self.prefix
    }

    /// The pool at a place of those lent for reading. No memory.
    pub fn read(&self, at: usize) -> &'a Storage<Row>
        requires { at < length self.now.reads }
        ensures { result.now ≡ (pool_at self.now.reads at).storage }
    {
        match self.reads[at] {
            Some(read) => read.storage,
            None => unreachable!(),
        }
    }

    /// The pool at a place of those lent for writing. No memory.
    pub fn written(&self, at: usize) -> &Storage<Row>
        requires { at < length self.now.writes }
        ensures { result.now ≡ (pool_at self.now.writes at).storage }
    {
        &self.writes[at].storage
    }

    /// Sets the row at a place of a written pool. No memory.
    pub fn set_row(&mut self, at: usize, place: usize, row: Row)
        requires within { at < length self.old.writes }
        requires place { place < length (pool_at self.old.writes at).storage.pairs }
        ensures pools { ChangesRowsAt at self.old self.new }
        ensures row { rows_of (pool_at self.new.writes at)
            ≡ slice_set (rows_of (pool_at self.old.writes at)) place row }
    {
        let (_index, rows) = self.writes[at].storage.split_mut();
        rows[place] = row;
    }

    /// Sets the rows of a batch of a written pool, from a place on, at the marked lanes. No memory.
    pub fn scatter(&mut self, at: usize, from: usize, marks: &[bool; LANES], column: &[Row; LANES])
        requires within { at < length self.old.writes }
        requires from { from ≤ 2 ^ 32 }
        ensures pools { ChangesRowsAt at self.old self.new }
        ensures rows { AreScattered from marks.now column.now
            (rows_of (pool_at self.old.writes at)) (rows_of (pool_at self.new.writes at)) }
    {
        let (_index, rows) = self.writes[at].storage.split_mut();
        store_rows(rows, from, marks, column);
    }

    /// Sets the rows of a written pool at these places, those of the marked lanes; no two of these
    /// have one place. No memory.
    pub fn scatter_at(
        &mut self,
        at: usize,
        places: &[u32; LANES],
        marks: &[bool; LANES],
        column: &[Row; LANES],
    )
        requires within { at < length self.old.writes }
        requires there { (lane : ℕ) → lane < lanes → IsTrue (is_marked marks.now lane) →
            place_at places.now lane < length (pool_at self.old.writes at).storage.pairs }
        requires apart { AreApart marks.now places.now }
        ensures pools { ChangesRowsAt at self.old self.new }
        ensures rows { AreSetAt marks.now places.now column.now
            (rows_of (pool_at self.old.writes at)) (rows_of (pool_at self.new.writes at)) }
    {
        let (_index, rows) = self.writes[at].storage.split_mut();
        store_at(rows, places, marks, column);
    }
}
