//! Rows by coordinates in flat lists, so that a row takes no memory of its own.

ghost use Rattle.std.specs.Prelude.{◌≡◌, ◌+◌, ◌*◌, ◌<◌, ◌≤◌, [], ◌∷◌, ◌++◌, length, max, All, vec_len, vec_capacity, IsOk, OnOk, OnErr};
ghost use Rattle.cube_values.specs.Batches.{HasWidths, coded_row_at, nth_part};

use std::alloc::{AllocError, Global};
use std::marker::Model;

/// A batch of rows of one cube, each of so many dimensions and metrics (its width), with room: for how
/// many rows it has memory. Contracts see its rows as a list of `CodedRow`.
#[derive(Debug, Drop)]
pub struct CodedRows {
    coords: Vec<u32>,
    metrics: Vec<i64>,
    dims: usize,
    width: usize,
    rows: usize,
    room: usize,
}

impl Model for CodedRows {
    ghost use Rattle.std.specs.Prelude.{◌≤◌, vec_capacity};
    ghost use Rattle.cube_values.specs.Batches.{Batch, IsFlat, flat_rows};

    ghost Value = { Batch };

    ghost view = { λ b. record {
      rows = flat_rows b.dims b.width b.coords.items b.metrics.items b.rows;
      dims = b.dims;
      width = b.width;
      room = b.room;
    } };

    ghost invariant = { λ b. (b.rows ≤ b.room)
        × IsFlat b.dims b.rows b.room (vec_capacity b.coords) b.coords.items
        × IsFlat b.width b.rows b.room (vec_capacity b.metrics) b.metrics.items };
}

impl CodedRows {
    /// A batch without rows, for a cube of so many dimensions and metrics. It takes no memory.
    pub fn new(alloc: Global, dims: usize, metrics: usize) -> CodedRows
        ensures { result ≡ record { rows = []; dims = dims; width = metrics; room = 0 } }
    {
        CodedRows {
            coords: Vec::new(alloc),
            metrics: Vec::new(alloc),
            dims,
            width: metrics,
            rows: 0,
            room: 0,
        }
    }

    /// How many rows it has. Each has the batch's numbers of dimensions and metrics.
    pub fn len(&self) -> usize
        ensures rows { result ≡ length self.now.rows }
        ensures widths { All (HasWidths self.now.dims self.now.width) self.now.rows }
    {
        self.rows
    }

    /// For how many rows it has memory.
    pub fn room(&self) -> usize
        ensures room { result ≡ self.now.room }
        ensures within { length self.now.rows ≤ self.now.room }
    {
        self.room
    }

    /// How many dimensions a row has.
    pub fn dims(&self) -> usize
        ensures { result ≡ self.now.dims }
    {
        self.dims
    }

    /// How many metrics a row has.
    pub fn width(&self) -> usize
        ensures { result ≡ self.now.width }
    {
        self.width
    }

    /// Makes room for `room` rows at least. The rows stay.
    /// Where memory is wanted nothing changes; where there is room already, none is.
    pub fn reserve(&mut self, room: usize) -> Result<(), AllocError>
        ensures ok { OnOk result (self.new ≡ record self.old { room = max self.old.room room }) }
        ensures err { OnErr result (self.new ≡ self.old) }
        ensures there { room ≤ self.old.room → IsOk result }
    {
        if self.room < room {
            let coords = room.checked_mul(self.dims).ok_or(AllocError)?;
            let metrics = room.checked_mul(self.width).ok_or(AllocError)?;
            self.coords.reserve(coords - self.coords.len())?;
            self.metrics.reserve(metrics - self.metrics.len())?;
            self.room = room;
        }
        Ok(())
    }

    /// Puts a row at the end, in room that there is. It takes no memory.
    pub fn push(&mut self, coords: &[u32], metrics: &[i64])
        requires room { length self.old.rows < self.old.room }
        requires coords { length coords.now ≡ self.old.dims }
        requires metrics { length metrics.now ≡ self.old.width }
        ensures { self.new ≡ record self.old
            { rows = self.old.rows ++ record { coords = coords.now; metrics = metrics.now } ∷ [] } }
    {
        put_all(&mut self.coords, coords);
        put_all(&mut self.metrics, metrics);
        self.rows += 1;
    }

    /// The coordinates of row `i`.
    pub fn coords_of(&self, i: usize) -> &[u32]
        requires { i < length self.now.rows }
        ensures { result.now ≡ (coded_row_at self.now.rows i).coords }
    {
        part_of(self.coords.as_slice(), self.dims, i)
    }

    /// The metrics of row `i`.
    pub fn metrics_of(&self, i: usize) -> &[i64]
        requires { i < length self.now.rows }
        ensures { result.now ≡ (coded_row_at self.now.rows i).metrics }
    {
        part_of(self.metrics.as_slice(), self.width, i)
    }

    /// Leaves no row, and the room that there is.
    pub fn clear(&mut self)
        ensures { self.new ≡ record self.old { rows = [] } }
    {
        self.coords.clear();
        self.metrics.clear();
        self.rows = 0;
    }
}

// Puts items at the end, in memory that there is.
fn put_all<T: Copy>(items: &mut Vec<T>, more: &[T])
    requires { vec_len items.old + length more.now ≤ vec_capacity items.old }
    ensures items { items.new.items ≡ items.old.items ++ more.now }
    ensures capacity { vec_capacity items.new ≡ vec_capacity items.old }
{
    for item in more {
        items.push_reserved(*item);
    }
}

// Part `i` of items that are cut into parts of `width` items.
fn part_of<T: Copy>(items: &[T], width: usize, i: usize) -> &[T]
    requires { i * width + width ≤ length items.now }
    ensures { result.now ≡ nth_part width items.now i }
{
    let from = i * width;
    &items[from..from + width]
}
