//! What each step on the table tells.
ghost use Rattle.std.specs.Prelude.{ℕ, Option, None};
ghost use Rattle.turn_board.specs.declared.history.Event.{Event};
ghost use Rattle.turn_board.specs.Steps.{HasDrawn, Looks, PassesOn, Settles, Shuts, first_part, last_part, joined_view, spent_view};

use crate::cells::Cells;
use crate::lane::Lane;
use crate::view::PassView;
use atomic_table::{Join, Play, Split};
use std::marker::{Brand, PhantomData};

/// The event that a step adds to the history. Each call of a function picks it.
pub(crate) trait Naming<Q, A> {
    ghost event: { Option (Event Q A) };
}

impl<Q, A> Naming<Q, A> for Brand {
    ghost event = { None };
}

/// How many callers a pass keeps where it is split.
pub(crate) trait Cutting {
    ghost count: { ℕ };
}

impl Cutting for Brand {
    ghost count = { 0 };
}

pub(crate) struct Draw;

impl<T, Q, A> Play<Lane<T>, PassView<T, Q, A>> for Draw {
    ghost then = { HasDrawn };
}

pub(crate) struct Look<C> {
    cells: PhantomData<C>,
}

impl<C: Cells> Play<Lane<C::Cell>, PassView<C::Cell, C::Call, C::Answer>> for Look<C> {
    ghost then = { Looks C.can C.fits };
}

pub(crate) struct PassOn<C, E> {
    cells: PhantomData<C>,
    event: PhantomData<E>,
}

impl<C: Cells, E: Naming<C::Call, C::Answer>> Play<
    Lane<C::Cell>,
    PassView<C::Cell, C::Call, C::Answer>,
> for PassOn<C, E> {
    ghost then = { PassesOn C.step C.fits E.event };
}

pub(crate) struct Settle<C> {
    cells: PhantomData<C>,
}

impl<C: Cells> Play<Lane<C::Cell>, PassView<C::Cell, C::Call, C::Answer>> for Settle<C> {
    ghost then = { Settles C.step C.fits };
}

pub(crate) struct Shut;

impl<T, Q, A> Play<Lane<T>, PassView<T, Q, A>> for Shut {
    ghost then = { Shuts };
}

pub(crate) struct CutSeat<E> {
    count: PhantomData<E>,
}

impl<T, Q, A, E: Cutting> Split<PassView<T, Q, A>> for CutSeat<E> {
    ghost left = { first_part E.count };

    ghost right = { last_part E.count };
}

pub(crate) struct Glue;

impl<T, Q, A> Join<PassView<T, Q, A>> for Glue {
    ghost both = { joined_view };

    ghost spent = { spent_view };
}
