//! A watch of a session.
ghost use Rattle.std.specs.Prelude.{List, All, IfOk};
ghost use Rattle.agg_fold.specs.Standing.{StandsFor};
ghost use Rattle.agg_fold.specs.Tallies.{IsAdditive};
ghost use Rattle.cube_values.specs.declared.row.CodedRow.{CodedRow};
ghost use Rattle.watched_queries.specs.WatchSteps.{BeginsSessionWatch, CanFollow, FollowsSessionWatch};

use agg_fold::Partial;
use cube_values::BoundQuery;
use standing_query::Change;
use std::alloc::AllocError;

/// A watch of a session: the holder's number under which its reader is held, the epoch of this reader, its
/// query, and the rows that it shows by their groups.
#[derive(Drop)]
pub struct SessionWatch {
    pub holder: u32,
    pub epoch: u64,
    pub query: BoundQuery,
    pub kept: Partial,
}

// Groups have room for fewer rows.
const ROW_LIMIT: u64 = 1 << 63;

// A watch that shows a first answer.
pub(crate) fn first_watch(
    query: &BoundQuery,
    holder: u32,
    epoch: u64,
    first: &Partial,
) -> Result<SessionWatch, AllocError>
    requires stands { (rows : List CodedRow) × StandsFor query.now rows first.now.groups }
    ensures { IfOk result (BeginsSessionWatch query.now holder epoch first.now.groups) }
{
    let kept = first.copy()?;
    Ok(SessionWatch {
        holder,
        epoch,
        query: query.copy()?,
        kept,
    })
}

// The watch once a change has led to another reader; the old one is left. It is an error, too, where there
// is no room for the rows that came.
pub(crate) fn followed_watch(
    kept: &Partial,
    query: &BoundQuery,
    holder: u32,
    epoch: u64,
    change: &Change,
) -> Result<SessionWatch, AllocError>
    requires additive { All IsAdditive query.now.items }
    requires follows { CanFollow query.now kept.now.groups change.now }
    ensures { IfOk result
        (FollowsSessionWatch query.now kept.now.groups holder epoch change.now) }
{
    let come = change.came.rows();
    if kept.rows() + come >= ROW_LIMIT {
        return Err(AllocError);
    }
    let mut next = kept.copy()?;
    // What comes is added first: only that may want memory.
    next.merge(query, &change.came)?;
    next.remove(query, &change.went);
    Ok(SessionWatch {
        holder,
        epoch,
        query: query.copy()?,
        kept: next,
    })
}
