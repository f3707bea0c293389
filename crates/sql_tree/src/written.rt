//! The statement that a written form stands for.

ghost use Rattle.std.specs.Prelude.{◌≡◌, map, IfOk};
ghost use Rattle.cube_language.specs.Columns.{decl_of};
ghost use Rattle.cube_language.specs.Grammar.{is_desc, sort_key_of};

use cube_language::{
    Column, Columns, Decl, DimDecls, Direction, Key, Keys, Names, WrittenKey, WrittenKeys,
};
use cube_values::Text;
use std::alloc::{AllocError, Global};

/// Whether the greatest value comes first.
fn is_desc(direction: Direction) -> bool
    ensures { result ≡ is_desc direction }
{
    match direction {
        Direction::Unsaid | Direction::Asc => false,
        Direction::Desc => true,
    }
}

/// The key that is written.
fn sort_key_of(written: WrittenKey) -> Key
    ensures { result ≡ sort_key_of written }
{
    Key {
        item: written.item,
        desc: is_desc(written.direction),
    }
}

/// The keys that are written.
pub(crate) fn keys_of(alloc: Global, written: WrittenKeys) -> Result<Keys, AllocError>
    ensures { IfOk result (λ keys. keys ≡ map sort_key_of written) }
{
    let mut keys = Keys::new(alloc);
    'keys: for key in written.into_vec() {
        keys.push(sort_key_of(key))?;
    }
    Ok(keys)
}

/// The cube that columns declare: its dimensions and its metrics, each in their order.
pub(crate) fn decl_of(alloc: Global, name: Text, columns: Columns) -> Result<Decl, AllocError>
    ensures { IfOk result (λ decl. decl ≡ decl_of name columns) }
{
    let mut dims = DimDecls::new(alloc);
    let mut metrics = Names::new(alloc);
    'columns: for column in columns.into_vec() {
        match column {
            Column::Dim(dim) => dims.push(dim)?,
            Column::Metric(metric) => metrics.push(metric)?,
        }
    }
    Ok(Decl {
        name,
        dims,
        metrics,
    })
}
