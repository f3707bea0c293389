//! The values of cubes, and the definitions of what a snapshot sees.
#![tactic(auto)]

mod bits;
mod boxed;
mod call_error;
mod coded_rows;
mod entry;
mod epoch_list;
mod law;
mod operation;
mod query;
mod quotient;
mod room;
mod row;
mod sequence;
mod shape;
mod shared_shape;
mod snapshot;
mod span;
mod table;
mod text;
mod top_plan;
mod value;

pub use bits::Bits;
pub use boxed::Boxed;
pub use call_error::CallError;
pub use coded_rows::CodedRows;
pub use entry::{Entries, Entry};
pub use epoch_list::EpochList;
pub use law::visible_is_what_running_leaves;
pub use operation::{
    Condition, Conditions, Operation, Operations, Region, Transaction, Transactions, ValueTest,
};
pub use query::{BoundItem, BoundItems, BoundQuery, BoxedQuery, Query};
pub use quotient::average;
pub use room::grown_room;
pub use row::{CodedRow, Coords, Numbers, Row, Rows, StoredRow, StoredRows};
pub use sequence::Sequence;
pub use shape::{CubeShape, Flags, MOST_BRICKS, MOST_COLUMNS, Shape, Size, Sizes};
pub use shared_shape::SharedShape;
pub use snapshot::Snapshot;
pub use span::{Part, Parts, Span};
pub use table::{Field, Line, NameLists, Table, TextLists, Texts};
pub use text::Text;
pub use top_plan::{Bound, BoundKey, BoundKeys, BoundTest, BoundTests, TopPlan};
pub use value::{Value, Values};
