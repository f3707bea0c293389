//! The value of a dimension.

ghost use Rattle.std.specs.Prelude.{◌≡◌, ◌↔◌, IsTrue, IfOk};
ghost use Rattle.cube_values.specs.Values.{value_cmp};

use crate::sequence::Sequence;
use crate::text::Text;
use std::alloc::AllocError;
use std::cmp::Ordering;

/// The value of a dimension in a row: a text or a whole number.
#[derive(Clone, Debug, Drop)]
pub enum Value {
    Text(Text),
    Int(i64),
}

impl Value {
    /// The same value.
    pub fn copy(&self) -> Result<Value, AllocError>
        ensures { IfOk result (λ v. v ≡ self.now) }
    {
        self.clone()
    }

    /// Whether both are one value.
    pub fn is(&self, other: &Value) -> bool
        ensures { IsTrue result ↔ (self.now ≡ other.now) }
    {
        self == other
    }

    /// Numbers by size, texts by bytes.
    pub fn compare(&self, other: &Value) -> Ordering
        ensures { result ≡ value_cmp self.now other.now }
    {
        match (self, other) {
            (Value::Int(a), Value::Int(b)) => a.cmp(b),
            (Value::Text(a), Value::Text(b)) => a.cmp(b),
            (Value::Int(_), Value::Text(_)) => Ordering::Less,
            (Value::Text(_), Value::Int(_)) => Ordering::Greater,
        }
    }
}

impl PartialEq for Value {
    ghost use Rattle.std.specs.Cmp.{partial_equiv_from_equiv};
    ghost use Rattle.cube_values.specs.Values.{value_eq};
    ghost use Rattle.cube_values.specs.SameValues.{value_eq_equiv};

    ghost eq = { value_eq };

    ghost laws = { partial_equiv_from_equiv value_eq_equiv };

    fn eq(&self, other: &Value) -> bool {
        match (self, other) {
            (Value::Int(a), Value::Int(b)) => a == b,
            (Value::Text(a), Value::Text(b)) => a == b,
            _ => false,
        }
    }
}

impl Eq for Value {
    ghost use Rattle.cube_values.specs.SameValues.{value_eq_equiv};

    ghost laws = { value_eq_equiv };
}

/// Values in order.
pub type Values = Sequence<Value>;
