//! A place for a cell's value.
ghost use Rattle.std.specs.Prelude.{◌≡◌, ◌≤◌, [], length, vec_capacity};
ghost use Rattle.turn_board.specs.Lanes.{lane_values};

/// A value with room behind it, so that threads on different cells do not share a cache line.
pub struct Lane<T> {
    pub value: T,
    room: [u64; 15],
}

impl<T> Lane<T> {
    pub fn of(value: T) -> Lane<T>
        ensures { result.value ≡ value }
    {
        Lane {
            value,
            room: [0; 15],
        }
    }

    pub fn into_value(self) -> T
        ensures { result ≡ self.value }
    {
        let Lane { value, room: _ } = self;
        value
    }
}

/// The values in lanes, in order, and the emptied list of values with its room. Out of memory is not possible.
pub fn into_lanes<T>(values: Vec<T>, lanes: Vec<Lane<T>>) -> (Vec<Lane<T>>, Vec<T>)
    requires empty { lanes.items ≡ [] }
    requires roomy { length values.items ≤ vec_capacity lanes }
    ensures lanes { lane_values result.0.items ≡ values.items }
    ensures empty { result.1.items ≡ [] }
    ensures roomy { vec_capacity result.1 ≡ vec_capacity values }
{
    let mut values = values;
    let mut lanes = lanes;
    'values: while let Some(value) = values.pop() {
        lanes.push_reserved(Lane::of(value));
    }
    lanes.as_mut_slice().reverse();
    (lanes, values)
}

/// The values out of the lanes, in order.
pub fn from_lanes<T>(lanes: Vec<Lane<T>>, values: Vec<T>) -> Vec<T>
    requires empty { values.items ≡ [] }
    requires roomy { length lanes.items ≤ vec_capacity values }
    ensures { result.items ≡ lane_values lanes.items }
{
    let mut lanes = lanes;
    let mut values = values;
    'lanes: while let Some(lane) = lanes.pop() {
        values.push_reserved(lane.into_value());
    }
    lanes.destroy_empty();
    values.as_mut_slice().reverse();
    values
}
