//! Entries in a `Vec`, where neighbours that say the same thing are one entry.

ghost use Rattle.std.specs.Prelude.{◌≡◌, ◌+◌, ◌<◌, ◌≤◌, vec_len, vec_capacity};
ghost use Rattle.cube_values.specs.EpochsVector.{vector_with_entry};

use cube_values::Entry;

/// Puts an entry at the end, in the place of the last where the two are one. It takes no memory.
pub fn put_last(entries: &mut Vec<Entry>, new: Entry)
    requires { vec_len entries.old < vec_capacity entries.old }
    ensures items { entries.new.items ≡ vector_with_entry entries.old.items new }
    ensures capacity { vec_capacity entries.new ≡ vec_capacity entries.old }
    ensures len { vec_len entries.new ≤ vec_len entries.old + 1 }
{
    let len = entries.len();
    if len > 0 && entries[len - 1].is_one_with(new) {
        entries[len - 1] = new;
    } else {
        entries.push_reserved(new);
    }
}
