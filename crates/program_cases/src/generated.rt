//! Runs over generated rows. The sums were computed apart, by a script over the same recurrence.

use crate::runs::{Outcome, given_scripts, run_held};
use crate::tables::first_difference;
use outside_disk::NoGate;
use std::alloc::{AllocError, Global};
use std::sync::Wait;
use std::test::Fail;
use std::thread::Threads;

const GENERATED: &str = "
# One row.
--generate 1
== 0
generated 1
'r6',44,1
end ec 5 lce 4 lse 4
# Some regions have no row.
--generate 13
== 0
generated 13
'r0',47,1
'r2',174,2
'r3',68,4
'r4',57,1
'r5',188,3
'r6',103,2
end ec 5 lce 4 lse 4
# All have some.
--generate 1000
== 0
generated 1000
'r0',5842,113
'r1',5995,125
'r2',6437,131
'r3',7119,134
'r4',5711,118
'r5',7500,141
'r6',6128,120
'r7',6165,118
end ec 5 lce 4 lse 4
# In one shard, with a round after each commit.
--generate 1000 --shards 1 --round-every 1
== 0
generated 1000
'r0',5842,113
'r1',5995,125
'r2',6437,131
'r3',7119,134
'r4',5711,118
'r5',7500,141
'r6',6128,120
'r7',6165,118
end ec 5 lce 4 lse 4
";

#[test]
fn generated_rows_are_summed_by_region(rt: HostRuntime) -> Result<(), Fail> {
    let wrong = first_difference(&rt, rt.alloc(), GENERATED, "")?;
    assert_eq!(rt; wrong.as_deref(), None);
    Ok(())
}

// The text over 100,000 rows.
fn text_of_many<R: Threads + Wait + Sync>(rt: &R, alloc: Global) -> Result<Vec<u8>, AllocError> {
    let given = given_scripts("");
    let Outcome { text, .. } = run_held(rt, alloc, "--generate 100000", given, &NoGate)?;
    Ok(text)
}

#[test]
fn many_rows_are_generated_twice_alike(rt: HostRuntime) -> Result<(), Fail> {
    let text = text_of_many(&rt, rt.alloc())?;
    assert!(rt; text.starts_with(b"generated 100000\n'r0',"));
    assert_eq!(rt; text_of_many(&rt, rt.alloc())?.as_slice(), text.as_slice());
    Ok(())
}
