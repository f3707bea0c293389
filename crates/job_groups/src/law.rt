//! The law of groups with all their answers.

ghost use Rattle.std.specs.Prelude.{◌≡◌, ℕ, List, length, true};
ghost use Rattle.std.specs.List.{list_any};
ghost use Rattle.core_events.specs.Groups.{has_all_below, has_refusal, mails_of};
ghost use Rattle.core_events.specs.Jobs.{JobOutcome, is_refusal};
ghost use Rattle.cube_core.specs.declared.shard.ShardCall.{ShardCall};
ghost use Rattle.job_groups.specs.AskedEach.{whole_group};
ghost use Rattle.job_groups.specs.AskedSome.{group_of_some};

/// A group of each shard has the answer of each, and a group has a refusal just where one of its
/// outcomes is one.
pub fn groups_have_their_answers()
    ensures all { (calls : List ShardCall) (outcomes : List JobOutcome)
        → has_all_below (length outcomes) (mails_of (whole_group calls outcomes).answers) ≡ true }
    ensures refused { (calls : List ShardCall) (outcomes : List JobOutcome)
        → has_refusal (whole_group calls outcomes).answers ≡ list_any is_refusal outcomes }
    ensures refused_some { (numbers : List ℕ) (calls : List ShardCall) (outcomes : List JobOutcome)
        → length outcomes ≡ length numbers
        → has_refusal (group_of_some numbers calls outcomes).answers ≡ list_any is_refusal outcomes }
{}
