//! What a shard answered, with the call that it answered.

ghost use Rattle.std.specs.Prelude.{◌≡◌};

use crate::shard::{ShardAnswer, ShardCall};
use std::marker::Model;

/// What a shard answered, with the call that it answered. Whoever made the call gives its memory back, which
/// costs less than where another thread does. Contracts see the answer.
#[derive(Drop)]
pub struct AnsweredCall {
    answer: ShardAnswer,
    call: ShardCall,
}

impl Model for AnsweredCall {
    ghost use Rattle.cube_core.specs.declared.shard.ShardAnswer.{ShardAnswer};

    ghost Value = { ShardAnswer };

    ghost view = { λ a. a.answer };
}

impl AnsweredCall {
    /// The answer to a call, with the call.
    pub fn new(answer: ShardAnswer, call: ShardCall) -> AnsweredCall
        ensures { result ≡ answer }
    {
        AnsweredCall { answer, call }
    }

    /// The answer.
    pub fn answer(&self) -> &ShardAnswer
        ensures { result.now ≡ self.now }
    {
        &self.answer
    }

    /// The answer alone.
    pub fn into_answer(self) -> ShardAnswer
        ensures { result ≡ self }
    {
        let _call = self.call;
        self.answer
    }
}
