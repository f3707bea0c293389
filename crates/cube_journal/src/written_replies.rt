//! Replies as they are written, one of each kind.

ghost use Rattle.std.specs.Prelude.{◌≡◌, [], ◌∷◌, true, pos, codes};
ghost use Rattle.cube_values.specs.declared.table.Field.TheVariants.{Text, Whole, Decimal, Null};
ghost use Rattle.cube_language.specs.declared.bad_row.BadRow.TheVariants.{Column};
ghost use Rattle.cube_language.specs.declared.bad_row.Reason.TheVariants.{NotText};
ghost use Rattle.cube_journal.specs.declared.refusal.Refusal.TheVariants.{NoMemory};
ghost use Rattle.cube_journal.specs.declared.reply.Reply.TheVariants.{Rows, Stored, Loaded, Dropped, Begun, Committed, RolledBack, Flushed, Purged, Epochs, Created, Watching, Refused};
ghost use Rattle.cube_journal.specs.Replies.{reply_text};

/// Each reply as it is written.
pub fn replies_as_written()
    ensures rows { reply_text (Rows 4 ((Text (codes "CA") ∷ Whole (pos 5) ∷ Null ∷ []) ∷ []))
        ≡ codes "rows 1 epoch 4\n'CA',5,NULL\n" }
    ensures average { reply_text (Rows 4 ((Decimal true 0 7 ∷ []) ∷ []))
        ≡ codes "rows 1 epoch 4\n-0.0007\n" }
    ensures stored { reply_text (Stored 1 2) ≡ codes "stored 1 epoch 2\n" }
    ensures loaded { reply_text
        (Loaded 2 1 (record { number = 4; why = Column (codes "x") NotText } ∷ []) 3)
        ≡ codes "stored 2 rejected 1 epoch 3\nreject 4 column x NotText\n" }
    ensures dropped { reply_text (Dropped 2) ≡ codes "dropped epoch 2\n" }
    ensures begun { reply_text (Begun 2) ≡ codes "begun 2\n" }
    ensures committed { reply_text (Committed 2) ≡ codes "committed 2\n" }
    ensures rolled_back { reply_text (RolledBack 2) ≡ codes "rolled back 2\n" }
    ensures flushed { reply_text (Flushed 2) ≡ codes "flushed 2\n" }
    ensures purged { reply_text (Purged 2) ≡ codes "purged 2\n" }
    ensures epochs { reply_text (Epochs (record { ec = 4; lce = 1; lse = 0; pending = 2 ∷ 3 ∷ [] }))
        ≡ codes "epochs ec 4 lce 1 lse 0 pending [2,3]\n" }
    ensures created { reply_text (Created 2) ≡ codes "created epoch 2\n" }
    ensures watching { reply_text (Watching 2 ((Null ∷ []) ∷ []))
        ≡ codes "watching 1 epoch 2\nNULL\n" }
    ensures refused { reply_text (Refused NoMemory) ≡ codes "refused 16 NoMemory\n" }
{}
