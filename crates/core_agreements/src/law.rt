//! Laws that join the rows of the core to the record, over every run in which the sessions follow
//! their scripts.

ghost use Rattle.std.specs.Prelude.{◌≡◌, ℕ, false, List, ◌++◌, fold, slice_get, Some};
ghost use Rattle.agg_fold.specs.Standing.{IsTable, StandsFor};
ghost use Rattle.agg_fold.specs.declared.groups.Groups.{Groups};
ghost use Rattle.condition_spans.specs.Codes.{lists_at};
ghost use Rattle.core_agreements.specs.NamedQueries.{IsBoundBetween};
ghost use Rattle.core_agreements.specs.PostsForOperations.{PostsStandFor, StandForAll};
ghost use Rattle.core_agreements.specs.ScriptedRuns.{IsAtStatement, IsScriptedRun};
ghost use Rattle.core_events.specs.Cells.{counters_of_run};
ghost use Rattle.core_events.specs.Clients.{client_state};
ghost use Rattle.core_events.specs.Events.{CoreEvent, Opening};
ghost use Rattle.core_events.specs.Serial.{CubeOperation, operations_of, rows_after_transaction};
ghost use Rattle.core_records.specs.CoreRecords.{RunScripts, record_of};
ghost use Rattle.core_serial.specs.Queries.{HasAnswered, rows_fetched};
ghost use Rattle.core_serial.specs.CubeRows.{rows_of_serial_run, rows_to_find};
ghost use Rattle.cube_journal.specs.Counters.{held_by};
ghost use Rattle.cube_language.specs.ResolvedNames.{resolved_query};
ghost use Rattle.cube_language.specs.declared.decl.Decl.{Decl};
ghost use Rattle.cube_language.specs.declared.statement.Statement.{Statement};
ghost use Rattle.cube_run.specs.RunRecords.{catalog_of, script_of};
ghost use Rattle.cube_run.specs.RunTransactions.{run_transactions, transactions_inside};
ghost use Rattle.cube_values.specs.Answer.{answer};
ghost use Rattle.cube_values.specs.Running.{after_operation};
ghost use Rattle.cube_values.specs.Visible.{visible_rows};
ghost use Rattle.cube_values.specs.declared.operation.Operation.{Operation};
ghost use Rattle.cube_values.specs.declared.query.BoundQuery.{BoundQuery};
ghost use Rattle.cube_values.specs.declared.row.CodedRow.{CodedRow};
ghost use Rattle.cube_values.specs.declared.row.StoredRow.{StoredRow};
ghost use Rattle.cube_values.specs.declared.snapshot.Snapshot.{Snapshot};
ghost use Rattle.cube_values.specs.declared.table.Field.{Field};
ghost use Rattle.one_session.specs.Changes.{rows_in_cube};

/// Where posts stand for operations, what the posts leave of the rows of a cube stands for what the
/// operations leave of it.
pub fn posts_leave_what_operations_leave()
    ensures { (d : Decl) (lists : List (List (List ℕ))) (posts : List CubeOperation)
        (done : List Operation) (rows : List CodedRow) (stored : List StoredRow)
        → PostsStandFor d lists posts done
        → StandForAll d lists rows (rows_in_cube d.name stored)
        → StandForAll d lists (rows_after_transaction posts rows)
        (rows_in_cube d.name (fold after_operation stored done)) }
{}

/// What a reader sees of the record's transactions, cube by cube, is what the rows stand for that
/// the core leaves for it by serial execution, whatever may follow.
pub fn readers_see_the_record()
    ensures { (o : Opening) (given : RunScripts) (later es : List CoreEvent) (cube number : ℕ)
        (d : Decl) (s : Snapshot) → IsScriptedRun o given (later ++ es)
        → held_by (counters_of_run o es).snapshots number ≡ Some s → s.own ≡ false
        → slice_get (catalog_of (record_of o given (later ++ es))).cubes cube ≡ Some d
        → StandForAll d (lists_at (record_of o given (later ++ es)).names cube)
        (rows_of_serial_run o es cube s)
        (rows_in_cube d.name
        (visible_rows s (run_transactions (record_of o given (later ++ es))))) }
{}

/// What a writer sees at a statement of its transaction, cube by cube, is what these rows stand
/// for.
pub fn writers_see_the_record()
    ensures { (o : Opening) (given : RunScripts) (later es : List CoreEvent)
        (session statement cube : ℕ) (d : Decl) (s : Snapshot)
        → IsScriptedRun o given (later ++ es)
        → IsAtStatement o (record_of o given (later ++ es)) es session statement cube d s
        → slice_get (catalog_of (record_of o given (later ++ es))).cubes cube ≡ Some d
        → StandForAll d (lists_at (record_of o given (later ++ es)).names cube)
        (rows_of_serial_run o es cube s)
        (rows_in_cube d.name
        (visible_rows s (transactions_inside (record_of o given (later ++ es)) session
        (script_of (record_of o given (later ++ es)) session) statement s.epoch))) }
{}

/// The table of groups that stand for the rows which a query is to find is its statement's answer
/// over what the snapshot sees of the record: of a reader's, and of a writer's inside its
/// transaction. The names by which it is bound are copied once its snapshot is open, and its own
/// transaction does nothing more before the groups stand.
pub fn tables_answer_by_the_record()
    ensures reader { (o : Opening) (given : RunScripts) (later mid es : List CoreEvent)
        (number : ℕ) (names : List (List (List (List ℕ)))) (d : Decl) (asked : Statement)
        (query : BoundQuery) (s : Snapshot) (groups : Groups) (table : List (List Field))
        → IsScriptedRun o given (later ++ (mid ++ es))
        → held_by (counters_of_run o es).snapshots number ≡ Some s → s.own ≡ false
        → IsBoundBetween o es (later ++ (mid ++ es)) names d asked query
        → StandsFor query (rows_to_find o (mid ++ es) query s) groups
        → IsTable query (lists_at names query.cube) groups table
        → table ≡ answer (resolved_query d asked)
        (visible_rows s (run_transactions (record_of o given (later ++ (mid ++ es))))) }
    ensures writer { (o : Opening) (given : RunScripts) (later mid es : List CoreEvent)
        (session statement : ℕ) (names : List (List (List (List ℕ)))) (d : Decl)
        (asked : Statement) (query : BoundQuery) (s : Snapshot) (groups : Groups)
        (table : List (List Field))
        → IsScriptedRun o given (later ++ (mid ++ es))
        → IsAtStatement o (record_of o given (later ++ (mid ++ es))) es session statement
        query.cube d s
        → operations_of o query.cube (mid ++ es) s.epoch ≡ operations_of o query.cube es s.epoch
        → IsBoundBetween o es (later ++ (mid ++ es)) names d asked query
        → StandsFor query (rows_to_find o (mid ++ es) query s) groups
        → IsTable query (lists_at names query.cube) groups table
        → table ≡ answer (resolved_query d asked)
        (visible_rows s (transactions_inside (record_of o given (later ++ (mid ++ es))) session
        (script_of (record_of o given (later ++ (mid ++ es))) session) statement s.epoch)) }
{}

/// The merged answer of a query is its statement's answer over what its snapshot sees of the
/// record: this holds of groups that stand for the rows that it has fetched from all shards.
pub fn queries_answer_by_the_record()
    ensures reader { (o : Opening) (given : RunScripts) (later mid es : List CoreEvent)
        (client number : ℕ) (names : List (List (List (List ℕ)))) (d : Decl) (asked : Statement)
        (query : BoundQuery) (s : Snapshot) (groups : Groups) (table : List (List Field))
        → IsScriptedRun o given (later ++ (mid ++ es))
        → held_by (counters_of_run o es).snapshots number ≡ Some s → s.own ≡ false
        → IsBoundBetween o es (later ++ (mid ++ es)) names d asked query
        → HasAnswered o.shards query s (client_state o client (mid ++ es)).group
        → StandsFor query (rows_fetched (client_state o client (mid ++ es)).group.answers) groups
        → IsTable query (lists_at names query.cube) groups table
        → table ≡ answer (resolved_query d asked)
        (visible_rows s (run_transactions (record_of o given (later ++ (mid ++ es))))) }
    ensures writer { (o : Opening) (given : RunScripts) (later mid es : List CoreEvent)
        (session statement : ℕ) (names : List (List (List (List ℕ)))) (d : Decl)
        (asked : Statement) (query : BoundQuery) (s : Snapshot) (groups : Groups)
        (table : List (List Field))
        → IsScriptedRun o given (later ++ (mid ++ es))
        → IsAtStatement o (record_of o given (later ++ (mid ++ es))) es session statement
        query.cube d s
        → operations_of o query.cube (mid ++ es) s.epoch ≡ operations_of o query.cube es s.epoch
        → IsBoundBetween o es (later ++ (mid ++ es)) names d asked query
        → HasAnswered o.shards query s (client_state o session (mid ++ es)).group
        → StandsFor query (rows_fetched (client_state o session (mid ++ es)).group.answers) groups
        → IsTable query (lists_at names query.cube) groups table
        → table ≡ answer (resolved_query d asked)
        (visible_rows s (transactions_inside (record_of o given (later ++ (mid ++ es))) session
        (script_of (record_of o given (later ++ (mid ++ es))) session) statement s.epoch)) }
{}
