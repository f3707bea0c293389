//! What ties rows by coordinates to the rows of values that they stand for.

ghost use Rattle.query_plan.specs.AllParts.{BindingsHaveAllParts};
ghost use Rattle.query_plan.specs.Ties.{SpansTakeRegions, QueriesTakeRegions, QueriesAnswerForValues};

/// Nothing of a statement that fits its cube is left out where it is bound: by places it has as many conditions,
/// columns of its group, items, tests of HAVING and keys of ORDER BY as by names.
pub fn bindings_have_all_parts()
    ensures { BindingsHaveAllParts }
{}

/// A statement that fits its cube, bound by right codes, takes those rows by coordinates that stand for rows of
/// its region: the span of a deletion, by whatever texts its codes are right, and that of a query, by the names
/// that it was bound with. So a query has one answer over rows by coordinates and over the rows that they stand
/// for. The texts of a dimension have to be distinct, and each coordinate has to stand for a value.
pub fn statements_are_bound_to_what_they_ask()
    ensures spans { SpansTakeRegions }
    ensures queries { QueriesTakeRegions }
    ensures answers { QueriesAnswerForValues }
{}
