//! The laws of known cubes and names.

ghost use Rattle.std.specs.Prelude.{◌≡◌, ℕ, ◌≤◌, List, [], ◌∷◌, ◌++◌, length, slice_get, Some, All};
ghost use Rattle.aosi_desk.specs.Desks.{AreCubes, IsFound};
ghost use Rattle.aosi_desk.specs.declared.cube.CubeFound.TheVariants.{Found};
ghost use Rattle.condition_spans.specs.Spans.{CutNoBrick};
ghost use Rattle.cube_core.specs.Links.{AreEventsOf};
ghost use Rattle.cube_core.specs.BoardCells.{IsEntryEvent};
ghost use Rattle.core_cells.specs.declared.names.NamesCall.TheVariants as names;
ghost use Rattle.core_program.specs.Knowing.{IsClientOf, IsLaterRun, IsSessionOf, Knows, MayCallNames};
ghost use Rattle.core_events.specs.Cells.{desk_of, dictionary_of, sizes_of_cube};
ghost use Rattle.core_events.specs.Clients.{ClientState, state_from_calls};
ghost use Rattle.core_events.specs.Events.{ClientCall, CoreEvent, IsSession, Opening};
ghost use Rattle.core_events.specs.Fitting.{CutsNoBrick, IsQueryOf, MayPutRow};
ghost use Rattle.core_events.specs.Runs.{IsCoreRun};
ghost use Rattle.cube_core.specs.NamesEvents.{FitsNamesCall};
ghost use Rattle.core_program.specs.CoreFits.{CoreEntry, OpensCells, decl_at};
ghost use Rattle.cube_core.specs.declared.cell.CoreCell.{CoreCell};
ghost use Rattle.cube_language.specs.Cubes.{IsStorable, sizes_of};
ghost use Rattle.cube_language.specs.CubesText.{cubes_limit};
ghost use Rattle.cube_language.specs.declared.decl.Decl.{Decl};
ghost use Rattle.cube_schema.specs.Schemas.{cube_of};
ghost use Rattle.cube_values.specs.Queries.{IsSoundQuery};
ghost use Rattle.cube_values.specs.Shapes.{IsSoundCube};
ghost use Rattle.cube_values.specs.declared.query.BoundQuery.{BoundQuery};
ghost use Rattle.cube_values.specs.declared.row.CodedRow.{CodedRow};
ghost use Rattle.cube_values.specs.declared.shape.CubeShape.{CubeShape};
ghost use Rattle.cube_values.specs.declared.span.Span.{Span};
ghost use Rattle.known_cubes.specs.KnownCubes.{AreMadeAfter, CallsTellCube, IsRowToPut, IsToldOfCube, KnowsCube, OpenWithStorableCubes, TellsOfCube};
ghost use Rattle.known_cubes.specs.KnownNames.{CallsTellNumber, IsToldOfName, TellsOfName};
ghost use Rattle.names_dict.specs.Dictionaries.{IsTextDimension};

use cube_core::LinkedShard;

/// The desk's cubes in a run are those of the opening and then those that its history makes, and
/// each has the shape of its declaration. They are few, and each of its history's could be made.
/// Where those of the opening can be stored, or are also of different names, so are all.
pub fn desk_cubes_are_those_of_the_history<S: LinkedShard>()
    ensures cubes { (o : Opening) (log : List CoreEntry) (run : List CoreEvent) (place : ℕ)
        → AreEventsOf (IsEntryEvent S.fits S.stands S.says o) log run → IsCoreRun o run
        → slice_get (desk_of o run).cubes place ≡ decl_at o.cubes place log }
    ensures shapes { (cells : List (CoreCell S)) (o : Opening) (log : List CoreEntry)
        (run : List CoreEvent) (place : ℕ) (decl : Decl)
        → OpensCells S.fits S.stands S.says o cells log
        → AreEventsOf (IsEntryEvent S.fits S.stands S.says o) log run → IsCoreRun o run
        → slice_get (desk_of o run).cubes place ≡ Some decl → o.shapes place ≡ cube_of decl }
    ensures few { (o : Opening) (run : List CoreEvent) → IsCoreRun o run
        → length (desk_of o run).cubes ≤ cubes_limit }
    ensures storable { (o : Opening) (run : List CoreEvent) → IsCoreRun o run
        → All IsStorable o.cubes → All IsStorable (desk_of o run).cubes }
    ensures made { (o : Opening) (run : List CoreEvent) → IsCoreRun o run
        → AreMadeAfter o.cubes (desk_of o run).cubes }
    ensures differ { (o : Opening) (run : List CoreEvent) → IsCoreRun o run
        → AreCubes o.cubes → AreCubes (desk_of o run).cubes }
{}

/// A client knows each cube of which one of its own calls told it, and in each later run the desk
/// has that cube by its name. It still knows it with more calls. It is told by its newest call, or
/// was by earlier ones.
pub fn clients_know_cubes_they_were_told_of<S: LinkedShard>()
    ensures knows { (cells : List (CoreCell S)) (caller client : ℕ) (own : List CoreEntry)
        (name : List ℕ) (place : ℕ) (decl : Decl)
        → IsClientOf S.fits S.stands S.says cells caller client
        → OpenWithStorableCubes S.fits S.stands S.says cells → IsToldOfCube own name place decl
        → Knows S.fits S.stands S.says cells caller client own
        (CallsTellCube client place decl) }
    ensures desk { (cells : List (CoreCell S)) (o : Opening) (caller : ℕ)
        (own log : List CoreEntry) (run : List CoreEvent) (name : List ℕ) (place : ℕ) (decl : Decl)
        → IsLaterRun S.fits S.stands S.says cells o caller own log run
        → IsToldOfCube own name place decl
        → IsFound (desk_of o run).cubes name (Found place decl) }
    ensures stays { (o : Opening) (client place : ℕ) (decl : Decl) (more calls : List ClientCall)
        → KnowsCube o place decl (state_from_calls o client calls)
        → KnowsCube o place decl (state_from_calls o client (more ++ calls)) }
    ensures newest { (own : List CoreEntry) (e : CoreEntry) (name : List ℕ) (place : ℕ)
        (decl : Decl) → TellsOfCube name place decl e.call e.answer
        → IsToldOfCube (own ++ e ∷ []) name place decl }
    ensures later { (own more : List CoreEntry) (name : List ℕ) (place : ℕ) (decl : Decl)
        → IsToldOfCube own name place decl → IsToldOfCube (own ++ more) name place decl }
{}

/// A client knows each name whose number one of its own calls told it, its newest or an earlier
/// one, and in each later run that is the number of the name.
pub fn clients_know_names_they_were_told_of<S: LinkedShard>()
    ensures knows { (cells : List (CoreCell S)) (caller client cube dim : ℕ) (name : List ℕ)
        (number : ℕ) (own : List CoreEntry)
        → IsClientOf S.fits S.stands S.says cells caller client
        → IsToldOfName own cube dim name number
        → Knows S.fits S.stands S.says cells caller client own
        (CallsTellNumber client cube dim number) }
    ensures stands { (cells : List (CoreCell S)) (o : Opening) (caller cube dim : ℕ)
        (name : List ℕ) (number : ℕ) (own log : List CoreEntry) (run : List CoreEvent)
        → IsLaterRun S.fits S.stands S.says cells o caller own log run
        → IsToldOfName own cube dim name number
        → slice_get (dictionary_of o cube dim run).names number ≡ Some name }
    ensures newest { (own : List CoreEntry) (e : CoreEntry) (cube dim : ℕ) (name : List ℕ)
        (number : ℕ) → TellsOfName cube dim name number e.call e.answer
        → IsToldOfName (own ++ e ∷ []) cube dim name number }
    ensures later { (own more : List CoreEntry) (cube dim : ℕ) (name : List ℕ) (number : ℕ)
        → IsToldOfName own cube dim name number
        → IsToldOfName (own ++ more) cube dim name number }
{}

/// A session may ask the names of a cube that it was told of, with the shape of the declaration.
pub fn sessions_may_ask_names_of_told_cubes<S: LinkedShard>()
    ensures encode { (cells : List (CoreCell S)) (caller client : ℕ) (own : List CoreEntry)
        (name : List ℕ) (place dim : ℕ) (decl : Decl) (shape : CubeShape) (text : List ℕ)
        → IsClientOf S.fits S.stands S.says cells caller client
        → IsSessionOf S.fits S.stands S.says cells client
        → OpenWithStorableCubes S.fits S.stands S.says cells → IsToldOfCube own name place decl
        → shape ≡ cube_of decl → IsSoundCube shape → IsTextDimension shape dim
        → length text ≤ 255 → Knows S.fits S.stands S.says cells caller client own
        (MayCallNames client (names.Encode place dim shape text)) }
    ensures find { (cells : List (CoreCell S)) (caller client : ℕ) (own : List CoreEntry)
        (name : List ℕ) (place dim : ℕ) (decl : Decl) (text : List ℕ)
        → IsClientOf S.fits S.stands S.says cells caller client
        → IsSessionOf S.fits S.stands S.says cells client
        → OpenWithStorableCubes S.fits S.stands S.says cells → IsToldOfCube own name place decl
        → IsTextDimension (cube_of decl) dim
        → Knows S.fits S.stands S.says cells caller client own
        (MayCallNames client (names.Find place dim text)) }
{}

/// Of a cube that a client knows, the declaration tells which queries are of it, which rows may be
/// put into it, how many dimensions it has, which boxes cut none of its bricks, and which calls on
/// its names fit.
pub fn declarations_tell_what_fits()
    ensures queries { (o : Opening) (decl : Decl) (query : BoundQuery) (k : ClientState)
        → KnowsCube o query.cube decl k
        → IsSoundQuery query (length decl.dims) (length decl.metrics) → IsQueryOf o query k }
    ensures rows { (o : Opening) (place shard : ℕ) (decl : Decl) (k : ClientState)
        (rows : List CodedRow) → KnowsCube o place decl k
        → All (IsRowToPut decl place o.shards shard k) rows → All (MayPutRow o place shard k) rows }
    ensures dims { (o : Opening) (place : ℕ) (decl : Decl) (k : ClientState)
        → KnowsCube o place decl k → length (sizes_of_cube o place) ≡ length decl.dims }
    ensures boxes { (o : Opening) (place : ℕ) (decl : Decl) (k : ClientState) (box : Span)
        → KnowsCube o place decl k → IsSoundCube (cube_of decl)
        → CutNoBrick (sizes_of decl.dims) box.parts → CutsNoBrick o place box }
    ensures encode { (o : Opening) (a place dim : ℕ) (decl : Decl) (shape : CubeShape)
        (name : List ℕ) (k : ClientState) → KnowsCube o place decl k → IsSession o a
        → shape ≡ cube_of decl → IsSoundCube shape → IsTextDimension shape dim
        → length name ≤ 255 → FitsNamesCall o a (names.Encode place dim shape name) k }
    ensures find { (o : Opening) (a place dim : ℕ) (decl : Decl) (name : List ℕ) (k : ClientState)
        → KnowsCube o place decl k → IsSession o a → IsTextDimension (cube_of decl) dim
        → FitsNamesCall o a (names.Find place dim name) k }
{}
