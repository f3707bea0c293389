//! Small runs by the definitions, worked out whole.

ghost use Rattle.cube_run.specs.Merge.{IsMerge};
ghost use Rattle.cube_run.specs.RunText.{IsText};
ghost use Rattle.cube_run.specs.VisitsReport.{visits_report, visits_text};
ghost use Rattle.cube_run.specs.WorkedRuns.{faulty_run, faulty_text, paired_run, paired_text};
ghost use Rattle.cube_run.specs.WorkedRuns.{watched_run, watched_text};

/// Four stored rows and a query: the journal is a merge of the script, and this is its text.
pub fn visits_report_worked()
    ensures merge { IsMerge visits_report }
    ensures text { IsText visits_report visits_text }
{}

/// A watch that is shown before and after a row is deleted.
pub fn watched_run_worked()
    ensures merge { IsMerge watched_run }
    ensures text { IsText watched_run watched_text }
{}

/// Two sessions: one reads its own row in an open transaction, and the other does not see it.
pub fn paired_run_worked()
    ensures merge { IsMerge paired_run }
    ensures text { IsText paired_run paired_text }
{}

/// A cube is made and a file is loaded, and much is refused on the way to a round and a purge.
pub fn faulty_run_worked()
    ensures merge { IsMerge faulty_run }
    ensures text { IsText faulty_run faulty_text }
{}
