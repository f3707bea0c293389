//! What follows from the definitions, for whoever reads a file and loads its records.

ghost use Rattle.loaded_files.specs.LoadedFiles.{LooksAtRecords};

/// The records at which a LOAD looks are judged from those that its file has.
pub fn a_load_looks_at_the_records_of_its_file()
    ensures { LooksAtRecords }
{}
