//! What is known of files.

ghost use Rattle.scripted_pasts.specs.PlayedScripts.{FileClaim};

/// What is known of the files that the statements of a session had: of a LOAD, that its file gave what the shelf tells
/// of it.
pub trait KnowsFiles {
    ghost is_file: { Self → FileClaim };
}
