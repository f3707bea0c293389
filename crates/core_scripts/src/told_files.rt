//! What is known of the files that a session reads from its shelf.

use outside::Shelf;
use scripted_pasts::KnowsFiles;

/// The files of a session's LOADs are those of a shelf: where the shelf tells its files, they are as it tells them.
#[derive(Drop)]
pub struct FromShelf<H> {
    pub shelf: H,
}

impl<H: Shelf> KnowsFiles for FromShelf<H> {
    ghost use Rattle.core_scripts.specs.ToldFiles.{files_told};

    ghost is_file = { λ known. files_told (H.told known.shelf) };
}
