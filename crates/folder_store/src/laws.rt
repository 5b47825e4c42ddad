ghost use Rattle.folder_store.specs.Walk.{EditsMakeTheFiles};

/// Unless an edit is refused or more than [`generation_catalogue::MOST_PUT_BYTES`] were read, a
/// known folder's edits make the tree of its files and bare folders from the empty tree.
pub fn edits_make_the_files()
    ensures { EditsMakeTheFiles }
{}
