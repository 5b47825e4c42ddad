//! Laws of playouts, as functions that do nothing.
ghost use Rattle.folder_playout.specs.Laws.{JudgedAsFirst, PlayoutsAreBroadcasts, PlayoutsCanBePacked, PlayoutsMeet, TreesChange, UnchangedIsPublished};

/// What a playout sends is whole cycles of a lawful carousel's generations, which never go back,
/// and whose trees were read.
pub fn playouts_are_broadcasts()
    ensures { PlayoutsAreBroadcasts }
{
    generation::layouts_are_lawful();
    generation::generations_are_of_the_lists();
}

/// A packer takes the sections of a playout.
pub fn playouts_can_be_packed()
    ensures { PlayoutsCanBePacked }
{
    dsmcc_section::spellings_read();
    ddb_block::spellings_read();
    dsi_dii::spellings_read_back();
}

/// What is heard of it is promised what every reception is.
pub fn playouts_meet()
    ensures { PlayoutsMeet }
{
    carousel_world::every_reception_meets();
}

/// Exactly a tree with other files or kept folders than that on the air makes a generation, which
/// carries it.
pub fn trees_change()
    ensures { TreesChange }
{}

/// While only the first tree is read, the bytes are those of its publication's cycles; a known
/// folder gives no other tree.
pub fn unchanged_is_published()
    ensures { UnchangedIsPublished }
{
    generation::generations_are_of_the_lists();
}

/// A folder is refused for what a carousel's first commit is.
pub fn judged_as_first()
    ensures { JudgedAsFirst }
{}
