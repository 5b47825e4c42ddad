ghost use Rattle.oc_bytes.specs.Outcome.{Spells};
ghost use Rattle.path_tree.specs.Texts.{text_of};
ghost use Rattle.folder_store.specs.Surveys.{at_in, names_at, view_standing};

use crate::sights::Standing;
use oc_bytes::NoMemory;
use path_tree::print_name;
use std::alloc::Global;

/// The text of a path that a survey names, as of a carousel's path; `/` for the folder itself.
/// `Err` is out of memory.
pub fn place_text(alloc: Global, at: &Option<Standing>) -> Result<String, NoMemory>
    ensures { Spells result (text_of (names_at (at_in at.now))) }
{
    match at {
        Some(standing) => standing_text(alloc, standing),
        None => String::from_str(alloc, "/"),
    }
}

/// The text of a path, as [`place_text`] has it. `Err` is out of memory.
pub fn standing_text(alloc: Global, standing: &Standing) -> Result<String, NoMemory>
    ensures { Spells result (text_of (names_at (view_standing standing.now))) }
{
    let name = print_name(alloc, standing.name.as_bytes())?;
    let name = name.as_str();
    let folder = &standing.folder;
    if folder.len() == 0 {
        return format!(in alloc; "/{name}");
    }
    format!(in alloc; "{folder}/{name}")
}
