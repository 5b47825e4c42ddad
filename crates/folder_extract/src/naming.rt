//! Names of a carousel as names of files.

ghost use Rattle.std.specs.Prelude.{◌≡◌, option_map, Some, None, if◌then◌else◌, IfOk};
ghost use Rattle.std.specs.List.{list_any};
ghost use Rattle.std.specs.Option.{option_copied};
ghost use Rattle.std.specs.String.{string_bytes};
ghost use Rattle.path_tree.specs.Texts.{is_name, is_zero_or_slash};
ghost use Rattle.folder_extract.specs.Naming.{can_stand, is_file_name, is_taken as taken, names_above};
ghost use Rattle.folder_extract.specs.Inner.Naming.{place_text as text_of_place};

use folder_store::PART_NAME;
use oc_bytes::NoMemory;
use path_tree::Path;
use std::alloc::Global;
use std::str;

/// The path text of a path of a carousel below a folder of the outside; none, where a name in it
/// can't be that of a file: `.`, `..`, one that isn't UTF-8, or [`PART_NAME`].
pub(crate) fn place_text(
    alloc: Global,
    folder: &str,
    path: &Path,
) -> Result<Option<String>, NoMemory>
    ensures { IfOk result (λ text.
        option_map string_bytes text ≡ text_of_place folder.now path.now) }
{
    let mut text = String::from_str(alloc, folder)?;
    for i in 0..path.len() {
        let Some(name) = file_name(path.name(i)) else {
            return Ok(None);
        };
        text.push('/')?;
        text.push_str(name)?;
    }
    Ok(Some(text))
}

/// Whether each name above a path's last one can be that of a file.
pub(crate) fn can_stand_above(path: &Path) -> bool
    ensures { result ≡ can_stand (names_above path.now) }
{
    for i in 0..path.len().saturating_sub(1) {
        let Some(_) = file_name(path.name(i)) else {
            return false;
        };
    }
    true
}

/// The text of a name, where it can be that of a file.
fn file_name(name: &[u8]) -> Option<&str>
    ensures { option_copied result ≡ (if is_file_name name.now then Some name.now else None) }
{
    let Ok(text) = str::from_utf8(name) else {
        return None;
    };
    if is_path_name(name) && !is_taken(text) {
        Some(text)
    } else {
        None
    }
}

/// Whether a path can have this name: 1 to 254 bytes, none of them zero or a `/`.
pub(crate) fn is_path_name(name: &[u8]) -> bool
    ensures { result ≡ is_name name.now }
{
    !name.is_empty() && name.len() <= 254 && !holds_zero_or_slash(name)
}

fn holds_zero_or_slash(name: &[u8]) -> bool
    ensures { result ≡ list_any is_zero_or_slash name.now }
{
    name.iter().any(|byte| *byte == 0 || *byte == b'/')
}

/// Whether a name is that of the folder itself or of the one above, or the one under which a file
/// is written.
fn is_taken(name: &str) -> bool
    ensures { result ≡ taken name.now }
{
    name == "." || name == ".." || name == PART_NAME
}
