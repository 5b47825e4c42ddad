ghost use Rattle.std.specs.Prelude.{◌≡◌, IfOk, OnOk};
ghost use Rattle.std.specs.List.{flat_map, list_all};
ghost use Rattle.path_resolver.specs.Shots.{answers_of};
ghost use Rattle.shell_streams.specs.Sending.{Puts, IsFlushed};
ghost use Rattle.shell_words.specs.Texts.{is_found as found};
ghost use Rattle.receiver_commands.specs.Listing.{list_line, list_text, all_listed, more_unless};

use crate::answers::{both, is_found, put_line};
use path_listing::listed_paths;
use path_resolver::{Shot, resolve};
use path_tree::Path;
use shell_streams::{Output, OutputFault};
use std::alloc::Global;

/// Writes a line of each path of [`listed_paths`], and `more` if more than
/// [`path_listing::MOST_LISTED`] follow. Says whether each answer is a file or a folder, and no
/// `more` is written.
pub fn write_list<O: Output>(alloc: Global, shot: &Shot, out: &mut O) -> Result<bool, OutputFault>
    ensures listed { IfOk result (λ all. all ≡ all_listed (answers_of shot.now)) }
    ensures puts { Puts result (O.state out.old) (O.state out.new)
        (list_text (answers_of shot.now)) }
    ensures empty { OnOk result (IsFlushed (O.state out.new)) }
{
    let listing = listed_paths(alloc, shot)?;
    let found = put_paths(alloc, shot, &listing.paths, out)?;
    out.put(last_line(listing.whole))?;
    out.flush()?;
    Ok(both(listing.whole, found))
}

/// Says whether each answer is a file or a folder.
fn put_paths<O: Output>(
    alloc: Global,
    shot: &Shot,
    paths: &[Path],
    out: &mut O,
) -> Result<bool, OutputFault>
    ensures found { IfOk result (λ all.
        all ≡ list_all (λ p. found (answers_of shot.now p)) paths.now) }
    ensures puts { Puts result (O.state out.old) (O.state out.new)
        (flat_map (list_line (answers_of shot.now)) paths.now) }
{
    let mut all = true;
    for path in paths {
        let found = put_path(alloc, shot, path, out)?;
        all = both(all, found);
    }
    Ok(all)
}

fn put_path<O: Output>(
    alloc: Global,
    shot: &Shot,
    path: &Path,
    out: &mut O,
) -> Result<bool, OutputFault>
    ensures found { IfOk result (λ b. b ≡ found (answers_of shot.now path.now)) }
    ensures puts { Puts result (O.state out.old) (O.state out.new)
        (list_line (answers_of shot.now) path.now) }
{
    let answer = resolve(shot, path)?;
    put_line(alloc, path, &answer, out)?;
    Ok(is_found(&answer))
}

fn last_line(whole: bool) -> &'static [u8]
    ensures { result.now ≡ more_unless whole }
{
    if whole { b"" } else { b"more\n" }
}
