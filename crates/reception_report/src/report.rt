//! The report on a reception.

ghost use Rattle.std.specs.Prelude.{◌≡◌, ◌==◌, ℕ, List, option_map, OnOk};
ghost use Rattle.std.specs.List.{filter, flat_map};
ghost use Rattle.std.specs.String.{string_bytes};
ghost use Rattle.path_tree.specs.Paths.{Bytes};
ghost use Rattle.path_resolver.specs.Shots as shots;
ghost use Rattle.path_resolver.specs.Shots.{held_of, view_gateway};
ghost use Rattle.shell_streams.specs.Sending.{Puts, IsFlushed};
ghost use Rattle.tuner_core.specs.Turns.{snapshot_after};
ghost use Rattle.reception_report.specs.Hearing.{Follows, IsReception};
ghost use Rattle.reception_report.specs.Listing.{listed_text, more_unless};
ghost use Rattle.reception_report.specs.Report.{held_text, report_text, sections_text};
ghost use Rattle.reception_report.specs.Telling as telling;
ghost use Rattle.reception_report.specs.Inner.Telling as inner;
ghost use Rattle.reception_report.specs.Telling.{lines_of};

use crate::following::Follower;
use crate::lines::{candidates_line, counts_line, dii_line, gateway_line, label_line, path_line};
use crate::module_lines::module_line;
use crate::reception::Reception;
use module_cache::{Line, Tuned};
use path_listing::listed_paths;
use path_resolver::{Gateway, Shot};
use path_tree::Path;
use shell_streams::{Output, OutputFault};
use std::alloc::Global;

/// Writes what a receiver holds and passed over: a line of counts, one of what became of the
/// candidates, the gateway, each held DII in the order in which they were heard, the label, the
/// modules that they list by rising id, and each path from the root on with the module in which
/// its object lies or from which it is to come. Of the paths at most
/// [`MOST_LISTED`](path_listing::MOST_LISTED) lines are written, and then `more` where there are
/// others.
pub fn write_report<O: Output>(
    alloc: Global,
    reception: &Reception,
    out: &mut O,
) -> Result<(), OutputFault>
    ensures puts { (pid : ℕ) (packets : List Bytes)
        → IsReception pid reception.now packets
        → Puts result (O.state out.old) (O.state out.new)
        (report_text pid packets reception.now.counts.short_tail) }
    ensures empty { OnOk result (IsFlushed (O.state out.new)) }
{
    let line = counts_line(alloc, &reception.counts)?;
    put(line, out)?;
    put_sections(alloc, &reception.follower, out)?;
    out.flush()
}

/// Puts a line.
fn put<O: Output>(line: String, out: &mut O) -> Result<(), OutputFault>
    ensures { Puts result (O.state out.old) (O.state out.new) (string_bytes line) }
{
    out.put(line.as_bytes())
}

/// Puts what became of the candidates, and what is held.
fn put_sections<O: Output>(
    alloc: Global,
    follower: &Follower,
    out: &mut O,
) -> Result<(), OutputFault>
    ensures { (sections : List Bytes)
        → Follows follower.now sections
        → Puts result (O.state out.old) (O.state out.new) (sections_text sections) }
{
    let shot = follower.tuner.shot(0, 0)?;
    put_shot(alloc, &shot, follower, out)
}

/// The same, where this is the shot of what is held.
fn put_shot<O: Output>(
    alloc: Global,
    shot: &Shot,
    follower: &Follower,
    out: &mut O,
) -> Result<(), OutputFault>
    ensures { (sections : List Bytes)
        → Follows follower.now sections
        → shots.view shot.now ≡ snapshot_after 0 0 sections
        → Puts result (O.state out.old) (O.state out.new) (sections_text sections) }
{
    let line = candidates_line(alloc, shot.mark, &follower.tally)?;
    put(line, out)?;
    put_held(alloc, shot, follower.tuner.held(), out)
}

/// Puts what is held, and the answers on it.
fn put_held<O: Output>(
    alloc: Global,
    shot: &Shot,
    held: &[Tuned],
    out: &mut O,
) -> Result<(), OutputFault>
    ensures { Puts result (O.state out.old) (O.state out.new)
        (held_text held.now (shots.view shot.now)) }
{
    put_gateway(alloc, &shot.gateway, out)?;
    put_diis(alloc, held, out)?;
    put_label(alloc, shot.label, shot.epoch, out)?;
    put_modules(alloc, held, out)?;
    put_paths(alloc, shot, out)
}

fn put_gateway<O: Output>(
    alloc: Global,
    gateway: &Option<Gateway>,
    out: &mut O,
) -> Result<(), OutputFault>
    ensures { Puts result (O.state out.old) (O.state out.new)
        (telling.gateway_line (option_map view_gateway gateway.now)) }
{
    let line = gateway_line(alloc, gateway)?;
    put(line, out)
}

fn put_label<O: Output>(
    alloc: Global,
    label: Option<u64>,
    epoch: u64,
    out: &mut O,
) -> Result<(), OutputFault>
    ensures { Puts result (O.state out.old) (O.state out.new) (telling.label_line label epoch) }
{
    let line = label_line(alloc, label, epoch)?;
    put(line, out)
}

/// Puts the held DIIs.
fn put_diis<O: Output>(alloc: Global, held: &[Tuned], out: &mut O) -> Result<(), OutputFault>
    ensures { Puts result (O.state out.old) (O.state out.new) (telling.diis_text held.now) }
{
    if held.is_empty() {
        return out.put(b"dii none\n");
    }
    put_each_dii(alloc, held, out)
}

fn put_each_dii<O: Output>(alloc: Global, held: &[Tuned], out: &mut O) -> Result<(), OutputFault>
    ensures { Puts result (O.state out.old) (O.state out.new) (flat_map telling.dii_line held.now) }
{
    for tuned in held {
        put_dii(alloc, tuned, out)?;
    }
    Ok(())
}

fn put_dii<O: Output>(alloc: Global, tuned: &Tuned, out: &mut O) -> Result<(), OutputFault>
    ensures { Puts result (O.state out.old) (O.state out.new) (telling.dii_line tuned.now) }
{
    let line = dii_line(alloc, tuned)?;
    put(line, out)
}

/// Puts the modules that these DIIs list, by rising id.
fn put_modules<O: Output>(alloc: Global, held: &[Tuned], out: &mut O) -> Result<(), OutputFault>
    ensures { Puts result (O.state out.old) (O.state out.new) (telling.modules_text held.now) }
{
    for id in 0..65_536u32 {
        put_modules_of(alloc, id as u16, held, out)?;
    }
    Ok(())
}

/// Puts the modules of this id that these DIIs list.
fn put_modules_of<O: Output>(
    alloc: Global,
    id: u16,
    held: &[Tuned],
    out: &mut O,
) -> Result<(), OutputFault>
    ensures { Puts result (O.state out.old) (O.state out.new)
        (flat_map telling.module_line (filter (λ x. x.line.id == id) (lines_of held.now))) }
{
    for tuned in held {
        put_lines(alloc, id, tuned.lines(), out)?;
    }
    Ok(())
}

/// Puts those of the lines that are of this id.
fn put_lines<O: Output>(
    alloc: Global,
    id: u16,
    lines: &[Line],
    out: &mut O,
) -> Result<(), OutputFault>
    ensures { Puts result (O.state out.old) (O.state out.new)
        (flat_map telling.module_line (filter (λ x. x.line.id == id) lines.now)) }
{
    for line in lines {
        put_module(alloc, id, line, out)?;
    }
    Ok(())
}

/// Puts a module's line, where it is of this id.
fn put_module<O: Output>(
    alloc: Global,
    id: u16,
    line: &Line,
    out: &mut O,
) -> Result<(), OutputFault>
    ensures { Puts result (O.state out.old) (O.state out.new) (inner.module_if id line.now) }
{
    if line.line.id != id {
        return Ok(());
    }
    let text = module_line(alloc, line)?;
    put(text, out)
}

/// Puts the line of each path, and `more` where there are others.
fn put_paths<O: Output>(alloc: Global, shot: &Shot, out: &mut O) -> Result<(), OutputFault>
    ensures { Puts result (O.state out.old) (O.state out.new) (listed_text (held_of shot.now)) }
{
    let listing = listed_paths(alloc, shot)?;
    put_each(alloc, shot, &listing.paths, out)?;
    out.put(last_line(listing.whole))
}

fn put_each<O: Output>(
    alloc: Global,
    shot: &Shot,
    paths: &[Path],
    out: &mut O,
) -> Result<(), OutputFault>
    ensures { Puts result (O.state out.old) (O.state out.new)
        (flat_map (telling.path_line (held_of shot.now)) paths.now) }
{
    for path in paths {
        put_path(alloc, shot, path, out)?;
    }
    Ok(())
}

fn put_path<O: Output>(
    alloc: Global,
    shot: &Shot,
    path: &Path,
    out: &mut O,
) -> Result<(), OutputFault>
    ensures { Puts result (O.state out.old) (O.state out.new)
        (telling.path_line (held_of shot.now) path.now) }
{
    let line = path_line(alloc, shot, path)?;
    put(line, out)
}

/// The line after those of the paths: `more` where there are others.
fn last_line(whole: bool) -> &'static [u8]
    ensures { result.now ≡ more_unless whole }
{
    if whole { b"" } else { b"more\n" }
}
