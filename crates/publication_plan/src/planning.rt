ghost use Rattle.std.specs.Prelude.{◌≡◌, ◌≤◌, ◌∷◌, [], Ok, IfOk, OnOk, map};
ghost use Rattle.std.specs.String.{string_bytes};
ghost use Rattle.oc_bytes.specs.Outcome.{Faulted, Spells};
ghost use Rattle.generation.specs.Layouts.{generation_of};
ghost use Rattle.folder_store.specs.Surveys.{view_standing};
ghost use Rattle.shell_streams.specs.Sending.{IsInTime, Puts, IsFlushed};
ghost use Rattle.publication_plan.specs.Inner.Judging.{IsAccepted, RefusalTells, FaultTells};
ghost use Rattle.publication_plan.specs.Plans.{IsTextOf, NeedsFolder, Plans};
ghost use Rattle.publication_plan.specs.Telling.{plan_text};

use crate::judging::judge;
use crate::lines::plan_lines;
use crate::refusing::{
    MOST_NAME, cause_of, limit_in, refused_text, rule_text, size_of, unread_text,
};
use carousel_world::publications_can_be_packed;
use cycle_planner::Weigh;
use folder_store::{FolderFault, Folders, ReadTree, SurveyFault, Surveyed, place_text, survey};
use generation::{Generation, Publishable, generations_are_of_the_lists};
use generation_catalogue::{CommitFault, Refusal};
use oc_bytes::NoMemory;
use path_tree::MOST_NAMES;
use shell_streams::{Output, OutputFault};
use std::alloc::{AllocError, Global};

/// How a plan ended, once all of its text was written.
#[derive(Clone, Copy, Debug, PartialEq, Eq)]
pub enum PlanEnd {
    /// The folder can be published: its plan was written.
    Published,
    /// The folder can't be published: one line says why.
    Refused,
    /// A file or a folder couldn't be read, or the folder isn't there: one line says which.
    Unreadable,
}

/// A text, and how the plan ends with it.
#[derive(Drop)]
struct Told {
    end: PlanEnd,
    text: String,
}

/// Writes what publishing a folder would send: what is read, and how, is what `publish` reads.
///
/// Where the folder can be published these are the lines, of generation 1 of the carousel: `folder
/// PATH COUNT module M` and `file PATH LENGTH module M` for each object in the order of paths, the
/// root first, with the number of a folder's names or a file's length in bytes and with the module
/// that it lies in, and in that order `left PATH` for each link and each entry of another kind,
/// which is passed over; ` hidden` stands behind each of these lines where a name on the path
/// begins with a dot. Then `module M size S blocks B weight W` by rising id, with its bytes, its
/// blocks and how often it is sent in a cycle, and `cycle sections N packets P bytes Q
/// milliseconds T`: a cycle's sections, the packets that it takes where it is sent alone, their
/// bytes, and how long these take at `bitrate` bits a second, rounded up.
///
/// Where the folder can't be published the one line is `refused CAUSE` with the path, the size and
/// the limit where there are any, and where a file or a folder can't be read it is `unreadable
/// PATH` with the path of that file or folder, `/` for `folder` itself. The size of a file that is
/// too large is counted up to [`MOST_SIZED`](crate::MOST_SIZED).
///
/// `folder` is a path text of the folders, `carousel` the carousel's id, any 32-bit number,
/// `bitrate` is at least 1, and `weigh` says how often each module is sent in a cycle. Nothing may
/// be pending in the output when it is called. After a fault of the output, or out of memory,
/// nothing or a front of one of these texts was written. These rules and texts are this project's
/// own.
pub fn plan<O: Output, F: Folders>(
    alloc: Global,
    folder: &str,
    carousel: u32,
    bitrate: u32,
    weigh: &Weigh,
    out: &mut O,
    folders: &mut F,
) -> Result<PlanEnd, OutputFault>
    requires rate { 1 ≤ bitrate }
    ensures plans { Plans folder.now weigh.now.weights carousel bitrate result (O.state out.old)
        (O.state out.new) (F.tree folders.old) (Faulted F.faults folders.old folders.new)
        (F.refused folders.new) }
    ensures name { (O.state out.new).name ≡ (O.state out.old).name }
    ensures in_time { IsInTime (O.state out.old) (O.state out.new) }
    ensures same { F.tree folders.new ≡ F.tree folders.old }
    ensures later { F.faults folders.old ≤ F.faults folders.new }
{
    let told = tell(alloc, folder, carousel, bitrate, weigh, folders)?;
    write(&told.text, out)?;
    Ok(told.end)
}

/// Writes a text.
fn write<O: Output>(text: &str, out: &mut O) -> Result<(), OutputFault>
    ensures puts { Puts result (O.state out.old) (O.state out.new) text.now }
    ensures empty { OnOk result (IsFlushed (O.state out.new)) }
{
    out.put(text.as_bytes())?;
    out.flush()
}

/// The text of a plan.
fn tell<F: Folders>(
    alloc: Global,
    folder: &str,
    carousel: u32,
    bitrate: u32,
    weigh: &Weigh,
    folders: &mut F,
) -> Result<Told, NoMemory>
    requires rate { 1 ≤ bitrate }
    ensures text { IfOk result (λ r.
        IsTextOf folder.now weigh.now.weights carousel bitrate (F.tree folders.old)
        (Faulted F.faults folders.old folders.new) (F.refused folders.new) r.end
        (string_bytes r.text)) }
    ensures needs { IfOk result (λ r. NeedsFolder folder.now (F.tree folders.old) (Ok r.end)) }
    ensures same { F.tree folders.new ≡ F.tree folders.old }
    ensures later { F.faults folders.old ≤ F.faults folders.new }
{
    let survey = match survey(alloc, folders, folder) {
        Ok(survey) => survey,
        Err(fault) => return tell_fault(alloc, &fault),
    };
    match judge(alloc, &survey.edits) {
        Ok(tree) => Ok(Told {
            end: PlanEnd::Published,
            text: tell_tree(alloc, carousel, bitrate, weigh, tree, &survey)?,
        }),
        Err(CommitFault::Refused(refusal)) => tell_refusal(alloc, folders, &survey, &refusal),
        Err(CommitFault::NoMemory) => Err(AllocError),
    }
}

/// The plan of generation 1 of the carousel, of a tree that can be published.
fn tell_tree(
    alloc: Global,
    carousel: u32,
    bitrate: u32,
    weigh: &Weigh,
    tree: Publishable,
    survey: &Surveyed,
) -> Result<String, NoMemory>
    requires rate { 1 ≤ bitrate }
    requires accepted { IsAccepted survey.now.edits.items tree }
    ensures { Spells result
        (plan_text weigh.now.weights bitrate (generation_of carousel (tree ∷ []))
        (map view_standing survey.now.left.items)) }
{
    generations_are_of_the_lists();
    publications_can_be_packed();
    let first = Generation::first(alloc, carousel)?;
    let generation = first.next_after(tree, &survey.edits)?;
    plan_lines(alloc, &generation, &survey.left, weigh, bitrate)
}

/// The line of what the walk refuses or can't read.
fn tell_fault(alloc: Global, fault: &SurveyFault) -> Result<Told, NoMemory>
    ensures { IfOk result (λ r. FaultTells fault.now r.end (string_bytes r.text)) }
{
    let path = place_text(alloc, &fault.at)?;
    let path = path.as_str();
    match fault.cause {
        ReadTree::FolderFault => Ok(Told {
            end: PlanEnd::Unreadable,
            text: format!(in alloc; "unreadable {path}\n")?,
        }),
        ReadTree::TooDeep => Ok(Told {
            end: PlanEnd::Refused,
            text: rule_text(alloc, "too-deep", path, MOST_NAMES as u64)?,
        }),
        ReadTree::BadName => Ok(Told {
            end: PlanEnd::Refused,
            text: rule_text(alloc, "bad-name", path, MOST_NAME)?,
        }),
        ReadTree::NoMemory => Err(AllocError),
    }
}

/// The line of a commit's refusal, or of the file whose size couldn't be read.
fn tell_refusal<F: Folders>(
    alloc: Global,
    folders: &mut F,
    survey: &Surveyed,
    refusal: &Refusal,
) -> Result<Told, NoMemory>
    ensures text { IfOk result (λ r.
        RefusalTells (F.tree folders.old) (Faulted F.faults folders.old folders.new)
        (F.refused folders.new) survey.now refusal.now r.end (string_bytes r.text)) }
    ensures same { F.tree folders.new ≡ F.tree folders.old }
    ensures later { F.faults folders.old ≤ F.faults folders.new }
{
    match size_of(alloc, folders, survey, refusal) {
        Ok(size) => {
            let cause = cause_of(alloc, &survey.edits, refusal)?;
            Ok(Told {
                end: PlanEnd::Refused,
                text: refused_text(alloc, &cause, size, limit_in(refusal))?,
            })
        }
        Err(FolderFault::Failed) => Ok(Told {
            end: PlanEnd::Unreadable,
            text: unread_text(alloc, &survey.edits, refusal)?,
        }),
        Err(FolderFault::NoMemory) => Err(AllocError),
    }
}
