//! Whether the edits of a folder can be published.

ghost use Rattle.std.specs.Prelude.{◌≡◌, ℕ, Err, IfOk, IfErr, MatchOption, ⊤};
ghost use Rattle.oc_bytes.specs.Outcome.{cap_at_u64};
ghost use Rattle.generation_catalogue.specs.History.{put_bytes, put_size};
ghost use Rattle.generation_catalogue.specs.Requests.{commit_cause};
ghost use Rattle.publication_plan.specs.Plans.{first_outcome};
ghost use Rattle.publication_plan.specs.Inner.Judging.{IsAccepted};

use generation::{Publishable, checked};
use generation_catalogue::{CommitFault, MOST_PUT_BYTES, Refusal};
use path_tree::{Edit, Tree, apply};
use std::alloc::Global;

/// The tree that these edits make of the one in which nothing stands, where a commit of them on a
/// new carousel is accepted; else the commit's refusal.
pub(crate) fn judge(alloc: Global, edits: &[Edit]) -> Result<Publishable, CommitFault>
    ensures accepted { IfOk result (IsAccepted edits.now) }
    ensures refused { IfErr result (λ f.
        MatchOption (commit_cause f) ⊤ (λ r.
        (carousel : ℕ) → first_outcome carousel edits.now ≡ Err r)) }
{
    let total = put_total(edits);
    if total > MOST_PUT_BYTES {
        return Err(CommitFault::Refused(Refusal::JournalFull(total)));
    }
    let tree = apply(alloc, &Tree::empty(alloc), edits)?;
    Ok(checked(alloc, tree)?)
}

/// The bytes that these edits put, or the greatest `u64`.
fn put_total(edits: &[Edit]) -> u64
    ensures { result ≡ cap_at_u64 (put_bytes edits.now) }
{
    let mut total: u64 = 0;
    for edit in edits {
        total = total.saturating_add(size_put(edit));
    }
    total
}

fn size_put(edit: &Edit) -> u64
    ensures { result ≡ put_size edit.now }
{
    match edit {
        Edit::Put(_, content) => content.bytes().len() as u64,
        Edit::Remove(_) | Edit::MakeFolder(_) | Edit::RemoveFolder(_) => 0,
    }
}
