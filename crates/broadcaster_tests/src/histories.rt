ghost use Rattle.std.specs.Prelude.{◌≡◌, IfOk};
ghost use Rattle.std.specs.Arc.{arc_value};
ghost use Rattle.history_merge.specs.Merged.{NeverFall};

use carousel_world::{Event, Fate, Reply};
use dsi_dii::ModuleLine;
use generation_catalogue::Entry;
use history_merge::merge;
use ior_tap::{Key, Location};
use open_history::ReaderPass;
use path_resolver::{Answer, Gateway, Held, Shot};
use path_tree::{Edits, Path};
use shot_board::{Viewer, board};
use std::alloc::{AllocError, Global};
use std::sync::{Arc, Wait};
use std::test::Fail;

/// What is held in generation 1 after so many draws: a DSI, and a DII with module 1, of which no block has come.
fn shot_of(alloc: Global, draws: u64) -> Result<Arc<Shot>, AllocError>
    ensures { IfOk result (λ shot. (arc_value shot).number ≡ 0) }
{
    let location = Location {
        carousel: 1,
        module: 1,
        key: Key::new(vec![in alloc; 0, 0, 0, 1]?),
    };
    let mut table = Vec::new(alloc);
    table.push(Held {
        identification: 1,
        line: ModuleLine {
            id: 1,
            size: 0,
            version: 0,
            compressed: false,
        },
        module: None,
    })?;
    let shot = Shot {
        number: 0,
        draws,
        mark: 0,
        epoch: 0,
        label: Some(1),
        held: vec![in alloc; 1]?,
        gateway: Some(Gateway {
            location,
            delivery: None,
        }),
        table,
    };
    Ok(Arc::new(alloc, shot)?)
}

/// The pass of reader 2, who has opened `/x` on a shot that had heard one draw or none.
fn opened(alloc: Global, viewer: Option<Viewer<Shot>>) -> Result<ReaderPass, Fail>
    ensures reader { IfOk result (λ pass. pass.reader ≡ 2) }
    ensures opens { IfOk result (λ pass. NeverFall 0 1 pass.opens) }
{
    let Some(viewer) = viewer else {
        return Err(Fail::from("no viewer"));
    };
    let path = Path::parse(alloc, b"/x")?;
    let Ok(mut pass) = ReaderPass::new(alloc, 2, viewer, 1) else {
        return Err(Fail::from("no memory for a pass"));
    };
    let Ok(place) = pass.open_path(path) else {
        return Err(Fail::from("no memory for an open"));
    };
    if pass.opens()[place].draws > 1 {
        return Err(Fail::from("an open on another shot"));
    }
    Ok(pass)
}

/// The history of a commit by editor 7, a draw whose packet is lost, and the reader's open.
fn history_of(alloc: Global, pass: ReaderPass) -> Result<Vec<(Event, Reply)>, AllocError>
    requires reader { pass.reader ≡ 2 }
    requires opens { NeverFall 0 1 pass.opens }
{
    let commit = Entry::Commit {
        editor: 0,
        edits: Edits::new(Vec::new(alloc)),
        outcome: Ok(1),
    };
    let draw = Entry::Draw {
        asked: 5,
        generation: 1,
        first: 0,
        count: 3,
    };
    let fates = vec![in alloc; Fate::Lose]?;
    merge(alloc, &[commit, draw], &[fates], &[7], &[pass])
}

/// An event and its reply.
fn text_of(alloc: Global, told: &(Event, Reply)) -> Result<String, AllocError> {
    match told {
        (Event::Commit { editor, .. }, Reply::Committed(number)) => {
            format!(in alloc; "[commit by {editor}: generation {number}]")
        }
        (
            Event::Draw { asked, .. },
            Reply::Drawn {
                generation,
                first,
                count,
            },
        ) => format!(in alloc;
            "[draw of {asked}: {count} items of generation {generation} from {first}]"
        ),
        (
            Event::Open { reader, path },
            Reply::Opened {
                label: Some(label),
                answer: Answer::NotYet(module),
            },
        ) => format!(in alloc;
            "[open by {reader} of {path}: in generation {label}: not yet, for module {module}]"
        ),
        _ => format!(in alloc; "[another reply]"),
    }
}

/// What is told where the reader's shot had heard so many draws, one event after the other.
fn told<R: Wait>(rt: &R, alloc: Global, draws: u64) -> Result<String, Fail> {
    let (shower, mut viewers) = board(rt, alloc, shot_of(alloc, draws)?, 1, 0)?;
    let pass = opened(alloc, viewers.pop());
    shower.close(rt);
    let mut texts = String::new(alloc);
    for told in &history_of(alloc, pass?)? {
        let text = text_of(alloc, told)?;
        texts.push_str(text.as_str())?;
    }
    Ok(texts)
}

#[test]
fn an_open_stands_after_the_draws_that_its_shot_had_heard(rt: HostRuntime) -> Result<(), Fail> {
    let alloc = rt.alloc();
    let after = told(&rt, alloc, 1)?;
    let before = told(&rt, alloc, 0)?;
    assert_eq!(rt;
        after.as_str(),
        "[commit by 7: generation 1][draw of 5: 3 items of generation 1 from 0][open by 2 of /x: in generation 1: not yet, for module 1]"
    );
    assert_eq!(rt;
        before.as_str(),
        "[open by 2 of /x: in generation 1: not yet, for module 1][commit by 7: generation 1][draw of 5: 3 items of generation 1 from 0]"
    );
    Ok(())
}
