ghost use Rattle.std.specs.Prelude.{◌≡◌, map};
ghost use Rattle.std.specs.Arc.{arc_value};
ghost use Rattle.path_resolver.specs.Shots.{held_of};
ghost use Rattle.tuner_core.specs.Heard.{as_heard};
ghost use Rattle.tuner_core.specs.LookBack.{held_after};
ghost use Rattle.shell_streams.specs.Carriers.{Hears, sections_by};

use oc_bytes::{NoMemory, Source};
use path_resolver::Shot;
use shell_streams::{Carrier, InputFault, Listener, hear_all};
use std::alloc::Global;
use std::sync::Arc;
use tuner_core::Tuner;

/// The receiver as a listener.
#[derive(Drop)]
pub struct Receiver {
    pub tuner: Tuner,
}

impl Listener for Receiver {
    ghost use Rattle.tuner_core.specs.Stands.{StandsFor};

    ghost heard = { λ start now sections. StandsFor now.tuner sections };

    fn hear(&mut self, section: &[u8]) -> Result<(), NoMemory> {
        self.tuner.feed(section)?;
        Ok(())
    }
}

/// What a receiver holds that heard the whole source.
pub fn receive<S: Source>(
    alloc: Global,
    carrier: Carrier,
    source: &mut S,
) -> Result<Arc<Shot>, InputFault>
    ensures { Hears (sections_by carrier)
        (λ shot sections. held_of (arc_value shot) ≡ held_after (map as_heard sections)) result
        (S.left source.old) (S.left source.new) (S.faults source.old) (S.faults source.new) }
{
    let mut receiver = Receiver {
        tuner: Tuner::new(alloc),
    };
    hear_all(alloc, carrier, source, &mut receiver)?;
    Ok(receiver.tuner.shot(0, 0)?)
}
