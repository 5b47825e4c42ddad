ghost use Rattle.std.specs.Prelude.{◌≡◌, ◌≤◌, Some, slice_get, IfOk};
ghost use Rattle.std.specs.Arc.{arc_value};

use crate::book::Law;
use crate::front::Front;
use crate::numbered::Numbered;
use left_right::Absorb;
use logbook::Seen;
use std::alloc::AllocError;
use std::sync::Arc;

/// What is published: the last value that was shown, with the list that it ends. No number of it is
/// above `most`.
#[derive(Drop)]
pub struct Shown<S: Numbered> {
    pub shot: Arc<S>,
    pub front: Front<S>,
    pub most: u64,
    ghost last: { slice_get front.seen.log front.number ≡ Some (arc_value shot) },
    ghost bounded: { front.number ≤ most },
}

impl<S: Numbered> Shown<S> {
    /// A copy, which shares the value.
    pub fn share(&self) -> Result<Shown<S>, AllocError>
        ensures { IfOk result (λ s.
            (arc_value s.shot ≡ arc_value self.now.shot)
            × (s.front.seen ≡ self.now.front.seen)
            × (s.most ≡ self.now.most)) }
    {
        let shot = Arc::try_clone(&self.shot)?;
        Ok(Shown {
            shot,
            front: self.front.again(),
            most: self.most,
        })
    }
}

impl<S: Numbered> Absorb<Shown<S>> for Shown<S> {
    type State = (Seen<S, u64, Law>, u64);

    ghost state = { λ shown. (shown.front.seen, shown.most) };

    ghost applied = { λ state next. (next.front.seen, next.most) };

    fn absorb_first(&mut self, operation: &Shown<S>, _other: &Shown<S>) -> Result<(), AllocError> {
        *self = operation.share()?;
        Ok(())
    }
}
