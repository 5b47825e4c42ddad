ghost use Rattle.std.specs.Prelude.{◌≡◌, ◌<◌, ◌++◌, ◌∷◌, [], length, map, IfOk, IfSome};
ghost use Rattle.biop_object.specs.Inner.Labels.{first_at};

use oc_bytes::NoMemory;
use std::alloc::Global;
use std::collections::BTreeMap;
use std::marker::Model;

/// What has a label of 0 to 255 bytes.
pub(crate) trait HasLabel {
    ghost use Rattle.std.specs.Prelude.{List, ℕ};

    ghost label: { Self → List ℕ };

    fn label(&self) -> &[u8]
        ensures { result.now ≡ label self.now };
}

/// A list in which the first element of a label is found by halves.
#[derive(Drop)]
pub(crate) struct Labelled<T: HasLabel> {
    items: Vec<T>,
    /// The place of the first element of each label.
    firsts: BTreeMap<Vec<u8>, usize>,
}

impl<T: HasLabel> Model for Labelled<T> {
    ghost use Rattle.std.specs.Prelude.{List, map};

    ghost Value = { List T };

    ghost use Rattle.biop_object.specs.Inner.Labels.{IsFirsts};

    ghost view = { λ l. l.items.items };

    ghost invariant = { λ l. IsFirsts (map T.label l.items.items) l.firsts };
}

impl<T: HasLabel> Labelled<T> {
    /// The empty list, without memory.
    pub(crate) fn new(alloc: Global) -> Labelled<T>
        ensures { result ≡ [] }
    {
        Labelled {
            items: Vec::new(alloc),
            firsts: BTreeMap::new(alloc),
        }
    }

    /// The list with one more element at its end.
    pub(crate) fn with(self, alloc: Global, item: T) -> Result<Labelled<T>, NoMemory>
    where
        T: Drop,
        ensures { IfOk result (λ l. l ≡ self ++ item ∷ []) }
    {
        let mut items = self.items;
        let mut firsts = self.firsts;
        if !firsts.contains_key(item.label()) {
            let label = Vec::from_slice(alloc, item.label())?;
            firsts.insert(label, items.len())?;
        }
        items.push(item)?;
        Ok(Labelled { items, firsts })
    }

    pub(crate) fn items(&self) -> &[T]
        ensures { result.now ≡ self.now }
    {
        &self.items
    }

    pub(crate) fn first(&self, label: &[u8]) -> Option<usize>
        ensures first { result ≡ first_at label.now (map T.label self.now) }
        ensures inside { IfSome result (λ place. place < length self.now) }
    {
        self.firsts.get(label).copied()
    }
}
