//! Descriptors (ISO/IEC 13818-1, 2.6) in tables and user info.

ghost use Rattle.std.specs.Prelude.{◌≡◌};
ghost use Rattle.std.specs.Option.{option_map};
ghost use Rattle.oc_bytes.specs.Descriptors as descriptors;

use std::marker::Model;

/// A descriptor, lent.
#[derive(Clone, Copy, Debug)]
pub struct Descriptor<'a> {
    /// descriptor_tag.
    pub tag: u8,
    /// The bytes that its length counts, at most 255.
    pub bytes: &'a [u8],
}

/// The whole descriptors at the front of bytes, which `next` lends in order. It ends at one that
/// runs past the end, or at a single byte. It takes no memory.
#[derive(Debug, Drop)]
pub struct Descriptors<'a> {
    rest: &'a [u8],
}

impl<'a> Model for Descriptors<'a> {
    ghost use Rattle.std.specs.Prelude.{List, ℕ};
    ghost use Rattle.oc_bytes.specs.Descriptors.{descriptors_in};

    ghost Value = { List (ℕ × List ℕ) };

    ghost view = { λ d. descriptors_in d.rest.now };
}

impl<'a> Descriptors<'a> {
    ghost use Rattle.oc_bytes.specs.Descriptors.{descriptors_in};

    /// Begins before the first descriptor of these bytes.
    pub fn new(bytes: &'a [u8]) -> Descriptors<'a>
        ensures { result ≡ descriptors_in bytes.now }
    {
        Descriptors { rest: bytes }
    }
}

impl<'a> Iterator for Descriptors<'a> {
    ghost use Rattle.std.specs.Iterator.{YieldsFirstBy, item_count};

    type Item = Descriptor<'a>;

    ghost next_gives = { YieldsFirstBy (λ d. (d.tag, d.bytes.now)) (λ left. left) };

    ghost remaining = { item_count (λ left. left) };

    fn next(&mut self) -> Option<Descriptor<'a>> {
        let (descriptor, following) = first(self.rest)?;
        self.rest = following;
        Some(descriptor)
    }
}

fn first(bytes: &[u8]) -> Option<(Descriptor<'_>, &[u8])>
    ensures { option_map (λ x. ((x.0.tag, x.0.bytes.now), x.1.now)) result
        ≡ descriptors.next_descriptor bytes.now }
{
    match bytes {
        [tag, size, following @ ..] if usize::from(*size) <= following.len() => {
            let (bytes, following) = following.split_at(usize::from(*size));
            Some((Descriptor { tag: *tag, bytes }, following))
        }
        _ => None,
    }
}
