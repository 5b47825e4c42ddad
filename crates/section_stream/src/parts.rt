ghost use Rattle.std.specs.Prelude.{◌≡◌, ◌++◌, ◌+◌, ◌≤◌, length, take, drop, IfSome};

use crate::piece::{Piece, copy_at};
use carousel_profile::PACKET_LENGTH;
use oc_bytes::MOST_SECTION;
use std::marker::Model;

/// Bytes of a section that lie in three places. Contracts see them as one list.
#[derive(Drop)]
pub struct Parts<'a> {
    front: &'a [u8],
    body: &'a [u8],
    tail: &'a [u8],
}

impl<'a> Model for Parts<'a> {
    ghost use Rattle.std.specs.Prelude.{◌++◌, ◌+◌, ◌≤◌, ℕ, List, length};
    ghost use Rattle.oc_bytes.specs.declared.lengths.TheConstants.{MOST_SECTION};

    ghost Value = { List ℕ };

    ghost view = { λ p. p.front.now ++ (p.body.now ++ p.tail.now) };

    ghost invariant = { λ p.
        length p.front.now + (length p.body.now + length p.tail.now) ≤ MOST_SECTION };
}

impl<'a> Parts<'a> {
    pub fn new(front: &'a [u8], body: &'a [u8], tail: &'a [u8]) -> Parts<'a>
        requires { length (front.now ++ (body.now ++ tail.now)) ≤ MOST_SECTION }
        ensures { result ≡ front.now ++ (body.now ++ tail.now) }
    {
        Parts { front, body, tail }
    }

    pub fn len(&self) -> usize
        ensures { result ≡ length self.now }
    {
        self.front.len() + self.body.len() + self.tail.len()
    }

    /// All bytes, if they fill a payload and the outer places have none.
    pub fn as_payload(&self) -> Option<&'a [u8; 184]>
        ensures { IfSome result (λ p. (p.now ≡ self.now) × (length self.now ≡ 184)) }
    {
        if self.front.is_empty() && self.tail.is_empty() {
            return self.body.as_array();
        }
        None
    }

    /// The first `n` bytes, or all if there are fewer, and those after them.
    pub fn split_at(&self, n: usize) -> (Parts<'a>, Parts<'a>)
        ensures { (result.0 ≡ take n self.now) × (result.1 ≡ drop n self.now) }
    {
        let (front, behind_front) = cut(self.front, n);
        let (body, behind_body) = cut(self.body, n - front.len());
        let (tail, behind_tail) = cut(self.tail, n - front.len() - body.len());
        (
            Parts::new(front, body, tail),
            Parts::new(behind_front, behind_body, behind_tail),
        )
    }

    /// Puts the bytes after those of a piece.
    pub fn append_to(&self, piece: &mut Piece)
        requires { length piece.old + length self.now ≤ PACKET_LENGTH }
        ensures { piece.new ≡ piece.old ++ self.now }
    {
        piece.append(self.front);
        piece.append(self.body);
        piece.append(self.tail);
    }

    /// Writes the bytes from a place on.
    pub fn copy_to(&self, to: &mut [u8], at: usize)
        requires { at + length self.now ≤ length to.old }
        ensures { to.new ≡ take at to.old ++ (self.now ++ drop (at + length self.now) to.old) }
    {
        let body = at + self.front.len();
        copy_at(to, at, self.front);
        copy_at(to, body, self.body);
        copy_at(to, body + self.body.len(), self.tail);
    }
}

/// The same of one place.
fn cut<'a>(bytes: &'a [u8], n: usize) -> (&'a [u8], &'a [u8])
    ensures { (result.0.now ≡ take n bytes.now) × (result.1.now ≡ drop n bytes.now) }
{
    bytes.split_at(n.min(bytes.len()))
}
