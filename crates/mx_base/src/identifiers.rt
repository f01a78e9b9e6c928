//! Identifiers: short texts over a fixed alphabet. They are kept in fixed arrays, so they are copied and
//! never allocated, and they are equal and ordered as their texts are, byte by byte.
//!
//! A marker keeps the identifiers of different things apart, so that a serial number can't be handed in for a part.
//! `Graphic` says the printable characters once, and its label makes a type for each thing: labels are types of their
//! own, since a marker that is a number or a text is not to be had as a parameter of an alias with a name. A
//! small-string type of a library was not taken: its spare bytes show in equality, and then two equal texts are not one
//! value to a proof.
ghost use Rattle.std.specs.Prelude.{◌≡◌, ℕ, ◌+◌, ◌-◌, ◌<◌, ◌≤◌, ◌↔◌, Bool, List, [], ◌∷◌, ◌++◌, length, take, replicate, IsTrue, IsOk, IfOk, Some, nat_eq, refl};
ghost use Rattle.std.specs.List.{list_all};
ghost use Rattle.std.specs.Ordering.{nat_cmp};
ghost use Rattle.std.specs.Cmp.Lexicographic.{pointwise, slice_cmp, nat_list_eq_equiv, nat_list_cmp_total, texts_po, texts_ties};
ghost use Rattle.std.specs.Cmp.{partial_equiv_from_equiv};
ghost use Rattle.mx_base.specs.Identifier.{IsIdentifier, is_graphic, is_tail_character};

use std::alloc::AllocError;
use std::cmp::Ordering;
use std::marker::{Model, PhantomData};
use std::{fmt, str};
use thiserror::Error;

/// The text is none of those that the reader takes.
#[derive(Clone, Copy, Debug, PartialEq, Eq, Error)]
#[error("bad text")]
pub struct BadText;

/// The characters that an identifier is made of.
pub trait Alphabet: Copy {
    ghost allows: { ℕ → Bool };

    fn allows(byte: u8) -> bool
        ensures { result ≡ allows byte };
}

/// The characters of a registration: `A` to `Z`, `0` to `9` and `-`.
#[derive(Clone, Copy)]
pub struct TailCharacters;

impl Alphabet for TailCharacters {
    ghost allows = { is_tail_character };

    fn allows(byte: u8) -> bool {
        byte.is_ascii_uppercase() || byte.is_ascii_digit() || byte == b'-'
    }
}

/// The printable ASCII characters other than space, `!` to `~`. The label keeps the identifiers of
/// different things apart.
#[derive(Clone, Copy)]
pub struct Graphic<Label> {
    label: PhantomData<Label>,
}

impl<Label: Copy> Alphabet for Graphic<Label> {
    ghost allows = { is_graphic };

    fn allows(byte: u8) -> bool {
        byte.is_ascii_graphic()
    }
}

/// The labels that keep the identifiers of different things apart.
pub mod labels {
    #[derive(Clone, Copy)]
    pub struct OfKind;

    #[derive(Clone, Copy)]
    pub struct OfSerial;

    #[derive(Clone, Copy)]
    pub struct OfPart;

    #[derive(Clone, Copy)]
    pub struct OfPosition;

    #[derive(Clone, Copy)]
    pub struct OfTask;

    #[derive(Clone, Copy)]
    pub struct OfMelItem;

    #[derive(Clone, Copy)]
    pub struct OfDocument;
}

/// The registration of an aircraft, as `D-ABCD`: 1 to 8 of `A` to `Z`, `0` to `9` and `-`.
pub type Tail = Identifier<TailCharacters, 8>;

/// A kind of aircraft, which one maintenance programme serves: 1 to 16 printable characters.
pub type Kind = Identifier<Graphic<labels::OfKind>, 16>;

/// The serial number of a component, unique in the office: 1 to 16 printable characters.
pub type Serial = Identifier<Graphic<labels::OfSerial>, 16>;

/// The part number of a component: 1 to 16 printable characters.
pub type Part = Identifier<Graphic<labels::OfPart>, 16>;

/// A position of an aircraft that a component is fitted to: 1 to 16 printable characters.
pub type Position = Identifier<Graphic<labels::OfPosition>, 16>;

/// A task of a maintenance programme, the same work in every programme: 1 to 16 printable characters.
pub type TaskId = Identifier<Graphic<labels::OfTask>, 16>;

/// An item of the minimum equipment list, as `21-31-01`: 1 to 16 printable characters.
pub type MelRef = Identifier<Graphic<labels::OfMelItem>, 16>;

/// The document that an entry is made by: 1 to 40 printable characters.
pub type Doc = Identifier<Graphic<labels::OfDocument>, 40>;

/// A text of 1 to `N` characters of the alphabet. Contracts see it as the list of its bytes.
#[derive(Copy)]
pub struct Identifier<A: Alphabet, const N: usize> {
    bytes: [u8; N],
    len: usize,
    alphabet: PhantomData<A>,
}

impl<A: Alphabet, const N: usize> Model for Identifier<A, N> {
    ghost use Rattle.std.specs.Prelude.{List, ℕ, ◌-◌, ◌++◌, length, take, replicate};
    ghost use Rattle.mx_base.specs.Identifier.{IsKept, kept_bytes, kept_len};

    ghost Value = { List ℕ };

    ghost view = { λ a. take a.len a.bytes };

    ghost invariant = { λ a. IsKept A.allows N a.len a.bytes };

    ghost inverse = { λ xs. record { bytes = xs ++ replicate (N - length xs) 0; len = length xs; alphabet = record {} } };

    ghost inverse_ok = { λ a h i. record { bytes = kept_bytes _ _ _ _ h i; len = kept_len _ _ _ _ h i; alphabet = record {} } };
}

impl<A: Alphabet, const N: usize> Identifier<A, N> {
    /// The identifier that this text is. `BadText` where it is empty, longer than `N` bytes or has a
    /// character outside the alphabet.
    pub fn read(text: &str) -> Result<Self, BadText>
        ensures succeeds { IsOk result ↔ IsIdentifier A.allows N text.now }
        ensures value { IfOk result (λ identifier. identifier ≡ text.now) }
    {
        let source = text.as_bytes();
        if !is_identifier::<A>(source, N) {
            return Err(BadText);
        }
        Ok(Identifier {
            bytes: padded(source),
            len: source.len(),
            alphabet: PhantomData,
        })
    }

    /// The text that was read.
    pub fn as_str(&self) -> &str
        ensures value { result.now ≡ self.now }
        ensures valid { IsIdentifier A.allows N self.now }
    {
        str::from_utf8(&self.bytes[..self.len]).unwrap()
    }

    // The bytes of the text: what comparisons read, which need not see again that they are text.
    fn as_bytes(&self) -> &[u8]
        ensures { result.now ≡ self.now }
    {
        &self.bytes[..self.len]
    }
}

// Whether these bytes are an identifier of at most `most` characters.
fn is_identifier<A: Alphabet>(source: &[u8], most: usize) -> bool
    ensures { IsTrue result ↔ IsIdentifier A.allows most source.now }
{
    !source.is_empty() && source.len() <= most && are_allowed::<A>(source)
}

fn are_allowed<A: Alphabet>(source: &[u8]) -> bool
    ensures { result ≡ list_all A.allows source.now }
{
    source.iter().all(|byte| A::allows(*byte))
}

// The bytes, with zeros behind them.
fn padded<const N: usize>(source: &[u8]) -> [u8; N]
    requires { length source.now ≤ N }
    ensures { result ≡ source.now ++ replicate (N - length source.now) 0 }
{
    let mut bytes = [0; N];
    bytes[..source.len()].copy_from_slice(source);
    bytes
}

impl<A: Alphabet, const N: usize> Clone for Identifier<A, N> {
    fn clone(&self) -> Result<Self, AllocError> {
        Ok(*self)
    }
}

impl<A: Alphabet, const N: usize> PartialEq for Identifier<A, N> {
    ghost eq = { pointwise nat_eq };

    ghost laws = { partial_equiv_from_equiv nat_list_eq_equiv };

    fn eq(&self, other: &Self) -> bool {
        self.as_bytes() == other.as_bytes()
    }
}

impl<A: Alphabet, const N: usize> Eq for Identifier<A, N> {
    ghost laws = { nat_list_eq_equiv };
}

impl<A: Alphabet, const N: usize> PartialOrd for Identifier<A, N> {
    ghost partial_cmp = { λ s t. Some (slice_cmp nat_cmp s t) };

    ghost laws = { texts_po };

    fn partial_cmp(&self, other: &Self) -> Option<Ordering> {
        Some(self.cmp(other))
    }
}

impl<A: Alphabet, const N: usize> Ord for Identifier<A, N> {
    ghost cmp = { slice_cmp nat_cmp };

    ghost total = { nat_list_cmp_total };

    ghost matches_partial_cmp = { λ s t. refl };

    ghost matches_eq = { texts_ties };

    fn cmp(&self, other: &Self) -> Ordering {
        self.as_bytes().cmp(other.as_bytes())
    }
}

impl<A: Alphabet, const N: usize> fmt::Debug for Identifier<A, N> {
    fn fmt<W: fmt::Write>(&self, f: &mut fmt::Formatter<W>) -> fmt::Result {
        fmt::Debug::fmt(&self.as_str(), f)
    }
}

impl<A: Alphabet, const N: usize> fmt::Display for Identifier<A, N> {
    ghost output = { λ s. Some s };

    fn fmt<W: fmt::Write>(&self, f: &mut fmt::Formatter<W>) -> fmt::Result {
        f.pad(self.as_str())
    }
}
