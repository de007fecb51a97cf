//! A list of texts.

ghost use Rattle.std.specs.Prelude.{◌≡◌, ◌≢◌, ◌↔◌, ◌+◌, ◌<◌, ℕ, [], Contains, IfOk, IsTrue, length, nat_eq, slice_index_or};
ghost use Rattle.std.specs.Cmp.{partial_equiv_from_equiv};
ghost use Rattle.std.specs.Cmp.Lexicographic.{pointwise, lists_equiv, nat_list_eq_equiv};
ghost use Rattle.crypto_text.specs.TextList.{AreDifferent};

use crate::text::Text;
use std::alloc::{AllocError, Global};
use std::marker::Model;

/// Texts in order, seen as a list of byte lists.
#[derive(Debug, Drop)]
pub struct TextList {
    texts: Vec<Text>,
}

impl Model for TextList {
    ghost use Rattle.std.specs.Prelude.{List, ℕ};

    ghost Value = { List (List ℕ) };

    ghost view = { λ l. l.texts.items };
}

impl TextList {
    /// A copy of texts.
    pub fn of(alloc: Global, texts: &[Text]) -> Result<TextList, AllocError>
        ensures { IfOk result (λ copy. copy ≡ texts.now) }
    {
        Ok(TextList {
            texts: copies(alloc, texts)?,
        })
    }

    /// The same texts once more.
    pub fn copy(&self, alloc: Global) -> Result<TextList, AllocError>
        ensures { IfOk result (λ copy. copy ≡ self.now) }
    {
        TextList::of(alloc, self.items())
    }

    /// The texts to read.
    pub fn items(&self) -> &[Text]
        ensures { result.now ≡ self.now }
    {
        self.texts.as_slice()
    }

    /// Takes over a vector, and takes no memory.
    pub fn from_vec(texts: Vec<Text>) -> TextList
        ensures { result ≡ texts.items }
    {
        TextList { texts }
    }

    /// Gives the vector back, and takes no memory.
    pub fn into_vec(self) -> Vec<Text>
        ensures { result.items ≡ self }
    {
        self.texts
    }
}

impl PartialEq for TextList {
    ghost eq = { pointwise (pointwise nat_eq) };

    ghost laws = { partial_equiv_from_equiv (lists_equiv nat_list_eq_equiv) };

    fn eq(&self, other: &TextList) -> bool {
        self.items() == other.items()
    }
}

impl Eq for TextList {
    ghost laws = { lists_equiv nat_list_eq_equiv };
}

/// Whether a text is one of the texts.
pub fn is_among(texts: &[Text], text: &str) -> bool
    ensures { IsTrue result ↔ Contains texts.now text.now }
{
    texts.iter().any(|known| known.as_str() == text)
}

/// Whether no two of the texts are the same. They are sorted, so that only neighbours are compared.
pub fn are_different(texts: Vec<Text>) -> bool
    ensures { IsTrue result ↔ AreDifferent texts.items }
{
    let mut sorted = texts;
    sorted.sort_unstable();
    neighbours_differ(sorted.as_slice())
}

fn neighbours_differ(sorted: &[Text]) -> bool
    ensures { IsTrue result ↔ ((k : ℕ) → k + 1 < length sorted.now → slice_index_or sorted.now k [] ≢ slice_index_or sorted.now (k + 1) []) }
{
    for i in 1..sorted.len() {
        if sorted[i - 1].as_str() == sorted[i].as_str() {
            return false;
        }
    }
    true
}

fn copies(alloc: Global, texts: &[Text]) -> Result<Vec<Text>, AllocError>
    ensures { IfOk result (λ v. v.items ≡ texts.now) }
{
    let mut copies = Vec::with_capacity(alloc, texts.len())?;
    for text in texts {
        copies.push(text.copy(alloc)?)?;
    }
    Ok(copies)
}
