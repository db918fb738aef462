//! Texts and names. A contract sees both as their bytes.

ghost use Rattle.std.specs.Prelude.{◌≡◌, ◌<◌, ◌≤◌, IfOk, Some, length, nat_eq, refl, string_bytes};
ghost use Rattle.std.specs.Ordering.{nat_cmp};
ghost use Rattle.std.specs.Hash as fed;
ghost use Rattle.std.specs.Cmp.{partial_equiv_from_equiv};
ghost use Rattle.std.specs.Cmp.Lexicographic.{bytes_decides, nat_list_cmp_total, nat_list_eq_equiv, pointwise, slice_cmp, texts_po, texts_ties};
ghost use Rattle.std.proofs.Common.{ap};
ghost use Rattle.jc_types.specs.Letters.{code_of};

use crate::copies::{Copied, Same, Want};
use crate::letters::Letters;
use crate::lists::ListOf;
use crate::shared::Arc;
use std::alloc::Global;
use std::cmp::Ordering;
use std::hash::{Hash, Hasher};
use std::marker::Model;

/// A text in UTF-8. Its copies share its memory.
#[derive(Drop)]
pub struct Text {
    letters: Arc<Letters>,
}

impl Model for Text {
    ghost use Rattle.std.specs.Prelude.{List, ℕ};

    ghost Value = { List ℕ };

    ghost view = { λ t. t.letters };
}

impl Text {
    /// A text of its own with these bytes.
    ///
    /// # Errors
    /// `Want` where there is no memory for it.
    pub fn from_str(alloc: Global, text: &str) -> Result<Self, Want>
        ensures { IfOk result (λ t. t ≡ text.now) }
    {
        Ok(Text {
            letters: Arc::new(alloc, Letters::of_text(alloc, text)?)?,
        })
    }

    /// The text of a string.
    ///
    /// # Errors
    /// `Want` where there is no memory for it.
    pub fn from_string(string: String) -> Result<Self, Want>
        ensures { IfOk result (λ t. t ≡ string_bytes string) }
    {
        let alloc = *string.allocator();
        Ok(Text {
            letters: Arc::new(alloc, Letters::of_string(string))?,
        })
    }

    /// The text itself.
    pub fn as_str(&self) -> &str
        ensures { result.now ≡ self.now }
    {
        self.letters.as_str()
    }
}

impl Copied for Text {
    fn copy(&self) -> Result<Self, Want> {
        Ok(Text {
            letters: self.letters.copy()?,
        })
    }
}

impl Same for Text {
    fn is_same(&self, other: &Self) -> bool {
        self.letters.is_equal(&other.letters)
    }
}

/// A name of 1 to 63 bytes, as Kubernetes bounds a DNS label. A contract sees it as its bytes.
#[derive(Drop)]
pub struct Label {
    letters: Letters,
}

impl Model for Label {
    ghost use Rattle.std.specs.Prelude.{List, ℕ, ◌<◌, ◌≤◌, length};

    ghost Value = { List ℕ };

    ghost view = { λ l. l.letters };

    ghost invariant = { λ l. (0 < length l.letters) × (length l.letters ≤ 63) };
}

/// A name. Its copies share its memory.
pub type Name = Arc<Label>;

/// Names in an order of their own.
pub type Names = ListOf<Name>;

impl Label {
    /// The name with these bytes, of which there are 1 to 63.
    ///
    /// # Errors
    /// `Want` where there is no memory for it.
    pub fn from_text(alloc: Global, text: &str) -> Result<Self, Want>
        requires not_empty { 0 < length text.now }
        requires short { length text.now ≤ 63 }
        ensures { IfOk result (λ l. l ≡ text.now) }
    {
        Ok(Label {
            letters: Letters::of_text(alloc, text)?,
        })
    }

    /// The name that a string of 1 to 63 bytes spells.
    pub fn from_string(string: String) -> Self
        requires not_empty { 0 < length (string_bytes string) }
        requires short { length (string_bytes string) ≤ 63 }
        ensures { result ≡ string_bytes string }
    {
        Label {
            letters: Letters::of_string(string),
        }
    }

    /// The name's text.
    pub fn as_str(&self) -> &str
        ensures value { result.now ≡ self.now }
        ensures not_empty { 0 < length self.now }
        ensures short { length self.now ≤ 63 }
    {
        self.letters.as_str()
    }
}

impl Arc<Label> {
    /// The name with these bytes, of which there are 1 to 63.
    ///
    /// # Errors
    /// `Want` where there is no memory for it.
    pub fn from_text(alloc: Global, text: &str) -> Result<Self, Want>
        requires not_empty { 0 < length text.now }
        requires short { length text.now ≤ 63 }
        ensures { IfOk result (λ n. n ≡ text.now) }
    {
        Arc::new(alloc, Label::from_text(alloc, text)?)
    }

    /// The name that a string of 1 to 63 bytes spells.
    ///
    /// # Errors
    /// `Want` where there is no memory for it.
    pub fn from_string(string: String) -> Result<Self, Want>
        requires not_empty { 0 < length (string_bytes string) }
        requires short { length (string_bytes string) ≤ 63 }
        ensures { IfOk result (λ n. n ≡ string_bytes string) }
    {
        let alloc = *string.allocator();
        Arc::new(alloc, Label::from_string(string))
    }
}

impl Same for Label {
    fn is_same(&self, other: &Self) -> bool {
        self.letters.is_equal(&other.letters)
    }
}

impl PartialEq for Label {
    ghost eq = { pointwise nat_eq };

    ghost laws = { partial_equiv_from_equiv nat_list_eq_equiv };

    #[inline(always)]
    fn eq(&self, other: &Self) -> bool {
        self.letters.is_equal(&other.letters)
    }
}

impl Eq for Label {
    ghost laws = { nat_list_eq_equiv };
}

impl PartialOrd for Label {
    ghost partial_cmp = { λ x y. Some (slice_cmp nat_cmp x y) };

    ghost laws = { texts_po };

    fn partial_cmp(&self, other: &Self) -> Option<Ordering> {
        Some(self.cmp(other))
    }
}

impl Ord for Label {
    ghost cmp = { slice_cmp nat_cmp };

    ghost total = { nat_list_cmp_total };

    ghost matches_partial_cmp = { λ x y. refl };

    ghost matches_eq = { texts_ties };

    fn cmp(&self, other: &Self) -> Ordering {
        self.as_str().cmp(other.as_str())
    }
}

impl Hash for Label {
    ghost hash_input = { λ l. fed.u64 (code_of l) };

    ghost respects_eq = { λ x y h. ap (λ l. fed.u64 (code_of l)) ((bytes_decides x y).0 h) };

    fn hash<H: Hasher>(&self, state: &mut H) {
        self.letters.code().hash(state);
    }
}
