// The lines `kind`.
ghost use Rattle.std.specs.Prelude.{◌≡◌, ◌≢◌, ◌∷◌, ◌<◌, ◌^◌, [], true, codes, MatchOption};
ghost use Rattle.report_words.specs.Numbers.{is_number, number_of};
ghost use Rattle.report_text.specs.Lines.{kind_line};

use crate::values::small;
use code_flow_answer::Kind;

/// The kind that a single word says, if it is one.
pub fn plain_kind(word: &[u8]) -> Option<Kind>
    ensures { MatchOption result ((word.now ≢ codes "greatest") × (word.now ≢ codes "empty")) (λ kind. kind_line kind ≡ codes "kind" ∷ word.now ∷ []) }
{
    if word == b"greatest".as_slice() {
        return Some(Kind::Greatest);
    }
    if word == b"empty".as_slice() {
        return Some(Kind::Empty);
    }
    None
}

/// The kind of the words `wide` and a pivot.
pub fn wide_kind(pivot: &[u8]) -> Kind
    requires form { is_number pivot.now ≡ true }
    requires small { number_of pivot.now < 2 ^ 32 }
    ensures { kind_line result ≡ codes "kind" ∷ codes "wide" ∷ pivot.now ∷ [] }
{
    Kind::Wide {
        pivot: small(pivot),
    }
}

/// The kind of the words `spent` and numbers of columns and pivots.
pub fn spent_kind(columns: &[u8], pivots: &[u8]) -> Kind
    requires columns { is_number columns.now ≡ true }
    requires few_columns { number_of columns.now < 2 ^ 32 }
    requires pivots { is_number pivots.now ≡ true }
    requires few_pivots { number_of pivots.now < 2 ^ 32 }
    ensures { kind_line result ≡ codes "kind" ∷ codes "spent" ∷ columns.now ∷ pivots.now ∷ [] }
{
    Kind::Spent {
        columns: small(columns),
        pivots: small(pivots),
    }
}
