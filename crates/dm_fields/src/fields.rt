// The fields of a line that has a known number of them. None comes exactly where the line has another number.
ghost use Rattle.std.specs.Prelude.{◌≡◌, ◌≢◌, ◌∷◌, [], length, MatchOption};
ghost use Rattle.dm_base.specs.Fields.{parts};
ghost use Rattle.dm_fields.specs.Fields.{first_word, begins_with as has_first_word};

use dm_base::field;
use memchr::memchr;

fn word_of(line: &[u8]) -> &[u8]
    ensures { result.now ≡ first_word line.now }
{
    field(line, 0).unwrap_or(b"")
}

/// Whether this is the first word of a line.
pub fn begins_with(word: &[u8], line: &[u8]) -> bool
    ensures { result ≡ has_first_word word.now line.now }
{
    word_of(line) == word
}

// The first field, and what stands behind its space. None comes exactly where the line is one field.
fn cut(line: &[u8]) -> Option<(&[u8], &[u8])>
    ensures { MatchOption result (parts line.now ≡ line.now ∷ [])
        (λ cut. parts line.now ≡ cut.0.now ∷ parts cut.1.now) }
{
    match memchr(b' ', line) {
        Some(at) => Some((&line[..at], &line[at + 1..])),
        None => None,
    }
}

#[tactic(auto, using(crate::proofs::Counted::more_than_one))]
fn one_field(line: &[u8]) -> Option<&[u8]>
    ensures { MatchOption result (length (parts line.now) ≢ 1) (λ f. parts line.now ≡ f.now ∷ []) }
{
    match cut(line) {
        Some(_) => None,
        None => Some(line),
    }
}

/// The two fields of a line that has just so many.
#[tactic(auto, using(crate::proofs::Counted::one_is_few, crate::proofs::Counted::another_number))]
pub fn two_fields(line: &[u8]) -> Option<(&[u8], &[u8])>
    ensures { MatchOption result (length (parts line.now) ≢ 2)
        (λ f. parts line.now ≡ f.0.now ∷ f.1.now ∷ []) }
{
    let (first, rest) = cut(line)?;
    let second = one_field(rest)?;
    Some((first, second))
}

/// The three fields of a line that has just so many.
#[tactic(auto, using(crate::proofs::Counted::one_is_few, crate::proofs::Counted::another_number))]
pub fn three_fields(line: &[u8]) -> Option<(&[u8], &[u8], &[u8])>
    ensures { MatchOption result (length (parts line.now) ≢ 3)
        (λ f. parts line.now ≡ f.0.now ∷ f.1.now ∷ f.2.now ∷ []) }
{
    let (first, rest) = cut(line)?;
    let (second, third) = two_fields(rest)?;
    Some((first, second, third))
}

/// The four fields of a line that has just so many.
#[tactic(auto, using(crate::proofs::Counted::one_is_few, crate::proofs::Counted::another_number))]
pub fn four_fields(line: &[u8]) -> Option<(&[u8], &[u8], &[u8], &[u8])>
    ensures { MatchOption result (length (parts line.now) ≢ 4)
        (λ f. parts line.now ≡ f.0.now ∷ f.1.now ∷ f.2.now ∷ f.3.now ∷ []) }
{
    let (first, rest) = cut(line)?;
    let (second, third, fourth) = three_fields(rest)?;
    Some((first, second, third, fourth))
}

/// The five fields of a line that has just so many.
#[tactic(auto, using(crate::proofs::Counted::one_is_few, crate::proofs::Counted::another_number))]
pub fn five_fields(line: &[u8]) -> Option<(&[u8], &[u8], &[u8], &[u8], &[u8])>
    ensures { MatchOption result (length (parts line.now) ≢ 5)
        (λ f. parts line.now ≡ f.0.now ∷ f.1.now ∷ f.2.now ∷ f.3.now ∷ f.4.now ∷ []) }
{
    let (first, rest) = cut(line)?;
    let (second, third, fourth, fifth) = four_fields(rest)?;
    Some((first, second, third, fourth, fifth))
}

/// The six fields of a line that has just so many.
#[tactic(auto, using(crate::proofs::Counted::one_is_few, crate::proofs::Counted::another_number))]
pub fn six_fields(line: &[u8]) -> Option<(&[u8], &[u8], &[u8], &[u8], &[u8], &[u8])>
    ensures { MatchOption result (length (parts line.now) ≢ 6)
        (λ f. parts line.now ≡ f.0.now ∷ f.1.now ∷ f.2.now ∷ f.3.now ∷ f.4.now ∷ f.5.now ∷ []) }
{
    let (first, rest) = cut(line)?;
    let (second, third, fourth, fifth, sixth) = five_fields(rest)?;
    Some((first, second, third, fourth, fifth, sixth))
}

/// The seven fields of a line that has just so many.
#[tactic(auto, using(crate::proofs::Counted::one_is_few, crate::proofs::Counted::another_number))]
pub fn seven_fields(line: &[u8]) -> Option<(&[u8], &[u8], &[u8], &[u8], &[u8], &[u8], &[u8])>
    ensures { MatchOption result (length (parts line.now) ≢ 7)
        (λ f. parts line.now ≡ f.0.now ∷ f.1.now ∷ f.2.now ∷ f.3.now ∷ f.4.now ∷ f.5.now ∷ f.6.now ∷ []) }
{
    let (first, rest) = cut(line)?;
    let (second, third, fourth, fifth, sixth, seventh) = six_fields(rest)?;
    Some((first, second, third, fourth, fifth, sixth, seventh))
}
