//! A community as its word writes it.

ghost use Rattle.std.specs.Prelude.{◌≡◌, ◌==◌, List, ℕ, [], ◌∷◌, MatchOption, position};
ghost use Rattle.std.specs.List.{slice_split};
ghost use Rattle.nc_community.specs.Words.{community_of, halves_of};

use nc_lines::numbers::read_number;

// The greatest half of a community.
const GREATEST_HALF: u32 = 65_535;

// Where a colon stands first.
fn colon_place(word: &[u8]) -> Option<usize>
    ensures { result ≡ position (λ b. b == 58) word.now }
{
    word.iter().position(|b| *b == b':')
}

// The two parts of a word around the only colon in it.
fn cut_halves(word: &[u8]) -> Option<(&[u8], &[u8])>
    ensures { MatchOption result
        ((high low : List ℕ) → slice_split (λ b. b == 58) word.now ≡ high ∷ low ∷ [] → ⊥)
        (λ cut. slice_split (λ b. b == 58) word.now ≡ cut.0.now ∷ cut.1.now ∷ []) }
{
    let at = colon_place(word)?;
    let (high, _) = word.split_at(at);
    let (_, low) = word.split_at(at + 1);
    match colon_place(low) {
        Some(_) => None,
        None => Some((high, low)),
    }
}

// The community whose halves are these numbers.
fn of_halves(high: &[u8], low: &[u8]) -> Option<u32>
    ensures { result ≡ halves_of high.now low.now }
{
    let high = read_number(high, GREATEST_HALF)?;
    let low = read_number(low, GREATEST_HALF)?;
    Some(high * 65_536 + low)
}

/// The community that a word writes: two numbers up to 65,535 with a colon between them, of which
/// the first is the upper half (RFC 1997), or one number below 2^32; `None` where it writes none.
#[tactic(auto, unfolding(crate::specs::Words::community_of))]
pub fn read_community(word: &[u8]) -> Option<u32>
    ensures { result ≡ community_of word.now }
{
    match cut_halves(word) {
        Some((high, low)) => of_halves(high, low),
        None => read_number(word, u32::MAX),
    }
}
