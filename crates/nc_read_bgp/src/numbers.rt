//! Numbers from 1, which stand behind the words of a statement.

ghost use Rattle.std.specs.Prelude.{◌≡◌, ◌≤◌, IfSome};
ghost use Rattle.nc_lines.specs.Lines.{words_of};
ghost use Rattle.nc_read_bgp.specs.Statements.{positive, only_positive, only_asn};

use nc_lines::cut::cut_word;
use nc_lines::numbers::read_number;

// A number from 1 to `most`.
fn positive(word: &[u8], most: u32) -> Option<u32>
    ensures number { result ≡ positive most word.now }
    ensures within { IfSome result (λ n. n ≤ most) }
{
    let number = read_number(word, most)?;
    if number == 0 { None } else { Some(number) }
}

/// The one number from 1 to `most` that is there.
pub(crate) fn only_positive(text: &[u8], most: u32) -> Option<u32>
    ensures number { result ≡ only_positive most (words_of text.now) }
    ensures within { IfSome result (λ n. n ≤ most) }
{
    let (word, rest) = cut_word(text)?;
    if cut_word(rest).is_some() {
        return None;
    }
    positive(word, most)
}

/// The one number of an autonomous system that is there.
pub(crate) fn only_asn(text: &[u8]) -> Option<u32>
    ensures { result ≡ only_asn (words_of text.now) }
{
    only_positive(text, u32::MAX)
}
