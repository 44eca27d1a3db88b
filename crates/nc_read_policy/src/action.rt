//! What an entry or a clause does with what it matches.

ghost use Rattle.std.specs.Prelude.{◌≡◌};
ghost use Rattle.nc_read_policy.specs.Clauses.{action_of};

use nc_lines::statement::is_word;

/// Whether the word is `permit`, or else `deny`; `None` where it is neither.
pub(crate) fn action(word: &[u8]) -> Option<bool>
    ensures { result ≡ action_of word.now }
{
    if is_word(word, "permit") {
        return Some(true);
    }
    if is_word(word, "deny") {
        return Some(false);
    }
    None
}
