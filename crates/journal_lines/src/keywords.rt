// What the first words of lines name.
ghost use Rattle.std.specs.Prelude.{◌≡◌};
ghost use Rattle.journal_lines.specs.Keywords.{keyword_of};

use crate::Keyword;
use script_words::is;

// What a word names.
pub(crate) fn keyword_of(w: &[u8]) -> Option<Keyword>
    ensures { result ≡ keyword_of w.now }
{
    if is(w, b"store") {
        Some(Keyword::Store)
    } else if is(w, b"repair") {
        Some(Keyword::Repair)
    } else if is(w, b"read") {
        Some(Keyword::Read)
    } else if is(w, b"list") {
        Some(Keyword::List)
    } else if is(w, b"damage") {
        Some(Keyword::Damage)
    } else if is(w, b"block") {
        Some(Keyword::Block)
    } else {
        None
    }
}
