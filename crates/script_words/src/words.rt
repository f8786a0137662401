// The words of a line, which are separated by one space.
ghost use Rattle.std.specs.Prelude.{◌≡◌, ◌==◌, position};
ghost use Rattle.script_words.specs.Words.{head_of, tail_of, has_more, is_skipped, same};

// The place of the first space.
fn space(s: &[u8]) -> Option<usize>
    ensures { result ≡ position (λ b. b == 32) s.now }
{
    s.iter().position(|b| *b == b' ')
}

// The text up to the first space.
#[tactic(auto, unfolding(crate::specs::Words::head_of))]
pub fn head(s: &[u8]) -> &[u8]
    ensures { result.now ≡ head_of s.now }
{
    match space(s) {
        Some(k) => &s[..k],
        None => s,
    }
}

// The text behind the first space, or no text if there is no space.
#[tactic(auto, unfolding(crate::specs::Words::tail_of))]
pub fn tail(s: &[u8]) -> &[u8]
    ensures { result.now ≡ tail_of s.now }
{
    match space(s) {
        Some(k) => &s[k + 1..],
        None => &[],
    }
}

// Whether there is a space, so that a word follows the first.
#[tactic(auto, unfolding(crate::specs::Words::has_more))]
pub fn has_more(s: &[u8]) -> bool
    ensures { result ≡ has_more s.now }
{
    space(s).is_some()
}

// Whether the line asks for nothing: it is empty or a comment.
#[tactic(auto, unfolding(crate::specs::Words::is_skipped))]
pub fn is_skipped(line: &[u8]) -> bool
    ensures { result ≡ is_skipped line.now }
{
    matches!(line, [] | [b'#', ..])
}

#[tactic(auto, unfolding(crate::specs::Words::same))]
pub fn is(word: &[u8], name: &[u8]) -> bool
    ensures { result ≡ same word.now name.now }
{
    word == name
}
