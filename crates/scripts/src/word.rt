ghost use Rattle.std.specs.Prelude.{◌≡◌, ◌∷◌, [], not, MatchOption};
ghost use Rattle.std.specs.List.{position};
ghost use Rattle.scripts.specs.Words.{is_blank, is_end, words};

#[tactic(auto, unfolding(crate::specs::Words::is_blank))]
fn is_blank(letter: u8) -> bool
    ensures { result ≡ is_blank letter }
{
    matches!(letter, b' ' | b'\t' | b'\r')
}

// Whether a word ends before this letter.
#[tactic(auto, unfolding(crate::specs::Words::is_end))]
fn is_end(letter: u8) -> bool
    ensures { result ≡ is_end letter }
{
    is_blank(letter) || letter == b'#'
}

// Where the first letter that is no blank stands.
fn start_of(text: &[u8]) -> Option<usize>
    ensures { result ≡ position (λ c. not (is_blank c)) text.now }
{
    text.iter().position(|letter| !is_blank(*letter))
}

// Where the word at the front ends, if not with the text.
fn end_of(text: &[u8]) -> Option<usize>
    ensures { result ≡ position is_end text.now }
{
    text.iter().position(|letter| is_end(*letter))
}

// The first word, and the text behind it.
pub(crate) fn next_word(text: &[u8]) -> Option<(&[u8], &[u8])>
    ensures { MatchOption result (words text.now ≡ []) (λ x. words text.now ≡ x.0.now ∷ words x.1.now) }
{
    let start = start_of(text)?;
    let (_, text) = text.split_at(start);
    match end_of(text).unwrap_or(text.len()) {
        0 => None,
        len => Some(text.split_at(len)),
    }
}
