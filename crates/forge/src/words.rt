ghost use Rattle.std.specs.Prelude.{◌≡◌, map};
ghost use Rattle.std.specs.List.{list_any};
ghost use Rattle.std.specs.Str.{bytes_eq};
ghost use Rattle.rv_fields.specs.Name as Name;
ghost use Rattle.forge.specs.Words as Words;
ghost use Rattle.forge.specs.Parts.{number_behind};

/// The most digits that a seed has.
const MOST_DIGITS: usize = 20;

/// The seed that the word spells.
pub(crate) fn seed_of(word: &str) -> Option<u64>
    ensures { result ≡ Words.seed_of word.now }
{
    if word.is_empty() || word.len() > MOST_DIGITS {
        return None;
    }
    number_of(word.as_bytes())
}

/// The number that decimal digits spell.
fn number_of(digits: &[u8]) -> Option<u64>
    ensures { result ≡ number_behind 0 digits.now }
{
    let mut number = 0u64;
    for digit in digits {
        if !digit.is_ascii_digit() {
            return None;
        }
        number = number
            .checked_mul(10)?
            .checked_add(u64::from(*digit - b'0'))?;
    }
    Some(number)
}

/// Whether the words name different files, and none is an option.
pub(crate) fn are_files(words: &[&str]) -> bool
    ensures { result ≡ Words.are_files (map (λ word. word.now) words.now) }
{
    !has_option(words) && are_different(words)
}

/// Whether the word is an option.
fn is_option(word: &str) -> bool
    ensures { result ≡ Words.is_option word.now }
{
    match word.as_bytes() {
        [] => false,
        [first, ..] => *first == b'-',
    }
}

/// Whether one of the words is an option.
fn has_option(words: &[&str]) -> bool
    ensures { result ≡ list_any (λ word. Words.is_option word.now) words.now }
{
    words.iter().any(|word| is_option(word))
}

/// Whether the word is one of the others.
fn is_among(word: &str, others: &[&str]) -> bool
    ensures { result ≡ list_any (λ other. bytes_eq word.now other.now) others.now }
{
    others.iter().any(|other| word == *other)
}

/// Whether no two of the words are the same.
#[tactic(auto, using(crate::proofs::Names::first_differs))]
fn are_different(words: &[&str]) -> bool
    ensures { result ≡ Name.are_different (map (λ word. word.now) words.now) }
{
    let Some((first, rest)) = words.split_first() else {
        return true;
    };
    !is_among(first, rest) && are_different(rest)
}
