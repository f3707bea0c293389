//! The words of a line.

ghost use Rattle.std.specs.Prelude.{◌≡◌, ◌<◌, [], length, MatchOption};
ghost use Rattle.std.specs.List.{prefix_len};
ghost use Rattle.cube_language.specs.CubesText.{parts_words, without_return, words_of};
ghost use Rattle.cube_schema.specs.Reading.{HasWords, is_in_word};

/// A line without one CR at its end.
pub(crate) fn without_return(line: &[u8]) -> &[u8]
    ensures { result.now ≡ without_return line.now }
{
    match line.strip_suffix(b"\r") {
        Some(front) => front,
        None => line,
    }
}

fn parts_words(byte: u8) -> bool
    ensures { result ≡ parts_words byte }
{
    byte == b' ' || byte == b'\t'
}

fn blanks_len(bytes: &[u8]) -> usize
    ensures { result ≡ prefix_len parts_words bytes.now }
{
    bytes.iter().take_while(|byte| parts_words(**byte)).count()
}

fn word_len(bytes: &[u8]) -> usize
    ensures { result ≡ prefix_len is_in_word bytes.now }
{
    bytes.iter().take_while(|byte| !parts_words(**byte)).count()
}

/// The first word of a line, which is empty where there is none, and what stands behind it.
#[tactic(auto, using(crate::proofs::WordParts::blanks_within, crate::proofs::WordParts::word_within))]
fn cut_word(line: &[u8]) -> (&[u8], &[u8])
    ensures first { 0 < length result.0.now → HasWords line.now result }
    ensures none { length result.0.now ≡ 0 → words_of line.now ≡ [] }
{
    let (_, front) = line.split_at(blanks_len(line));
    front.split_at(word_len(front))
}

/// The first word of a line, and what stands behind it.
pub(crate) fn next_word(line: &[u8]) -> Option<(&[u8], &[u8])>
    ensures { MatchOption result (words_of line.now ≡ []) (HasWords line.now) }
{
    let (word, behind) = cut_word(line);
    if word.is_empty() {
        return None;
    }
    Some((word, behind))
}
