//! The parts at the front of bytes: comments, texts in quotes, and bytes by themselves.

ghost use Rattle.std.specs.Prelude.{◌≡◌, ◌≤◌, length};
ghost use Rattle.std.specs.List.{prefix_len};
ghost use Rattle.cube_language.specs.Parts.{is_space, is_no_quote, stays_on_line};
ghost use Rattle.sql_words.specs.Fronts.{begins_comment, begins_gap, part_len, quoted_len, IsBehindGap};

fn is_space(byte: u8) -> bool
    ensures { result ≡ is_space byte }
{
    byte == b' ' || byte == b'\t' || byte == b'\r' || byte == b'\n'
}

fn begins_comment(bytes: &[u8]) -> bool
    ensures { result ≡ begins_comment bytes.now }
{
    match bytes {
        [first, next, ..] => *first == b'-' && *next == b'-',
        _ => false,
    }
}

/// Whether white space or a comment begins here.
fn begins_gap(bytes: &[u8]) -> bool
    ensures { result ≡ begins_gap bytes.now }
{
    match bytes {
        [] => false,
        [first, ..] => is_space(*first) || begins_comment(bytes),
    }
}

/// How many bytes stay on the first line.
fn line_len(bytes: &[u8]) -> usize
    ensures { result ≡ prefix_len stays_on_line bytes.now }
{
    bytes.iter().take_while(|byte| **byte != b'\n').count()
}

/// How many bytes come before a quote.
fn inner_len(bytes: &[u8]) -> usize
    ensures { result ≡ prefix_len is_no_quote bytes.now }
{
    bytes.iter().take_while(|byte| **byte != b'\'').count()
}

/// How many bytes a text has behind its first quote: up to the next one and with it, or all where none comes.
#[tactic(auto, using(crate::proofs::Prefixes::prefix_within))]
fn quoted_len(bytes: &[u8]) -> usize
    ensures { result ≡ quoted_len bytes.now }
{
    let inner = inner_len(bytes);
    if inner < bytes.len() {
        inner + 1
    } else {
        inner
    }
}

/// How many bytes the part at the front has.
#[tactic(auto, using(crate::proofs::PartFronts::quoted_within, crate::proofs::Prefixes::prefix_within))]
pub(crate) fn part_len(bytes: &[u8]) -> usize
    ensures value { result ≡ part_len bytes.now }
    ensures within { result ≤ length bytes.now }
{
    match bytes {
        [] => 0,
        [first, behind @ ..] => {
            if *first == b'\'' {
                1 + quoted_len(behind)
            } else if begins_comment(bytes) {
                line_len(bytes)
            } else {
                1
            }
        }
    }
}

/// What stands behind the white space and the comments at the front.
#[tactic(auto, using(crate::proofs::Gaps::gap_shorter, crate::proofs::Gaps::gap_more, crate::proofs::Gaps::gap_all, crate::proofs::Gaps::passing_none))]
pub(crate) fn behind_gap(bytes: &[u8]) -> &[u8]
    ensures gap { IsBehindGap bytes.now result.now }
    ensures within { length result.now ≤ length bytes.now }
{
    let mut rest = bytes;
    'gap: while begins_gap(rest) {
        let (_, behind) = rest.split_at(part_len(rest));
        rest = behind;
    }
    rest
}
