//! Texts in quotes.

ghost use Rattle.std.specs.Prelude.{◌≡◌, true, IfSome, IfNone};
ghost use Rattle.cube_language.specs.declared.token.TokenKind.TheVariants as kind;
ghost use Rattle.sql_words.specs.Fronts.{begins_text, letter_len, IsFront, IsOpened};

/// Whether a text in quotes begins here.
pub(crate) fn begins_text(bytes: &[u8]) -> bool
    ensures { result ≡ begins_text bytes.now }
{
    match bytes {
        [] => false,
        [first, ..] => *first == b'\'',
    }
}

/// How many bytes stand for the next byte of a text: two quotes for a quote, and none where the text ends.
fn letter_len(bytes: &[u8]) -> usize
    ensures { result ≡ letter_len bytes.now }
{
    match bytes {
        [] => 0,
        [first, behind @ ..] => {
            if *first != b'\'' {
                1
            } else if begins_text(behind) {
                2
            } else {
                0
            }
        }
    }
}

/// How many bytes the text at the front has with its quotes, or None where it does not end.
#[tactic(auto, using(crate::proofs::OpenTexts::open_none, crate::proofs::OpenTexts::open_more, crate::proofs::OpenTexts::open_all, crate::proofs::OpenTexts::open_ends))]
pub(crate) fn text_len(bytes: &[u8]) -> Option<usize>
    requires { begins_text bytes.now ≡ true }
    ensures some { IfSome result (λ n. IsFront bytes.now kind.Text n) }
    ensures none { IfNone result (IsOpened bytes.now) }
{
    let (_, mut rest) = bytes.split_at(1);
    'text: while !rest.is_empty() {
        let len = letter_len(rest);
        if len == 0 {
            return Some(bytes.len() - rest.len() + 1);
        }
        let (_, behind) = rest.split_at(len);
        rest = behind;
    }
    None
}
