//! The keywords of statements, which are no names.

ghost use Rattle.std.specs.Prelude.{◌≡◌, find};
ghost use Rattle.cube_language.specs.Keywords.{is_keyword, keyword_of, keyword_text, spells};
ghost use Rattle.cube_language.specs.Letters.{keywords_at};

/// A word that statements are made with.
#[derive(Clone, Copy, Debug, PartialEq, Eq)]
pub enum Keyword {
    Select,
    From,
    Where,
    And,
    In,
    Between,
    Group,
    By,
    Sum,
    Count,
    Min,
    Max,
    Avg,
    Insert,
    Into,
    Values,
    Load,
    Reject,
    Delete,
    Begin,
    Commit,
    Rollback,
    Flush,
    Purge,
    Show,
    Epochs,
    Create,
    Cube,
    Dim,
    Metric,
    Text,
    Int,
    Having,
    Order,
    Limit,
    Asc,
    Desc,
    Watch,
}

/// All keywords.
pub const KEYWORDS: [Keyword; 38] = [
    Keyword::Select,
    Keyword::From,
    Keyword::Where,
    Keyword::And,
    Keyword::In,
    Keyword::Between,
    Keyword::Group,
    Keyword::By,
    Keyword::Sum,
    Keyword::Count,
    Keyword::Min,
    Keyword::Max,
    Keyword::Avg,
    Keyword::Insert,
    Keyword::Into,
    Keyword::Values,
    Keyword::Load,
    Keyword::Reject,
    Keyword::Delete,
    Keyword::Begin,
    Keyword::Commit,
    Keyword::Rollback,
    Keyword::Flush,
    Keyword::Purge,
    Keyword::Show,
    Keyword::Epochs,
    Keyword::Create,
    Keyword::Cube,
    Keyword::Dim,
    Keyword::Metric,
    Keyword::Text,
    Keyword::Int,
    Keyword::Having,
    Keyword::Order,
    Keyword::Limit,
    Keyword::Asc,
    Keyword::Desc,
    Keyword::Watch,
];

/// A keyword in lower case.
pub fn keyword_text(keyword: Keyword) -> &'static str
    ensures { result.now ≡ keyword_text keyword }
{
    match keyword {
        Keyword::Select => "select",
        Keyword::From => "from",
        Keyword::Where => "where",
        Keyword::And => "and",
        Keyword::In => "in",
        Keyword::Between => "between",
        Keyword::Group => "group",
        Keyword::By => "by",
        Keyword::Sum => "sum",
        Keyword::Count => "count",
        Keyword::Min => "min",
        Keyword::Max => "max",
        Keyword::Avg => "avg",
        Keyword::Insert => "insert",
        Keyword::Into => "into",
        Keyword::Values => "values",
        Keyword::Load => "load",
        Keyword::Reject => "reject",
        Keyword::Delete => "delete",
        Keyword::Begin => "begin",
        Keyword::Commit => "commit",
        Keyword::Rollback => "rollback",
        Keyword::Flush => "flush",
        Keyword::Purge => "purge",
        Keyword::Show => "show",
        Keyword::Epochs => "epochs",
        Keyword::Create => "create",
        Keyword::Cube => "cube",
        Keyword::Dim => "dim",
        Keyword::Metric => "metric",
        Keyword::Text => "text",
        Keyword::Int => "int",
        Keyword::Having => "having",
        Keyword::Order => "order",
        Keyword::Limit => "limit",
        Keyword::Asc => "asc",
        Keyword::Desc => "desc",
        Keyword::Watch => "watch",
    }
}

/// Whether a word spells a keyword, in whatever case.
pub fn spells(keyword: Keyword, word: &[u8]) -> bool
    ensures { result ≡ spells keyword word.now }
{
    word.eq_ignore_ascii_case(keyword_text(keyword).as_bytes())
}

/// The keywords that begin with a small letter.
fn keywords_at(letter: u8) -> &'static [Keyword]
    ensures { result.now ≡ keywords_at letter }
{
    match letter {
        b'a' => &[Keyword::And, Keyword::Avg, Keyword::Asc],
        b'b' => &[Keyword::Between, Keyword::By, Keyword::Begin],
        b'c' => &[
            Keyword::Count,
            Keyword::Commit,
            Keyword::Create,
            Keyword::Cube,
        ],
        b'd' => &[Keyword::Delete, Keyword::Dim, Keyword::Desc],
        b'e' => &[Keyword::Epochs],
        b'f' => &[Keyword::From, Keyword::Flush],
        b'g' => &[Keyword::Group],
        b'h' => &[Keyword::Having],
        b'i' => &[Keyword::In, Keyword::Insert, Keyword::Into, Keyword::Int],
        b'l' => &[Keyword::Load, Keyword::Limit],
        b'm' => &[Keyword::Min, Keyword::Max, Keyword::Metric],
        b'o' => &[Keyword::Order],
        b'p' => &[Keyword::Purge],
        b'r' => &[Keyword::Reject, Keyword::Rollback],
        b's' => &[Keyword::Select, Keyword::Sum, Keyword::Show],
        b't' => &[Keyword::Text],
        b'v' => &[Keyword::Values],
        b'w' => &[Keyword::Where, Keyword::Watch],
        _ => &[],
    }
}

/// The first of the keywords that a word spells, in whatever case.
fn spelled_among(keywords: &[Keyword], word: &[u8]) -> Option<Keyword>
    ensures { result ≡ find (λ k. spells k word.now) keywords.now }
{
    keywords
        .iter()
        .copied()
        .find(|keyword| spells(*keyword, word))
}

/// The keyword that a word spells, in whatever case.
pub fn keyword_of(word: &[u8]) -> Option<Keyword>
    ensures { result ≡ keyword_of word.now }
{
    match word {
        [] => None,
        [first, ..] => spelled_among(keywords_at(first.to_ascii_lowercase()), word),
    }
}

/// Whether a word is a keyword in whatever case.
pub fn is_keyword(word: &[u8]) -> bool
    ensures { result ≡ is_keyword word.now }
{
    keyword_of(word).is_some()
}
