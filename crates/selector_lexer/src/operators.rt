ghost use Rattle.std.specs.Prelude.{◌≡◌};
ghost use Rattle.std.specs.List.{list_any};
ghost use Rattle.std.specs.Str.{bytes_eq, str_to_ascii_lowercase};
ghost use Rattle.selector_spelling.specs.Operators.{standard_of, procedural_of, aside_of, operator_of};

use selector_spelling::{Kind, Operator};

/// Whether a name is this word, letter case aside.
pub fn is(name: &[u8], word: &[u8]) -> bool
    ensures { result ≡ bytes_eq (str_to_ascii_lowercase name.now) (str_to_ascii_lowercase word.now) }
{
    name.eq_ignore_ascii_case(word)
}

/// Whether a name is one of these words, letter case aside.
pub fn is_one_of(name: &[u8], words: &[&str]) -> bool
    ensures { result ≡ list_any (λ word. bytes_eq (str_to_ascii_lowercase name.now) (str_to_ascii_lowercase word.now)) words.now }
{
    words.iter().any(|word| is(name, word.as_bytes()))
}

/// What `:name(..)` is where it takes a selector or a number.
fn standard_of(name: &[u8]) -> Option<Operator>
    ensures { result ≡ standard_of (str_to_ascii_lowercase name.now) }
{
    if is_one_of(name, &["is", "where"]) {
        Some(Operator::Is)
    } else if is(name, b"not") {
        Some(Operator::Not)
    } else if is_one_of(name, &["has", "-abp-has"]) {
        Some(Operator::Has)
    } else if is(name, b"nth-child") {
        Some(Operator::Nth {
            from_end: false,
            of_name: false,
        })
    } else if is(name, b"nth-last-child") {
        Some(Operator::Nth {
            from_end: true,
            of_name: false,
        })
    } else if is(name, b"nth-of-type") {
        Some(Operator::Nth {
            from_end: false,
            of_name: true,
        })
    } else if is(name, b"nth-last-of-type") {
        Some(Operator::Nth {
            from_end: true,
            of_name: true,
        })
    } else {
        None
    }
}

/// Where it is a procedural operator.
fn procedural_of(name: &[u8]) -> Option<Operator>
    ensures { result ≡ procedural_of (str_to_ascii_lowercase name.now) }
{
    if is_one_of(name, &["has-text", "-abp-contains"]) {
        Some(Operator::HasText)
    } else if is(name, b"min-text-length") {
        Some(Operator::MinText)
    } else if is(name, b"matches-path") {
        Some(Operator::MatchesPath)
    } else if is(name, b"matches-attr") {
        Some(Operator::MatchesAttr)
    } else if is(name, b"watch-attr") {
        Some(Operator::WatchAttr)
    } else if is(name, b"upward") {
        Some(Operator::Upward)
    } else if is(name, b"others") {
        Some(Operator::Others)
    } else if is(name, b"remove") {
        Some(Operator::Remove)
    } else {
        None
    }
}

/// Where it is set aside.
fn aside_of(name: &[u8]) -> Option<Kind>
    ensures { result ≡ aside_of (str_to_ascii_lowercase name.now) }
{
    if is_one_of(name, &["lang", "dir"]) {
        Some(Kind::State)
    } else if is(name, b"style") {
        Some(Kind::Style)
    } else if is(name, b"xpath") {
        Some(Kind::Xpath)
    } else if is(name, b"shadow") {
        Some(Kind::Shadow)
    } else if is_one_of(
        name,
        &["matches-css", "matches-css-before", "matches-css-after"],
    ) {
        Some(Kind::MatchesCss)
    } else if is(name, b"matches-media") {
        Some(Kind::MatchesMedia)
    } else if is(name, b"matches-prop") {
        Some(Kind::MatchesProp)
    } else if is(name, b"-abp-properties") {
        Some(Kind::AbpProperties)
    } else if is(name, b"remove-attr") {
        Some(Kind::RemoveAttr)
    } else if is(name, b"remove-class") {
        Some(Kind::RemoveClass)
    } else {
        None
    }
}

/// What `:name(..)` is.
pub fn operator_of(name: &[u8]) -> Option<Operator>
    ensures { result ≡ operator_of (str_to_ascii_lowercase name.now) }
{
    if let Some(operator) = standard_of(name) {
        return Some(operator);
    }
    if let Some(operator) = procedural_of(name) {
        return Some(operator);
    }
    Some(Operator::Aside(aside_of(name)?))
}
