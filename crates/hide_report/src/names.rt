// How kinds and causes are printed.
ghost use Rattle.std.specs.Prelude.{◌≡◌};
ghost use Rattle.hide_report.specs.Names.{kind_name, cause_name};

use selector_spelling::{Cause, Kind};

/// What a line is set aside for, as it is printed.
pub fn kind_name(kind: Kind) -> &'static str
    ensures { result.now ≡ kind_name kind }
{
    match kind {
        Kind::Network => "Network",
        Kind::Modifier => "Modifier",
        Kind::RegexHost => "RegexHost",
        Kind::Snippet => "Snippet",
        Kind::Scriptlet => "Scriptlet",
        Kind::HtmlFilter => "HtmlFilter",
        Kind::Option => "Option",
        Kind::RegexAddress => "RegexAddress",
        Kind::Include => "Include",
        Kind::State => "State",
        Kind::PseudoElement => "PseudoElement",
        Kind::Style => "Style",
        Kind::Xpath => "Xpath",
        Kind::Shadow => "Shadow",
        Kind::MatchesCss => "MatchesCss",
        Kind::MatchesMedia => "MatchesMedia",
        Kind::MatchesProp => "MatchesProp",
        Kind::AbpProperties => "AbpProperties",
        Kind::RemoveAttr => "RemoveAttr",
        Kind::RemoveClass => "RemoveClass",
    }
}

/// What makes a line malformed, as it is printed.
pub fn cause_name(cause: Cause) -> &'static str
    ensures { result.now ≡ cause_name cause }
{
    match cause {
        Cause::LineTooLong => "LineTooLong",
        Cause::NotUtf8 => "NotUtf8",
        Cause::BadHost => "BadHost",
        Cause::BadCondition => "BadCondition",
        Cause::StrayElse => "StrayElse",
        Cause::StrayEndif => "StrayEndif",
        Cause::UnclosedIf => "UnclosedIf",
        Cause::BadSuffix => "BadSuffix",
        Cause::Unbalanced => "Unbalanced",
        Cause::TooNested => "TooNested",
        Cause::EmptyPart => "EmptyPart",
        Cause::BadName => "BadName",
        Cause::BadAttribute => "BadAttribute",
        Cause::UnknownPseudo => "UnknownPseudo",
        Cause::BadNumber => "BadNumber",
        Cause::BadOperatorArgument => "BadOperatorArgument",
        Cause::OthersNested => "OthersNested",
        Cause::ActionNotLast => "ActionNotLast",
        Cause::ActionInList => "ActionInList",
        Cause::BadPattern => "BadPattern",
        Cause::PatternTooLarge => "PatternTooLarge",
    }
}
