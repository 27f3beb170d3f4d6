ghost use Rattle.std.specs.Prelude.{◌≡◌};
ghost use Rattle.std.specs.Str.{str_to_ascii_lowercase};
ghost use Rattle.selector_spelling.specs.Pieces.{plain_of, state_names, element_names};
ghost use Rattle.selector_spelling.specs.Bytes.{is_one_of};

use selector_lexer::{is, is_one_of};
use selector_spelling::{Kind, Plain};

fn is_state(name: &[u8]) -> bool
    ensures { result ≡ is_one_of (str_to_ascii_lowercase name.now) state_names }
{
    is_one_of(
        name,
        &[
            "hover",
            "active",
            "focus",
            "focus-visible",
            "focus-within",
            "link",
            "visited",
            "any-link",
            "target",
            "checked",
            "disabled",
            "enabled",
            "read-only",
            "read-write",
            "required",
            "optional",
            "valid",
            "invalid",
            "placeholder-shown",
            "indeterminate",
            "default",
            "in-range",
            "out-of-range",
            "autofill",
            "defined",
            "fullscreen",
            "scope",
        ],
    )
}

fn is_element(name: &[u8]) -> bool
    ensures { result ≡ is_one_of (str_to_ascii_lowercase name.now) element_names }
{
    is_one_of(name, &["before", "after", "first-line", "first-letter"])
}

/// What `:name` without an argument is.
pub(crate) fn plain_of(name: &[u8]) -> Option<Plain>
    ensures { result ≡ plain_of (str_to_ascii_lowercase name.now) }
{
    if is(name, b"root") {
        Some(Plain::Root)
    } else if is(name, b"empty") {
        Some(Plain::Empty)
    } else if is(name, b"first-child") {
        Some(Plain::Nth {
            from_end: false,
            of_name: false,
        })
    } else if is(name, b"last-child") {
        Some(Plain::Nth {
            from_end: true,
            of_name: false,
        })
    } else if is(name, b"first-of-type") {
        Some(Plain::Nth {
            from_end: false,
            of_name: true,
        })
    } else if is(name, b"last-of-type") {
        Some(Plain::Nth {
            from_end: true,
            of_name: true,
        })
    } else if is(name, b"only-child") {
        Some(Plain::Only { of_name: false })
    } else if is(name, b"only-of-type") {
        Some(Plain::Only { of_name: true })
    } else if is_state(name) {
        Some(Plain::Aside(Kind::State))
    } else if is_element(name) {
        Some(Plain::Aside(Kind::PseudoElement))
    } else {
        None
    }
}
