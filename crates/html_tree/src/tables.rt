// The tables of elements, by names whose letters may be of either case.

ghost use Rattle.std.specs.Prelude.{◌≡◌, ◌∷◌, [], codes, map};
ghost use Rattle.std.specs.Str.{str_to_ascii_lowercase};
ghost use Rattle.html_meaning.specs.Bytes.{is_among};
ghost use Rattle.html_meaning.specs.Elements.{void_elements, self_closing_elements, paragraph_enders, implied_ends, has_content};
ghost use Rattle.html_tree.specs.Chain.{closed_elements, names_of};

/// Whether a name is one of the names in a table.
fn is_among(name: &str, table: &[&str]) -> bool
    ensures { result ≡ is_among (str_to_ascii_lowercase name.now) (names_of table.now) }
{
    for entry in table {
        if name.eq_ignore_ascii_case(entry) {
            return true;
        }
    }
    false
}

/// Whether an element of this name never has content.
fn is_void(name: &str) -> bool
    ensures { result ≡ is_among (str_to_ascii_lowercase name.now) void_elements }
{
    is_among(
        name,
        &[
            "area", "base", "br", "col", "embed", "hr", "img", "input", "link", "meta", "param",
            "source", "track", "wbr",
        ],
    )
}

/// Whether an element of this name has no content where its start tag is self-closing.
fn is_self_closing(name: &str) -> bool
    ensures { result ≡ is_among (str_to_ascii_lowercase name.now) self_closing_elements }
{
    is_among(
        name,
        &[
            "animate",
            "animatemotion",
            "animatetransform",
            "circle",
            "clippath",
            "defs",
            "ellipse",
            "feblend",
            "fecolormatrix",
            "fecomposite",
            "feflood",
            "fegaussianblur",
            "femerge",
            "femergenode",
            "feoffset",
            "filter",
            "g",
            "image",
            "line",
            "lineargradient",
            "mask",
            "mpath",
            "path",
            "pattern",
            "polygon",
            "polyline",
            "radialgradient",
            "rect",
            "set",
            "stop",
            "symbol",
            "text",
            "tspan",
            "use",
            "view",
        ],
    )
}

/// Whether an element has content behind its start tag.
pub fn has_content(name: &str, self_closing: bool) -> bool
    ensures { result ≡ has_content (str_to_ascii_lowercase name.now) self_closing }
{
    !is_void(name) && !(self_closing && is_self_closing(name))
}

/// Whether a paragraph ends before an element of this name.
fn ends_paragraph(name: &str) -> bool
    ensures { result ≡ is_among (str_to_ascii_lowercase name.now) paragraph_enders }
{
    is_among(
        name,
        &[
            "address",
            "article",
            "aside",
            "blockquote",
            "div",
            "dl",
            "fieldset",
            "figure",
            "footer",
            "form",
            "h1",
            "h2",
            "h3",
            "h4",
            "h5",
            "h6",
            "header",
            "hr",
            "main",
            "nav",
            "ol",
            "p",
            "pre",
            "section",
            "table",
            "ul",
        ],
    )
}

/// The names of the elements that a start tag of this name closes where they stand innermost.
fn implied_ends(tag: &str) -> &'static [&'static str]
    ensures { names_of result.now ≡ implied_ends (str_to_ascii_lowercase tag.now) }
{
    if ends_paragraph(tag) {
        &["p"]
    } else if is_among(tag, &["li"]) {
        &["p", "li"]
    } else if is_among(tag, &["dt", "dd"]) {
        &["p", "dt", "dd"]
    } else if is_among(tag, &["option"]) {
        &["option"]
    } else if is_among(tag, &["optgroup"]) {
        &["option", "optgroup"]
    } else if is_among(tag, &["td", "th"]) {
        &["p", "td", "th"]
    } else if is_among(tag, &["tr"]) {
        &["p", "td", "th", "tr"]
    } else if is_among(tag, &["thead", "tbody", "tfoot"]) {
        &["p", "td", "th", "tr", "thead", "tbody", "tfoot"]
    } else {
        &[]
    }
}

/// Whether some start tag closes elements of this name where they stand innermost.
fn may_be_closed(name: &str) -> bool
    ensures { result ≡ is_among (str_to_ascii_lowercase name.now) closed_elements }
{
    is_among(
        name,
        &[
            "p", "li", "dt", "dd", "option", "optgroup", "td", "th", "tr", "thead", "tbody",
            "tfoot",
        ],
    )
}

/// Whether a start tag of the name `tag` closes an element of this name where that stands innermost.
pub fn closes(tag: &str, name: &str) -> bool
    ensures { result ≡ is_among (str_to_ascii_lowercase name.now) (implied_ends (str_to_ascii_lowercase tag.now)) }
{
    // most elements are closed by no start tag
    may_be_closed(name) && is_among(name, implied_ends(tag))
}
