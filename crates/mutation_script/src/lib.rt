//! The script of a run: lines of text, each of which is a change of the page, blank or bad.
//!
//! A line begins with a word, and fields follow it, each behind one space. `specs/Fields.antt` says what a field is,
//! `Lines.antt` has a row for each word and what a whole line says, and `Example.antt` computes lines of each kind.
//! `Changes.antt` says what a mutation does to a page, and how each line is answered.
#![tactic(auto)]

mod answer;
mod fields;
mod lines;
mod mutation;
mod page;

pub use answer::{Answer, Outcome};
pub use lines::read_line;
pub use mutation::{BadLine, Mutation, ScriptLine};
pub use page::PageState;

#[cfg(test)]
mod tests {
    use super::*;
    use std::alloc::{AllocError, Global};
    use std::test::Fail;

    // What a line is, in one text.
    fn told(alloc: Global, line: &[u8]) -> Result<String, AllocError> {
        match read_line(alloc, line)? {
            ScriptLine::Mutation(Mutation::SetAttr { n, name, value }) => {
                format!(in alloc; "set {n} {} [{}]", name.as_str(), value.as_str())
            }
            ScriptLine::Mutation(Mutation::DropAttr { n, name }) => format!(in alloc;
                "drop {n} {}",
                name.as_str()
            ),
            ScriptLine::Mutation(Mutation::SetText { n, text }) => format!(in alloc;
                "text {n} [{}]",
                text.as_str()
            ),
            ScriptLine::Mutation(
                Mutation::Insert {
                    parent,
                    place,
                    html,
                },
            ) => format!(in alloc; "insert {parent} {place} [{}]", html.as_str()),
            ScriptLine::Mutation(Mutation::Delete { n }) => format!(in alloc; "delete {n}"),
            ScriptLine::Mutation(Mutation::Relink { n, parent, place }) => format!(in alloc;
                "move {n} {parent} {place}"
            ),
            ScriptLine::Mutation(Mutation::Path { path }) => format!(in alloc;
                "path [{}]",
                path.as_str()
            ),
            ScriptLine::Blank => String::from_str(alloc, "blank"),
            ScriptLine::Bad(cause) => format!(in alloc; "{cause:?}"),
        }
    }

    #[test]
    fn lines_are_read(rt: HostRuntime) -> Result<(), Fail> {
        let lines: [(&[u8], &str); 36] = [
            (b"attr 1 class x z", "set 1 class [x z]"),
            (b"attr 0 onClick  Y ", "set 0 onclick [ Y ]"),
            (b"attr 1 class", "set 1 class []"),
            (b"attr 1 class ", "set 1 class []"),
            (b"attr 4294967295 a b", "set 4294967295 a [b]"),
            (b"attr 7 id \xc3\xa9", "set 7 id [\u{e9}]"),
            (b"unset 120 Class", "drop 120 class"),
            (b"", "blank"),
            (b"\t\r", "blank"),
            (b" \x0c", "blank"),
            (b"attr 1 id \xff", "NotUtf8"),
            (b"\xff", "NotUtf8"),
            (b"ATTR 1 a", "UnknownWord"),
            (b" attr 1 a", "UnknownWord"),
            (b"paths /", "UnknownWord"),
            (b"text 1  a", "text 1 [ a]"),
            (b"insert 1 0 <i> </i>", "insert 1 0 [<i> </i>]"),
            (b"insert x", "BadNumber"),
            (b"delete 1", "delete 1"),
            (b"delete ", "BadNumber"),
            (b"move 1 0 0", "move 1 0 0"),
            (b"move 1 0 0 ", "ExtraField"),
            (b"path /a b", "path [/a b]"),
            (b"path", "MissingField"),
            (b"path ", "BadPath"),
            (b"attr", "MissingField"),
            (b"unset 1", "MissingField"),
            (b"attr  x", "BadNumber"),
            (b"attr 01 a b", "BadNumber"),
            (b"attr 4294967296 a b", "BadNumber"),
            (b"attr +1 a b", "BadNumber"),
            (b"attr 1 a=b c", "BadName"),
            (b"attr 1  x", "BadName"),
            (b"unset 1 a\t", "BadName"),
            (b"unset 1 a ", "ExtraField"),
            (b"unset 1 a b", "ExtraField"),
        ];
        for (line, expected) in lines.iter() {
            assert_eq!(rt; told(rt.alloc(), *line)?.as_str(), *expected);
        }
        Ok(())
    }
}
