//! What the readers of all formats stand on, each a slice of its source: lines, numbered; parts between separators, with
//! their places; white space; fronts of a class of ASCII bytes; numbers with a limit; and the byte order mark.
#![tactic(auto)]

mod classes;
mod lines;
mod mark;
mod numbers;
mod parts;
mod spaces;

pub use classes::{Class, front_length, split_front};
pub use lines::{Line, Lines};
pub use mark::{mark_length, text_without_mark, without_mark};
pub use numbers::{is_digits, number, plain_number};
pub use parts::{Part, Parts, Span, split_once};
pub use spaces::{is_space, space_count, trim, trim_text, until_space};

#[cfg(test)]
mod tests {
    use super::*;

    #[test]
    fn lines_end_at_lf_and_a_cr_before_it(rt: HostRuntime) {
        let source = b"one\r\n\r\ntwo\rtwo\n \t\r x \x0c\nlast\r";
        let expected: [&[u8]; 5] = [b"one", b"", b"two\rtwo", b" \t\r x \x0c", b"last\r"];
        let trimmed: [&[u8]; 5] = [b"one", b"", b"two\rtwo", b"x", b"last"];
        let mut lines = Lines::new(source);
        for (place, bytes) in expected.iter().enumerate() {
            let line = lines.next();
            assert!(rt; line.is_some(), "line {place}");
            if let Some(line) = line {
                assert_eq!(rt; line.number as usize, place + 1);
                assert_eq!(rt; line.bytes, *bytes);
                assert_eq!(rt; trim(line.bytes), trimmed[place]);
            }
        }
        assert!(rt; lines.next().is_none());
        assert!(rt; Lines::new(b"").next().is_none());
    }

    #[test]
    fn parts_have_their_places(rt: HostRuntime) {
        let expected: [(usize, &str, usize, &str); 4] = [
            (0, "a.b", 0, "a.b"),
            (4, " \u{e9}\t", 5, "\u{e9}"),
            (9, " ", 10, ""),
            (11, "", 11, ""),
        ];
        let mut parts = Parts::new("a.b, \u{e9}\t, ,", b',');
        for (place, text, trimmed_place, trimmed) in expected.iter() {
            let part = parts.next();
            assert!(rt; part.is_some());
            if let Some(part) = part {
                assert_eq!(rt; (part.place, part.text), (*place, *text));
                assert_eq!(rt;
                    (part.trimmed().place, part.trimmed().text),
                    (*trimmed_place, *trimmed)
                );
            }
        }
        assert!(rt; parts.next().is_none());
        assert_eq!(rt; split_once("attr  1", b' '), ("attr", Some(" 1")));
        assert_eq!(rt; split_once("", b' '), ("", None));
        assert_eq!(rt; until_space("*.ck\t// x"), "*.ck");
        assert_eq!(rt; split_front(Class::Letter, "endif1"), ("endif", "1"));
        assert_eq!(rt; without_mark(b"\xef\xbb\xbfx"), b"x".as_slice());
        assert_eq!(rt; mark_length(b"\xef\xbbx"), 0);
    }

    #[test]
    fn numbers_have_a_limit(rt: HostRuntime) {
        let numbers: [(&str, Option<u32>, Option<u32>); 9] = [
            ("0", Some(0), Some(0)),
            ("007", Some(7), None),
            ("255", Some(255), Some(255)),
            ("256", None, None),
            ("4294967551", None, None),
            ("", None, None),
            ("+1", None, None),
            ("1 ", None, None),
            ("00000000000000000000000001", Some(1), None),
        ];
        for (text, any, plain) in numbers.iter() {
            assert_eq!(rt; number(text, 255), *any, "{text}");
            assert_eq!(rt; plain_number(text, 255), *plain, "{text}");
        }
    }
}
