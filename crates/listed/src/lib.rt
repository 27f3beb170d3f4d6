//! The one list type of the project, and a text: small types that contracts see as plain lists.
#![tactic(auto)]

mod list;
mod text;

pub use list::{Bytes, Listed, Names, Numbers};
pub use text::Text;

#[cfg(test)]
mod tests {
    use super::*;
    use std::test::Fail;

    #[test]
    fn lists_and_texts_are_made_changed_and_read(rt: HostRuntime) -> Result<(), Fail> {
        let alloc = rt.alloc();
        let mut names = Names::new(alloc);
        names.push(Text::of(alloc, "one")?)?;
        names.push(Text::of(alloc, "two")?)?;
        names.push(Text::of(alloc, "three")?)?;
        names.set(0, Text::of(alloc, "first")?);
        names.remove(1);
        assert_eq!(rt; names.len(), 2);
        assert_eq!(rt; names.at(0).ok_or("none")?.as_str(), "first");
        names.cut(1);
        assert_eq!(rt; names.at(1).is_none(), true);

        let mut bytes = Bytes::new(alloc);
        bytes.extend(b"bytes")?;
        assert_eq!(rt; bytes.as_slice(), b"bytes".as_slice());

        let mut text = Text::new(alloc);
        text.push('t')?;
        text.push_str("ext")?;
        assert_eq!(rt; text.copy(alloc)?.as_str(), "text");
        Ok(())
    }
}
