ghost use Rattle.std.specs.Prelude.{◌≡◌, ◌<◌, List, IfOk, IsErrOf};
ghost use Rattle.cos_patterns.specs.declared.written.Asked.{Asked};
ghost use Rattle.cos_patterns.specs.declared.written.Written.{Written};
ghost use Rattle.cos_patterns.specs.Found.{IsPatternOf, IsUnreadable};
ghost use Rattle.cos_patterns.specs.Makers.{IsAddressOf, IsNoAddress, large_after, unread_after};
ghost use Rattle.cos_patterns.specs.Written.{written};

use crate::MakeError;
use regex::Regex;
use url::Url;

/// Makes patterns and addresses of texts.
///
/// A text is unreadable only where the grammar reads nothing in it, or a pattern that nests too deep. Which texts are
/// refused for size only the lists tell.
pub trait Maker {
    /// The texts that it refused for size, in order.
    ghost large: { Self → List Asked };

    /// The patterns that it refused as unreadable, in order.
    ghost unread: { Self → List Written };

    /// What one call that asks for this text does to it beside its lists.
    ghost asks: { Self → Asked → Self → Type 0 };

    /// The pattern that the grammar of `regex` reads in the text under the flags.
    ///
    /// `flags` is a sum of 1 for `i`, 2 for `m` and 4 for `s`.
    fn pattern(&mut self, text: &str, flags: u8) -> Result<Regex, MakeError>
        requires { flags < 8 }
        ensures ok { IfOk result (IsPatternOf text.now flags) }
        ensures unreadable { IsErrOf result MakeError.Unreadable → IsUnreadable text.now flags }
        // The pattern is added to a list exactly where it is refused so, and nothing else is.
        ensures large { large self.new ≡ large_after result (Asked.Pattern (written text.now flags)) (large self.old) }
        ensures unread { unread self.new ≡ unread_after result (written text.now flags) (unread self.old) }
        ensures asked { asks self.old (Asked.Pattern (written text.now flags)) self.new };

    /// The address that the URL Standard's parser reads in the text.
    fn address(&mut self, text: &str) -> Result<Url, MakeError>
        ensures ok { IfOk result (IsAddressOf text.now) }
        ensures unreadable { IsErrOf result MakeError.Unreadable → IsNoAddress text.now }
        // The text is added to `large` exactly where it is refused so, and nothing else is.
        ensures large { large self.new ≡ large_after result (Asked.Address text.now) (large self.old) }
        ensures unread { unread self.new ≡ unread self.old }
        ensures asked { asks self.old (Asked.Address text.now) self.new };
}
