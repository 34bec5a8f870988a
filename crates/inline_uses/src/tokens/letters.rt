//! Letters, of which std searches a table with all ranges.
ghost use Rattle.std.specs.Prelude.{◌≡◌};
ghost use Rattle.std.specs.Char.Unicode.Alphabetic.{is_alphabetic};
ghost use Rattle.inline_uses.specs.Letters.{is_in_long_range};

/// Returns whether the character is in one of the long ranges of letters: Latin, Greek, Cyrillic,
/// Arabic, kana, the ideographs and Hangul.
#[inline]
fn is_in_long_range(ch: char) -> bool
    ensures { result ≡ is_in_long_range ch }
{
    matches!(
        ch,
        '\u{c0}'..='\u{d6}'
            | '\u{d8}'..='\u{f6}'
            | '\u{f8}'..='\u{2c1}'
            | '\u{3a3}'..='\u{3f5}'
            | '\u{3f7}'..='\u{481}'
            | '\u{48a}'..='\u{52f}'
            | '\u{620}'..='\u{657}'
            | '\u{1e00}'..='\u{1f15}'
            | '\u{3041}'..='\u{3096}'
            | '\u{30a1}'..='\u{30fa}'
            | '\u{4e00}'..='\u{a48c}'
            | '\u{ac00}'..='\u{d7a3}'
    )
}

/// Returns whether the character is a letter, as `char::is_alphabetic` does.
pub(super) fn is_letter(ch: char) -> bool
    ensures { result ≡ is_alphabetic ch }
{
    if ch.is_ascii() {
        return ch.is_ascii_alphabetic();
    }
    is_in_long_range(ch) || ch.is_alphabetic()
}
