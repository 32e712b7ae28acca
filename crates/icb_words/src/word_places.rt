//! Which folders and files a command's words name, for the caller that opens them.
ghost use Rattle.std.specs.Prelude.{◌≡◌, map, codes, string_bytes, slice_get, Option, option_map};
ghost use Rattle.icb_words.specs.Places.{word_after};

use crate::place_names::Places;

/// The places that the words name, by position alone: whether the words are a command is not asked.
pub fn places(words: &[String]) -> Places<'_>
    ensures table { option_map (λ word. word.now) result.table
        ≡ slice_get (map string_bytes words.now) 1 }
    ensures genuine { option_map (λ word. word.now) result.genuine
        ≡ word_after (codes "--genuine") (map string_bytes words.now) }
    ensures keys { option_map (λ word. word.now) result.keys
        ≡ word_after (codes "--keys") (map string_bytes words.now) }
    ensures metadata { option_map (λ word. word.now) result.metadata
        ≡ word_after (codes "--metadata") (map string_bytes words.now) }
{
    Places {
        table: words.get(1).map(|word| word.as_str()),
        genuine: word_after_name(words, "--genuine"),
        keys: word_after_name(words, "--keys"),
        metadata: word_after_name(words, "--metadata"),
    }
}

/// The word behind the first one of this name.
fn word_after_name<'a>(words: &'a [String], name: &str) -> Option<&'a str>
    ensures { option_map (λ word. word.now) result
        ≡ word_after name.now (map string_bytes words.now) }
{
    for (at, word) in words.iter().enumerate() {
        if word.as_str() == name {
            return words.get(at + 1).map(|next| next.as_str());
        }
    }
    None
}
