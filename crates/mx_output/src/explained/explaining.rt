//! The explanation of a number or a word: the text of the table that begins with it.
ghost use Rattle.std.specs.Prelude.{◌≡◌, IfSome, find, is_some, map, true};
ghost use Rattle.std.specs.Option.{option_map};
ghost use Rattle.std.specs.Str.{bytes_eq};
ghost use Rattle.mx_output.specs.explained.Explained.{explanation_of, first_word, is_explained};
ghost use Rattle.mx_output.specs.explained.Form.{is_explanation};

use crate::explained::table::EXPLANATIONS;

// The first word of a text.
fn first_word(text: &str) -> &str
    ensures { result.now ≡ first_word text.now }
{
    match text.split_once(' ') {
        Some((word, _)) => word,
        None => text,
    }
}

// The first of some texts that begins with a word.
fn first_with(texts: &[&'static str], word: &str) -> Option<&'static str>
    ensures { result ≡ find (λ text. bytes_eq (first_word text.now) word.now) texts.now }
{
    texts.iter().copied().find(|text| first_word(text) == word)
}

// The same, by what the texts say.
fn said_with(texts: &[&'static str], word: &str) -> Option<&'static str>
    ensures { option_map (λ text. text.now) result
        ≡ find (λ text. bytes_eq (first_word text) word.now) (map (λ text. text.now) texts.now) }
{
    first_with(texts, word)
}

/// The explanation of a number or a word, or `None` where there is none of it.
pub fn explanation(what: &str) -> Option<&'static str>
    ensures its { option_map (λ text. text.now) result ≡ explanation_of what.now }
    ensures known { is_some result ≡ is_explained what.now }
    ensures form { IfSome result (λ text. is_explanation what.now text.now ≡ true) }
{
    said_with(&EXPLANATIONS, what)
}
