// Words at the front of a text.
ghost use Rattle.std.specs.Prelude.{◌≡◌, ◌++◌, ℕ, List, Some, bytes_eq, option_map};
ghost use Rattle.ktm_codec.specs.Word.{after_word, word_at};

use memchr::memchr;

/// Is this the word? It is read character by character, since words are short.
pub fn is_word(text: &[u8], word: &[u8]) -> bool
    ensures { result ≡ bytes_eq text.now word.now }
{
    if text.len() != word.len() {
        return false;
    }
    for i in 0..text.len() {
        if text[i] != word[i] {
            return false;
        }
    }
    true
}

/// What follows the word, where the text begins with it.
#[tactic(auto, unfolding(crate::specs::Word::after_word))]
pub fn strip_word<'a>(text: &'a [u8], word: &[u8]) -> Option<&'a [u8]>
    ensures { option_map (λ rest. rest.now) result ≡ after_word word.now text.now }
{
    if text.len() < word.len() {
        return None;
    }
    let (front, rest) = text.split_at(word.len());
    if is_word(front, word) {
        Some(rest)
    } else {
        None
    }
}

/// The characters before the first space, and what follows them. They are read one by one, since words are short.
pub fn split_word(text: &[u8]) -> (&[u8], &[u8])
    ensures word { result.0.now ≡ (word_at text.now).0 }
    ensures rest { result.1.now ≡ (word_at text.now).1 }
{
    for i in 0..text.len() {
        if text[i] == b' ' {
            return text.split_at(i);
        }
    }
    (text, &[])
}

/// The same, fast where there are many characters before the space.
pub fn split_long_word(text: &[u8]) -> (&[u8], &[u8])
    ensures word { result.0.now ≡ (word_at text.now).0 }
    ensures rest { result.1.now ≡ (word_at text.now).1 }
{
    match memchr(b' ', text) {
        Some(end) => text.split_at(end),
        None => (text, &[]),
    }
}

/// What follows a word is what stands behind it.
pub fn law_of_words()
    ensures found { (word text rest : List ℕ) → after_word word text ≡ Some rest → text ≡ word ++ rest }
    ensures every { (word rest : List ℕ) → after_word word (word ++ rest) ≡ Some rest }
{}
