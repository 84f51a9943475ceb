// Patterns with stars and question marks.
ghost use Rattle.std.specs.Prelude.{◌≡◌, ◌↔◌, ℕ, List, ◌∷◌, ◌++◌, IsTrue, option_map};
ghost use Rattle.ktm_base.specs.Names.{matches, stands_for, star};
ghost use Rattle.ktm_names.specs.Walking.{Walks, matches_some_end, past_piece};

use ktm_base::fold;

// How a pattern and a name go together up to the pattern's next star.
enum Step<'a> {
    // To the end of both.
    Whole,
    // Up to a star: what follows it, and what is left of the name.
    Star(&'a [u8], &'a [u8]),
    // Not even that far.
    Apart,
}

fn stands_for(character: u8, other: u8) -> bool
    ensures { result ≡ stands_for character other }
{
    character == b'?' || fold(character) == fold(other)
}

// What is left of both behind the characters before the pattern's next star, where these stand for those of the name.
#[tactic(auto, unfolding(crate::specs::Walking::past_piece))]
fn past_piece<'a>(pattern: &'a [u8], name: &'a [u8]) -> Option<(&'a [u8], &'a [u8])>
    ensures { option_map (λ left. (left.0.now, left.1.now)) result ≡ past_piece pattern.now name.now }
{
    for (index, character) in pattern.iter().enumerate() {
        if *character == b'*' {
            return Some((&pattern[index..], &name[index..]));
        }
        match name.get(index) {
            Some(other) if stands_for(*character, *other) => {}
            _ => return None,
        }
    }
    Some((&[], &name[pattern.len()..]))
}

fn walk<'a>(pattern: &'a [u8], name: &'a [u8]) -> Step<'a>
    ensures { Walks result pattern.now name.now }
{
    let Some((rest, left)) = past_piece(pattern, name) else {
        return Step::Apart;
    };
    match rest.split_first() {
        Some((_, rest)) => Step::Star(rest, left),
        None if left.is_empty() => Step::Whole,
        None => Step::Apart,
    }
}

// Does the pattern match some end of the name. Where it goes up to a star at one end of the name, a later end leaves
// less behind the star, so none is tried again for what stands before it.
fn matches_some_end(pattern: &[u8], name: &[u8]) -> bool
    ensures { result ≡ matches_some_end pattern.now name.now }
{
    let mut pattern = pattern;
    let mut name = name;
    'ends: loop {
        match walk(pattern, name) {
            Step::Whole => return true,
            Step::Star(rest, left) => {
                pattern = rest;
                name = left;
            }
            Step::Apart => match name {
                [] => return false,
                [_, rest @ ..] => name = rest,
            },
        }
    }
}

/// Does the pattern match the name.
pub fn matches(pattern: &[u8], name: &[u8]) -> bool
    ensures { result ≡ matches pattern.now name.now }
{
    match walk(pattern, name) {
        Step::Whole => true,
        Step::Star(rest, left) => matches_some_end(rest, left),
        Step::Apart => false,
    }
}

/// A star stands for any characters: what follows it matches what is left of the name behind them.
pub fn law_of_star()
    ensures { (pattern name : List ℕ) → IsTrue (matches (star ∷ pattern) name) ↔ ((front rest : List ℕ) × (name ≡ front ++ rest) × IsTrue (matches pattern rest)) }
{}
