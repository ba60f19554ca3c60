// Where tokens stand, found by halves, as their offsets rise.
ghost use Rattle.std.specs.Prelude.{◌≡◌, ◌≤◌, ◌<◌, ◌+◌, length, take_while, nat_lt};
ghost use Rattle.law_translated_texts.specs.Parts as parts;
ghost use Rattle.law_translated_texts.specs.Translation as translation;
ghost use Rattle.smv_ltl.specs.Rising as rising;
ghost use Rattle.smv_ltl.specs.Rising.{Rises};

use smv_core::signs::CLOSE_BRACE;
use smv_core::token::Token;
use smv_core::tree::Top;
use smv_phrases::parts::is_sign;

// The half of the tokens from one place up to another behind which none stands before the offset, and before which all do.
fn half(tokens: &[Token], at: u32, low: usize, high: usize) -> (usize, usize)
    requires rises { Rises tokens.now }
    requires more { low < high }
    requires low { low ≤ length (take_while (λ t. nat_lt t.at at) tokens.now) }
    requires high { length (take_while (λ t. nat_lt t.at at) tokens.now) ≤ high }
    requires within { high ≤ length tokens.now }
    ensures low { result.0 ≤ length (take_while (λ t. nat_lt t.at at) tokens.now) }
    ensures high { length (take_while (λ t. nat_lt t.at at) tokens.now) ≤ result.1 }
    ensures within { result.1 ≤ length tokens.now }
    ensures smaller { result.1 + low < result.0 + high }
{
    let middle = low + (high - low) / 2;
    let there = tokens[middle].at;
    if there < at {
        return (middle + 1, high);
    }
    (low, middle)
}

// How many tokens stand before an offset.
fn count_before(tokens: &[Token], at: u32) -> usize
    requires rises { Rises tokens.now }
    ensures count { result ≡ length (take_while (λ t. nat_lt t.at at) tokens.now) }
    ensures within { result ≤ length tokens.now }
{
    let mut low = 0;
    let mut high = tokens.len();
    while low < high {
        let (from, to) = half(tokens, at, low, high);
        low = from;
        high = to;
    }
    low
}

// Whether the first token stands there.
fn begins_at(tokens: &[Token], at: u32) -> bool
    ensures { result ≡ rising.begins_at at tokens.now }
{
    match tokens {
        [] => false,
        [first, ..] => first.at == at,
    }
}

/// The tokens from the one at this offset on.
#[tactic(auto, using(crate::proofs::TokenLaws::finding))]
pub fn from_place(tokens: &[Token], at: u32) -> &[Token]
    requires rises { Rises tokens.now }
    ensures { result.now ≡ parts.from_place at tokens.now }
{
    let rest = tokens.split_at(count_before(tokens, at)).1;
    if begins_at(rest, at) {
        rest
    } else {
        rest.split_at(rest.len()).1
    }
}

// The tokens that stand before an offset.
#[tactic(auto, using(crate::proofs::TokenLaws::taken_before))]
fn tokens_before(tokens: &[Token], at: u32) -> &[Token]
    requires rises { Rises tokens.now }
    ensures { result.now ≡ take_while (λ t. nat_lt t.at at) tokens.now }
{
    tokens.split_at(count_before(tokens, at)).0
}

// Where a top stands: at its name or its word.
fn place_of(top: &Top) -> u32
    ensures { result ≡ rising.place_of top.now }
{
    match top {
        Top::SetType { name, .. } => name.at,
        Top::Alias { at, .. } => *at,
        Top::Module { at, .. } => *at,
    }
}

// The tokens before a top.
fn before_top<'a>(tokens: &'a [Token], tops: &[Top]) -> &'a [Token]
    requires rises { Rises tokens.now }
    ensures { result.now ≡ translation.before_top tokens.now tops.now }
{
    match tops {
        [] => tokens,
        [top, ..] => tokens_before(tokens, place_of(top)),
    }
}

// Where the last `}` of some tokens stands.
#[tactic(auto, using(crate::proofs::TokenLaws::braces))]
fn last_brace(tokens: &[Token]) -> u32
    ensures { result ≡ translation.last_brace tokens.now 0 }
{
    let mut count = tokens.len();
    while count > 0 {
        let place = count - 1;
        let token = &tokens[place];
        if is_sign(token, CLOSE_BRACE) {
            return token.at;
        }
        count = place;
    }
    0
}

/// Where the closing brace of a module stands, before these tops.
pub fn closing(tokens: &[Token], tops: &[Top]) -> u32
    requires rises { Rises tokens.now }
    ensures { result ≡ translation.closing tokens.now tops.now }
{
    last_brace(before_top(tokens, tops))
}
