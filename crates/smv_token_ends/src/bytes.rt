// The bytes between two offsets of a text.
ghost use Rattle.std.specs.Prelude.{◌≡◌, take, drop};
ghost use Rattle.law_strengthened_claims.specs.Renaming as renaming;

/// The bytes before an offset.
#[tactic(auto, using(std::proofs::lemmas::List::take_min))]
pub fn before(text: &[u8], at: usize) -> &[u8]
    ensures { result.now ≡ take at text.now }
{
    let at = at.min(text.len());
    text.split_at(at).0
}

/// The bytes from an offset on.
#[tactic(auto, using(std::proofs::lemmas::List::drop_min))]
pub fn behind(text: &[u8], at: usize) -> &[u8]
    ensures { result.now ≡ drop at text.now }
{
    let at = at.min(text.len());
    text.split_at(at).1
}

/// The bytes from an offset up to another.
pub fn between(text: &[u8], from: usize, to: usize) -> &[u8]
    ensures { result.now ≡ renaming.between text.now from to }
{
    before(behind(text, from), to.saturating_sub(from))
}
