// Where fault 25 stands.
ghost use Rattle.std.specs.Prelude.{◌≡◌, map};
ghost use Rattle.smv_core.specs.Types.{find_name};
ghost use Rattle.smv_core.specs.FlatOrder.{main};
ghost use Rattle.smv_mentions.specs.Scopes as noted;
ghost use Rattle.smv_mentions.specs.FirstFault as first;
ghost use Rattle.smv_mentions.specs.Said.{AreNoted, told};
ghost use Rattle.smv_size.specs.Place as spec;

use smv_core::fault::Fault;
use smv_core::tree::Text;
use smv_mentions::pieces::Piece;

/// The fault of a text that is too large, at the word `main` of its module.
pub(crate) fn fault_at_main(text: &Text, pieces: &[Piece]) -> Option<Fault>
    requires { AreNoted pieces.now text.now }
    ensures { result ≡ first.fault_at_main (find_name (map (λ piece. (piece.word.name, piece)) (noted.pieces text.now)) main) }
{
    let _ = text;
    first_main(pieces)
}

// The same, by what was noted.
fn first_main(pieces: &[Piece]) -> Option<Fault>
    ensures { result ≡ spec.main_told (map told pieces.now) }
{
    for piece in pieces {
        if piece.word.name.as_bytes() == b"main".as_slice() {
            return Some(Fault {
                number: 25,
                at: piece.word.at,
            });
        }
    }
    None
}
